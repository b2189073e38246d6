//! The cells of a matrix, what weights pay in them, and its saddles.

ghost use Rattle.std.specs.Prelude.{◌≡◌, ◌↔◌, ℕ, IsTrue, IsOk, IfOk, IfSome, IfNone, ◌+◌, ◌*◌, ◌<◌, ◌≤◌, length, All, pos, ◌+ℤ◌, ◌*ℤ◌, unsigned_abs, slice_index_or, ◌≤ℤ◌};
ghost use Rattle.sums.specs.declared.TheConstants.{MOST_MOVES, MOST_WEIGHT, MOST_BOUND};
ghost use Rattle.matrix_game.specs.Grid.{IsSaddle, IsFirstSaddle, HasGoodShape, IsSmallCell, IsFirstLarge, IsSpread, cell_at, column_sum, row_sum, row_floor, col_ceiling};
ghost use Rattle.matrix_game.specs.Replies.{IsReplyTo};

use std::marker::Model;
use sums::{MOST_BOUND, MOST_MOVES, weighted};
use thiserror::Error;

/// The payoffs of a game to player one, whose moves are the rows, in whole numbers of any unit: 1 to
/// `MOST_MOVES` rows and columns, and cells of at most `MOST_BOUND` in size. Moves are numbered from 0.
#[derive(Drop)]
pub struct Matrix {
    pub(crate) rows: usize,
    pub(crate) cols: usize,
    pub(crate) cells: Vec<i64>,
}

impl Model for Matrix {
    ghost use Rattle.matrix_game.specs.Grid.{Grid, IsMatrix};

    ghost Value = { Grid };

    ghost view = { λ m. record { rows = m.rows; cols = m.cols; cells = m.cells.items } };

    ghost invariant = { λ m. IsMatrix (record { rows = m.rows; cols = m.cols; cells = m.cells.items }) };
}

/// Why a list of cells is no matrix.
#[derive(Clone, Copy, Debug, PartialEq, Eq, Error)]
pub enum ShapeError {
    /// A side is 0 or too long, or the cells are not as many as rows times columns.
    #[error("a side is out of range, or the cells are not as many as rows times columns")]
    BadShape,
    /// The first cell whose size is too great.
    #[error("cell {place} is too large")]
    CellRange { place: u32 },
}

// The least and the greatest of the cells.
#[derive(Clone, Copy)]
pub(crate) struct CellRange {
    pub(crate) least: i64,
    pub(crate) greatest: i64,
}

// A reply, and what the weights that it answers pay there.
#[derive(Clone, Copy)]
pub(crate) struct Reply {
    pub(crate) col: usize,
    pub(crate) paid: i64,
}

impl Matrix {
    /// The matrix with these cells, which stand row by row. Takes no memory.
    pub fn new(rows: u32, cols: u32, cells: Vec<i64>) -> Result<Matrix, ShapeError>
        ensures matrix { IfOk result (λ m. m ≡ record { rows = rows; cols = cols; cells = cells.items }) }
        ensures ok { IsOk result ↔ (HasGoodShape rows cols (length cells.items) × All IsSmallCell cells.items) }
        ensures shape { (result ≡ Err ShapeError.BadShape) ↔ (HasGoodShape rows cols (length cells.items) → ⊥) }
        ensures range { (place : ℕ) → result ≡ Err (ShapeError.CellRange place)
            → HasGoodShape rows cols (length cells.items) × IsFirstLarge cells.items place }
    {
        if rows == 0 || rows > MOST_MOVES || cols == 0 || cols > MOST_MOVES {
            return Err(ShapeError::BadShape);
        }
        if cells.len() != rows as usize * cols as usize {
            return Err(ShapeError::BadShape);
        }
        for (place, cell) in cells.iter().enumerate() {
            if cell.unsigned_abs() > MOST_BOUND {
                return Err(ShapeError::CellRange {
                    place: place as u32,
                });
            }
        }
        Ok(Matrix {
            rows: rows as usize,
            cols: cols as usize,
            cells,
        })
    }

    // Whether the cell is least in its row and greatest in its column.
    fn is_saddle(&self, row: usize, col: usize) -> bool
        requires row_in { row < self.now.rows }
        requires col_in { col < self.now.cols }
        ensures { IsTrue result ↔ IsSaddle self.now row col }
    {
        let payoff = self.cell(row, col);
        for other in 0..self.cols {
            if self.cell(row, other) < payoff {
                return false;
            }
        }
        for rival in 0..self.rows {
            if payoff < self.cell(rival, col) {
                return false;
            }
        }
        true
    }

    /// The row and column of the first cell, row by row, that is least in its row and greatest in its column.
    pub fn saddle(&self) -> Option<(u32, u32)>
        ensures found { IfSome result (λ place. IsFirstSaddle self.now place.0 place.1) }
        ensures none { IfNone result ((a b : ℕ) → IsSaddle self.now a b → ⊥) }
    {
        for row in 0..self.rows {
            for col in 0..self.cols {
                if self.is_saddle(row, col) {
                    return Some((row as u32, col as u32));
                }
            }
        }
        None
    }

    pub(crate) fn range(&self) -> CellRange
        ensures above { (i : ℕ) → i < length self.now.cells → result.least ≤ℤ slice_index_or self.now.cells i (pos 0) }
        ensures below { (i : ℕ) → i < length self.now.cells
            → slice_index_or self.now.cells i (pos 0) ≤ℤ result.greatest }
        ensures small_least { unsigned_abs result.least ≤ MOST_BOUND }
        ensures small_greatest { unsigned_abs result.greatest ≤ MOST_BOUND }
        ensures ordered { result.least ≤ℤ result.greatest }
        ensures closest { (d : ℕ) → IsSpread self.now d → result.greatest ≤ℤ (result.least +ℤ pos d) }
    {
        let mut least = self.cells[0];
        let mut greatest = least;
        for cell in &self.cells {
            least = least.min(*cell);
            greatest = greatest.max(*cell);
        }
        CellRange { least, greatest }
    }

    pub(crate) fn cell(&self, row: usize, col: usize) -> i64
        requires row_in { row < self.now.rows }
        requires col_in { col < self.now.cols }
        ensures value { result ≡ cell_at self.now row col }
        ensures small { unsigned_abs result ≤ MOST_BOUND }
    {
        self.cells[row * self.cols + col]
    }

    // A cell's part of a sum.
    pub(crate) fn weighted(&self, weight: u32, row: usize, col: usize) -> i64
        requires light { weight ≤ MOST_WEIGHT }
        requires row_in { row < self.now.rows }
        requires col_in { col < self.now.cols }
        ensures value { result ≡ pos weight *ℤ cell_at self.now row col }
        ensures small { unsigned_abs result ≤ 4194304000000000 }
    {
        weighted(weight, self.cell(row, col))
    }

    // What the weights of the rows pay in a column.
    fn column_sum(&self, p: &[u32], col: usize) -> i64
        requires weights { length p.now ≡ self.now.rows }
        requires light { All (λ x. x ≤ MOST_WEIGHT) p.now }
        requires col_in { col < self.now.cols }
        ensures value { result ≡ column_sum self.now p.now col }
        ensures bounded { unsigned_abs result ≤ MOST_MOVES * (MOST_WEIGHT * MOST_BOUND) }
    {
        let mut sum = 0;
        for row in 0..self.rows {
            sum += self.weighted(p[row], row, col);
        }
        sum
    }

    // What the weights of the columns pay in a row.
    fn row_sum(&self, v: &[u32], row: usize) -> i64
        requires weights { length v.now ≡ self.now.cols }
        requires light { All (λ x. x ≤ MOST_WEIGHT) v.now }
        requires row_in { row < self.now.rows }
        ensures value { result ≡ row_sum self.now v.now row }
    {
        let mut sum = 0;
        for col in 0..self.cols {
            sum += self.weighted(v[col], row, col);
        }
        sum
    }

    // The first column in which the weights of the rows pay least.
    pub(crate) fn best_reply(&self, p: &[u32]) -> Reply
        requires weights { length p.now ≡ self.now.rows }
        requires light { All (λ x. x ≤ MOST_WEIGHT) p.now }
        ensures { IsReplyTo self.now p.now result }
    {
        let cols = self.cols;
        let mut reply = Reply {
            col: 0,
            paid: self.column_sum(p, 0),
        };
        for col in 1..cols {
            let paid = self.column_sum(p, col);
            if paid < reply.paid {
                reply = Reply { col, paid };
            }
        }
        reply
    }

    /// The least that the weights `p` of the rows pay in a column.
    pub fn row_floor(&self, p: &[u32]) -> i64
        requires weights { length p.now ≡ self.now.rows }
        requires light { All (λ x. x ≤ MOST_WEIGHT) p.now }
        ensures { result ≡ row_floor self.now p.now }
    {
        self.best_reply(p).paid
    }

    /// The greatest that the weights `v` of the columns pay in a row.
    pub fn col_ceiling(&self, v: &[u32]) -> i64
        requires weights { length v.now ≡ self.now.cols }
        requires light { All (λ x. x ≤ MOST_WEIGHT) v.now }
        ensures { result ≡ col_ceiling self.now v.now }
    {
        let rows = self.rows;
        let mut best = self.row_sum(v, 0);
        for row in 1..rows {
            let sum = self.row_sum(v, row);
            if best < sum {
                best = sum;
            }
        }
        best
    }
}
