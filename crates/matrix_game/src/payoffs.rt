//! The payoffs of a matrix as one side sees them, in floats, which hold them and their sums by weights exactly.

ghost use Rattle.std.specs.Prelude.{◌≡◌, ◌+◌, ◌*◌, ◌<◌, ◌≤◌, length};
ghost use Rattle.sums.specs.declared.TheConstants.{MOST_MOVES};

use crate::cells::Matrix;
use std::alloc::{AllocError, Global};
use std::num::nearest_i64_to_f64;
use sums::MOST_MOVES;

/// Room for a number for each move that a side may have. It is kept from one matrix to the next, since a new one takes
/// longer than a small matrix does; each use writes the numbers that it reads.
pub(crate) type Line = [f64; MOST_MOVES as usize];

pub(crate) const ZEROS: Line = [0.0; MOST_MOVES as usize];

/// The payoffs to a side, whose moves are the rows, row by row; the columns are the moves of the other side. There is room
/// for as many as a matrix may have.
#[derive(Drop)]
pub(crate) struct Payoffs {
    pub(crate) rows: usize,
    pub(crate) cols: usize,
    cells: Vec<f64>,
    ghost some_row: { 1 ≤ rows },
    ghost few_rows: { rows ≤ MOST_MOVES },
    ghost some_col: { 1 ≤ cols },
    ghost few_cols: { cols ≤ MOST_MOVES },
    ghost room: { length cells.items ≡ MOST_MOVES * MOST_MOVES },
}

impl Payoffs {
    /// Those of a single cell.
    pub(crate) fn new(alloc: Global) -> Result<Payoffs, AllocError> {
        Ok(Payoffs {
            rows: 1,
            cols: 1,
            cells: vec![in alloc; 0.0f64; (MOST_MOVES * MOST_MOVES) as usize]?,
        })
    }

    /// Takes on the payoffs of a matrix to player one.
    pub(crate) fn read(&mut self, matrix: &Matrix)
        ensures rows { self.new.rows ≡ matrix.now.rows }
        ensures cols { self.new.cols ≡ matrix.now.cols }
    {
        for place in 0..matrix.rows * matrix.cols {
            self.cells[place] = nearest_i64_to_f64(matrix.cells[place]);
        }
        self.rows = matrix.rows;
        self.cols = matrix.cols;
    }

    /// Takes on payoffs in floats, which stand row by row.
    pub(crate) fn read_floats(&mut self, rows: usize, cols: usize, cells: &[f64])
        requires some_row { 1 ≤ rows }
        requires few_rows { rows ≤ MOST_MOVES }
        requires some_col { 1 ≤ cols }
        requires few_cols { cols ≤ MOST_MOVES }
        requires all { length cells.now ≡ rows * cols }
        ensures rows { self.new.rows ≡ rows }
        ensures cols { self.new.cols ≡ cols }
    {
        for place in 0..rows * cols {
            self.cells[place] = cells[place];
        }
        self.rows = rows;
        self.cols = cols;
    }

    /// Takes on payoffs as the other side sees them.
    pub(crate) fn turn(&mut self, other: &Payoffs)
        ensures rows { self.new.rows ≡ other.now.cols }
        ensures cols { self.new.cols ≡ other.now.rows }
    {
        for col in 0..other.cols {
            for row in 0..other.rows {
                self.cells[col * other.rows + row] = -other.cell(row, col);
            }
        }
        self.rows = other.cols;
        self.cols = other.rows;
    }

    /// What the row pays in the column.
    pub(crate) fn cell(&self, row: usize, col: usize) -> f64
        requires row_in { row < self.now.rows }
        requires col_in { col < self.now.cols }
    {
        self.cells[row * self.cols + col]
    }

    /// The least payoff, and how much the greatest is above it.
    pub(crate) fn range(&self) -> (f64, f64) {
        let mut least = self.cell(0, 0);
        let mut greatest = least;
        for cell in &self.cells[..self.rows * self.cols] {
            least = least.min(*cell);
            greatest = greatest.max(*cell);
        }
        (least, greatest - least)
    }

    /// Writes what the weights of the rows pay in each column.
    pub(crate) fn write_sums(&self, weights: &[u32], sums: &mut [f64])
        requires weights { length weights.now ≡ self.now.rows }
        requires sums { length sums.old ≡ self.now.cols }
    {
        sums.fill(0.0);
        for row in 0..self.rows {
            if weights[row] > 0 {
                self.add(row, f64::from(weights[row]), sums);
            }
        }
    }

    /// Adds what a row pays with a weight to the sums of the columns.
    pub(crate) fn add(&self, row: usize, weight: f64, sums: &mut [f64])
        requires row_in { row < self.now.rows }
        requires sums { length sums.old ≡ self.now.cols }
    {
        for col in 0..self.cols {
            sums[col] += weight * self.cell(row, col);
        }
    }
}
