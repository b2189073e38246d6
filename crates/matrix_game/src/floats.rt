//! Matrices of floats, solved by linear programs alone. Nothing is claimed of how near their answers are.

ghost use Rattle.std.specs.Prelude.{◌≡◌, OnOk, ◌*◌, ◌<◌, ◌≤◌, length};
ghost use Rattle.sums.specs.declared.TheConstants.{MOST_MOVES, MOST_WEIGHT};
ghost use Rattle.matrix_game.specs.Budget.{left_of, after_one_turn};
ghost use Rattle.matrix_game.specs.Rounds.{IsWeighted};

use crate::budget::Turns;
use crate::payoffs::{Line, Payoffs, ZEROS};
use crate::rounding::least;
use crate::tableau::{FIRST_PIVOT, NO_SHARES, SECOND_PIVOT, Shares, Tableau};
use std::alloc::{AllocError, Global};
use std::mem;

// Plans of both sides are taken for the best where they differ by no more than this part of what pure plans differ by.
const NEAR: f64 = 1e-9;

/// What linear programs over floats are solved in, kept from one matrix to the next.
#[derive(Drop)]
pub struct FloatSolver {
    own: Payoffs,
    // The same as the other side sees it.
    other: Payoffs,
    tableau: Tableau,
    shares: Shares,
    // Room to work in.
    line: Line,
    weights: Vec<u32>,
}

/// Whole weights of the moves of both sides, kept from one matrix to the next.
#[derive(Drop)]
pub struct FloatPlans {
    pub rows: Vec<u32>,
    pub cols: Vec<u32>,
}

// A row with the greatest least payoff, and a column with the least greatest one; and what two payoffs differ by at most.
#[derive(Clone, Copy)]
struct PurePlans {
    row: usize,
    floor: f64,
    col: usize,
    ceiling: f64,
    spread: f64,
}

impl Payoffs {
    // The best that a single row secures and a single column concedes. The line is room to work in.
    fn pure_plans(&self, line: &mut Line) -> PurePlans
        ensures row { result.row < self.now.rows }
        ensures col { result.col < self.now.cols }
    {
        let ceilings = &mut line[..self.cols];
        let (mut row, mut floor, mut lowest) = (0, f64::NEG_INFINITY, f64::INFINITY);
        for next in 0..self.rows {
            let least = self.take_row(next, ceilings);
            lowest = lowest.min(least);
            if least > floor {
                (row, floor) = (next, least);
            }
        }
        let (col, ceiling, highest) = ends_of(ceilings);
        PurePlans {
            row,
            floor,
            col,
            ceiling,
            spread: highest - lowest,
        }
    }

    // The least payoff of a row, whose payoffs raise the ceilings of the columns. The first row sets them.
    fn take_row(&self, row: usize, ceilings: &mut [f64]) -> f64
        requires row_in { row < self.now.rows }
        requires each { length ceilings.old ≡ self.now.cols }
    {
        let mut lowest = f64::INFINITY;
        for col in 0..self.cols {
            let cell = self.cell(row, col);
            if cell < lowest {
                lowest = cell;
            }
            if row == 0 || cell > ceilings[col] {
                ceilings[col] = cell;
            }
        }
        lowest
    }

    // What shares of the rows secure. The line is room to work in.
    fn floor_by(&self, shares: &Line, line: &mut Line) -> f64 {
        let shares = &shares[..self.rows];
        let sums = &mut line[..self.cols];
        sums.fill(0.0);
        let mut all = 0.0;
        for row in 0..self.rows {
            all += shares[row];
            self.add(row, shares[row], sums);
        }
        least(sums) / all
    }

    // What shares of the columns pay in a row.
    fn row_sum(&self, row: usize, shares: &[f64]) -> f64
        requires row_in { row < self.now.rows }
        requires shares { length shares.now ≡ self.now.cols }
    {
        let mut sum = 0.0;
        for col in 0..self.cols {
            sum += shares[col] * self.cell(row, col);
        }
        sum
    }

    // What shares of the columns concede.
    fn ceiling_by(&self, shares: &Line) -> f64 {
        let shares = &shares[..self.cols];
        let mut greatest = f64::NEG_INFINITY;
        for row in 0..self.rows {
            greatest = greatest.max(self.row_sum(row, shares));
        }
        let mut all = 0.0;
        for col in 0..self.cols {
            all += shares[col];
        }
        greatest / all
    }

    // Whether a gap between what whole weights of both sides secure and concede is no wider than that of exact plans in whole
    // weights, which lose a quarter of the spread a move on each side.
    fn is_tight(&self, gap: f64, spread: f64) -> bool {
        let moves = self.rows.min(self.cols) as u32;
        gap <= 0.5 * spread * f64::from(moves)
    }

    // Writes weights of the rows by the shares in place of those that are there, where they secure more than the floor.
    // The line and the other weights are room to work in.
    fn raise_weights(
        &self,
        shares: &Line,
        total: u32,
        floor: f64,
        line: &mut Line,
        others: &mut Vec<u32>,
        weights: &mut Vec<u32>,
    ) -> Result<(), AllocError>
        requires light { total ≤ MOST_WEIGHT }
        requires weighted { IsWeighted self.now.rows total weights.old.items }
        ensures { OnOk result (IsWeighted self.now.rows total weights.new.items) }
    {
        if self.write_weights(shares, total, line, others)? > floor {
            mem::swap(weights, others);
        }
        Ok(())
    }
}

// The first place of the least number, with it, and the greatest number; infinite ones where there is none.
fn ends_of(numbers: &[f64]) -> (usize, f64, f64)
    requires { 1 ≤ length numbers.now }
    ensures { result.0 < length numbers.now }
{
    let (mut found, mut least, mut greatest) = (0, f64::INFINITY, f64::NEG_INFINITY);
    for place in 0..numbers.len() {
        let number = numbers[place];
        greatest = greatest.max(number);
        if number < least {
            (found, least) = (place, number);
        }
    }
    (found, least, greatest)
}

// Writes so many weights: all of the total at the place.
fn write_pure(
    count: usize,
    place: usize,
    total: u32,
    weights: &mut Vec<u32>,
) -> Result<(), AllocError>
    requires { place < count }
    ensures { OnOk result (IsWeighted count total weights.new.items) }
{
    weights.clear();
    weights.resize(count, 0)?;
    weights[place] = total;
    Ok(())
}

impl FloatPlans {
    /// Those of no matrix yet. Takes no memory.
    pub fn new(alloc: Global) -> FloatPlans
        ensures rows { length result.rows.items ≡ 0 }
        ensures cols { length result.cols.items ≡ 0 }
    {
        FloatPlans {
            rows: Vec::new(alloc),
            cols: Vec::new(alloc),
        }
    }
}

impl FloatSolver {
    /// That of no matrix yet.
    pub fn new(alloc: Global) -> Result<FloatSolver, AllocError> {
        Ok(FloatSolver {
            own: Payoffs::new(alloc)?,
            other: Payoffs::new(alloc)?,
            tableau: Tableau::new(alloc)?,
            shares: NO_SHARES,
            line: ZEROS,
            weights: Vec::new(alloc),
        })
    }

    // The same as `solve`, where the matrix is taken on as both sides see it, and no pure plans meet.
    fn solve_mixed(
        &mut self,
        pure: PurePlans,
        total: u32,
        plans: &mut FloatPlans,
    ) -> Result<f64, AllocError>
        requires other_rows { self.old.other.rows ≡ self.old.own.cols }
        requires light { total ≤ MOST_WEIGHT }
        ensures rows { OnOk result (IsWeighted self.old.own.rows total plans.new.rows.items) }
        ensures cols { OnOk result (IsWeighted self.old.own.cols total plans.new.cols.items) }
    {
        let FloatSolver {
            own,
            other,
            tableau,
            shares,
            line,
            weights,
        } = self;
        tableau.solve(own, FIRST_PIVOT, shares);
        let floor = own.floor_by(&shares.rows, line).max(pure.floor);
        let ceiling = own.ceiling_by(&shares.cols).min(pure.ceiling);
        let is_near = ceiling - floor <= NEAR * (pure.ceiling - pure.floor);
        let low = own.write_weights(&shares.rows, total, line, &mut plans.rows)?;
        let high = -other.write_weights(&shares.cols, total, line, &mut plans.cols)?;
        if is_near && own.is_tight(high - low, pure.spread) {
            return Ok((floor + ceiling) * 0.5);
        }
        tableau.solve(other, SECOND_PIVOT, shares);
        own.raise_weights(&shares.cols, total, low, line, weights, &mut plans.rows)?;
        other.raise_weights(&shares.rows, total, -high, line, weights, &mut plans.cols)?;
        if is_near {
            return Ok((floor + ceiling) * 0.5);
        }
        let floor = own.floor_by(&shares.cols, line).max(floor);
        let ceiling = own.ceiling_by(&shares.rows).min(ceiling);
        Ok((floor + ceiling) * 0.5)
    }

    /// About the value of a matrix whose rows are a side's moves, with its payoffs to that side row by row, and whole weights
    /// of the moves of both sides, which sum to the total; for one turn. The value is in the middle of what the plans of both
    /// sides secure and concede. The weights are pure where a row secures what a column concedes, else by a linear program,
    /// and where that is not good enough, of each side the better of these and of the weights of a program as the other side
    /// sees it.
    pub fn solve(
        &mut self,
        rows: usize,
        cols: usize,
        cells: &[f64],
        total: u32,
        turns: &mut Turns,
        plans: &mut FloatPlans,
    ) -> Result<f64, AllocError>
        requires some_row { 1 ≤ rows }
        requires few_rows { rows ≤ MOST_MOVES }
        requires some_col { 1 ≤ cols }
        requires few_cols { cols ≤ MOST_MOVES }
        requires all { length cells.now ≡ rows * cols }
        requires light { total ≤ MOST_WEIGHT }
        requires left { 0 < left_of turns.old }
        ensures rows { OnOk result (IsWeighted rows total plans.new.rows.items) }
        ensures cols { OnOk result (IsWeighted cols total plans.new.cols.items) }
        ensures turn { turns.new ≡ after_one_turn turns.old }
    {
        turns.spend();
        self.own.read_floats(rows, cols, cells);
        let pure = self.own.pure_plans(&mut self.line);
        if pure.floor >= pure.ceiling {
            write_pure(rows, pure.row, total, &mut plans.rows)?;
            write_pure(cols, pure.col, total, &mut plans.cols)?;
            return Ok(pure.floor);
        }
        self.other.turn(&self.own);
        self.solve_mixed(pure, total, plans)
    }
}
