//! A matrix as a linear program in floats, solved by exchanges of variables. Nothing is claimed of its numbers: who uses
//! them tests what comes of them.

ghost use Rattle.std.specs.Prelude.{◌≡◌, IfSome, ◌+◌, ◌*◌, ◌<◌, ◌≤◌, length};
ghost use Rattle.sums.specs.declared.TheConstants.{MOST_MOVES};

use crate::payoffs::{Line, Payoffs, ZEROS};
use std::alloc::{AllocError, Global};
use sums::MOST_MOVES;

// A column enters where its cost is below this.
const GREATEST_COST: f64 = -1e-11;

// Ratios are taken for equal where they differ by no more.
const TIE: f64 = 1e-13;

/// The least pivot of a first try, which holds off noise where many numbers are about 0.
pub(crate) const FIRST_PIVOT: f64 = 1e-9;

/// The least pivot of a second try, which lets in the small pivots of cells of very different sizes.
pub(crate) const SECOND_PIVOT: f64 = 1e-11;

// How many numbers a line of a tableau has at most, and how many lines there are at most.
const MOST_LINES: u32 = MOST_MOVES + 1;

/// Room for shares of the rows and of the columns, which sum to 1 but for rounding.
#[derive(Drop)]
pub(crate) struct Shares {
    pub(crate) rows: Line,
    pub(crate) cols: Line,
}

pub(crate) const NO_SHARES: Shares = Shares {
    rows: ZEROS,
    cols: ZEROS,
};

/// With the payoffs shifted and scaled into 1 to 2, the weights of the columns that sum to the most where no row pays more
/// than 1. Divided by their sum they are the plan of the columns, and the costs of the rows' slacks that of the rows. There
/// is room for as many as a matrix may have.
#[derive(Drop)]
pub(crate) struct Tableau {
    rows: usize,
    cols: usize,
    // A line for each row: its numbers by columns, and the value of its variable; and a last one: the costs, and the sum.
    numbers: Vec<f64>,
    // The variable of each row and of each column: below the rows the slack of a row, else the weight of a column.
    basic: Vec<usize>,
    free: Vec<usize>,
    // The line of the last pivot.
    pivot: Vec<f64>,
    ghost few_rows: { rows ≤ MOST_MOVES },
    ghost few_cols: { cols ≤ MOST_MOVES },
    ghost room: { length numbers.items ≡ (MOST_MOVES + 1) * (MOST_MOVES + 1) },
    ghost basic_room: { length basic.items ≡ MOST_MOVES },
    ghost free_room: { length free.items ≡ MOST_MOVES },
    ghost pivot_room: { length pivot.items ≡ MOST_MOVES + 1 },
}

impl Payoffs {
    // Writes the numbers at first: no column has a weight.
    fn write_numbers(&self, numbers: &mut [f64])
        requires { length numbers.old ≡ (MOST_MOVES + 1) * (MOST_MOVES + 1) }
    {
        let (rows, cols) = (self.rows, self.cols);
        let (least, spread) = self.range();
        let scale = 1.0 / spread.max(1.0);
        for row in 0..rows {
            let line = &mut numbers[row * (cols + 1)..(row + 1) * (cols + 1)];
            for col in 0..cols {
                line[col] = (self.cell(row, col) - least) * scale + 1.0;
            }
            line[cols] = 1.0;
        }
        let costs = &mut numbers[rows * (cols + 1)..];
        costs[..cols].fill(-1.0);
        costs[cols] = 0.0;
    }
}

// Numbers so many places from the first one on.
fn name(names: &mut [usize], count: usize, first: usize)
    requires count { count ≤ MOST_MOVES }
    requires first { first ≤ MOST_MOVES }
    requires room { length names.old ≡ MOST_MOVES }
{
    for place in 0..count {
        names[place] = first + place;
    }
}

impl Tableau {
    /// That of no payoffs.
    pub(crate) fn new(alloc: Global) -> Result<Tableau, AllocError> {
        Ok(Tableau {
            rows: 0,
            cols: 0,
            numbers: vec![in alloc; 0.0f64; (MOST_LINES * MOST_LINES) as usize]?,
            basic: vec![in alloc; 0usize; MOST_MOVES as usize]?,
            free: vec![in alloc; 0usize; MOST_MOVES as usize]?,
            pivot: vec![in alloc; 0.0f64; MOST_LINES as usize]?,
        })
    }

    /// Writes shares of the rows and of the columns that solve the payoffs, or nearly so.
    pub(crate) fn solve(&mut self, payoffs: &Payoffs, least_pivot: f64, shares: &mut Shares) {
        self.begin(payoffs);
        self.maximise(least_pivot);
        let scale = 1.0 / self.number(self.rows, self.cols);
        self.write_row_shares(scale, &mut shares.rows[..self.rows]);
        self.write_col_shares(scale, &mut shares.cols[..self.cols]);
    }

    // Takes on the payoffs, before any exchange.
    fn begin(&mut self, payoffs: &Payoffs) {
        self.rows = payoffs.rows;
        self.cols = payoffs.cols;
        payoffs.write_numbers(&mut self.numbers);
        name(&mut self.basic, payoffs.rows, 0);
        name(&mut self.free, payoffs.cols, payoffs.rows);
    }

    fn number(&self, row: usize, col: usize) -> f64
        requires row_in { row ≤ self.now.rows }
        requires col_in { col ≤ self.now.cols }
    {
        self.numbers[row * (self.cols + 1) + col]
    }

    // Whether a column enters before another one: by its cost, or by its name, by which no exchanges come round again.
    fn enters_before(&self, col: usize, other: Option<usize>, by_name: bool) -> bool
        requires col_in { col < self.now.cols }
        requires other_in { IfSome other (λ o. o < self.now.cols) }
    {
        match other {
            None => true,
            Some(other) if by_name => self.free[col] < self.free[other],
            Some(other) => self.number(self.rows, col) < self.number(self.rows, other),
        }
    }

    // The column to enter, where a cost is below 0.
    fn entering(&self, by_name: bool) -> Option<usize>
        ensures { IfSome result (λ col. col < self.now.cols) }
    {
        let mut found = None;
        for col in 0..self.cols {
            if self.number(self.rows, col) < GREATEST_COST
                && self.enters_before(col, found, by_name)
            {
                found = Some(col);
            }
        }
        found
    }

    // How far the column may rise until the row's variable is 0.
    fn ratio(&self, row: usize, col: usize) -> f64
        requires row_in { row < self.now.rows }
        requires col_in { col < self.now.cols }
    {
        self.number(row, self.cols) / self.number(row, col)
    }

    // Whether a row leaves before another one: by the lesser ratio, and of equal ones by the greater pivot or by its name.
    fn leaves_before(&self, row: usize, other: Option<usize>, col: usize, by_name: bool) -> bool
        requires row_in { row < self.now.rows }
        requires other_in { IfSome other (λ o. o < self.now.rows) }
        requires col_in { col < self.now.cols }
    {
        let Some(other) = other else {
            return true;
        };
        let excess = self.ratio(row, col) - self.ratio(other, col);
        if excess < -TIE {
            true
        } else if excess > TIE {
            false
        } else if by_name {
            self.basic[row] < self.basic[other]
        } else {
            self.number(row, col) > self.number(other, col)
        }
    }

    // The row to leave, where a pivot is great enough.
    fn leaving(&self, col: usize, least_pivot: f64, by_name: bool) -> Option<usize>
        requires col_in { col < self.now.cols }
        ensures { IfSome result (λ row. row < self.now.rows) }
    {
        let mut found = None;
        for row in 0..self.rows {
            if self.number(row, col) > least_pivot && self.leaves_before(row, found, col, by_name) {
                found = Some(row);
            }
        }
        found
    }

    // Exchanges the variables of a row and of a column.
    fn exchange(&mut self, row: usize, col: usize)
        requires row_in { row < self.old.rows }
        requires col_in { col < self.old.cols }
        ensures rows { self.new.rows ≡ self.old.rows }
        ensures cols { self.new.cols ≡ self.old.cols }
    {
        let (lines, width) = (self.rows + 1, self.cols + 1);
        eliminate(&mut self.numbers, lines, width, &mut self.pivot, row, col);
        let name = self.basic[row];
        self.basic[row] = self.free[col];
        self.free[col] = name;
    }

    // Exchanges up to the greatest sum, or as many as are worth it.
    fn maximise(&mut self, least_pivot: f64)
        ensures rows { self.new.rows ≡ self.old.rows }
        ensures cols { self.new.cols ≡ self.old.cols }
    {
        let sides = self.rows + self.cols;
        for turn in 0..16 * sides {
            let by_name = turn >= 2 * sides;
            let Some(col) = self.entering(by_name) else {
                return;
            };
            let Some(row) = self.leaving(col, least_pivot, by_name) else {
                return;
            };
            self.exchange(row, col);
        }
    }

    // Writes the shares of the rows, by the costs of their slacks.
    fn write_row_shares(&self, scale: f64, shares: &mut [f64])
        requires { length shares.old ≡ self.now.rows }
    {
        shares.fill(0.0);
        for col in 0..self.cols {
            let name = self.free[col];
            if name < self.rows {
                shares[name] = self.number(self.rows, col) * scale;
            }
        }
    }

    // Writes the shares of the columns, by their weights.
    fn write_col_shares(&self, scale: f64, shares: &mut [f64])
        requires { length shares.old ≡ self.now.cols }
    {
        shares.fill(0.0);
        for row in 0..self.rows {
            let name = self.basic[row];
            if name >= self.rows && name - self.rows < self.cols {
                shares[name - self.rows] = self.number(row, self.cols) * scale;
            }
        }
    }
}

// Makes the number in a row and column the pivot: all others of the column go to 0, and its own place holds its inverse.
fn eliminate(
    numbers: &mut [f64],
    lines: usize,
    width: usize,
    pivot: &mut [f64],
    row: usize,
    col: usize,
)
    requires all { lines * width ≤ length numbers.old }
    requires width { width ≤ length pivot.old }
    requires row_in { row < lines }
    requires col_in { col < width }
{
    let pivot = &mut pivot[..width];
    pivot.copy_from_slice(&numbers[row * width..row * width + width]);
    divide(pivot, col);
    for line in 0..lines {
        let numbers = &mut numbers[line * width..line * width + width];
        if line == row {
            numbers.copy_from_slice(pivot);
        } else {
            reduce(numbers, pivot, col);
        }
    }
}

// Divides a line by the number in the column, where its inverse then stands.
fn divide(line: &mut [f64], col: usize)
    requires { col < length line.old }
{
    let inverse = 1.0 / line[col];
    for place in 0..line.len() {
        line[place] *= inverse;
    }
    line[col] = inverse;
}

// Takes the pivot's line from another one, times what that has in the column.
fn reduce(line: &mut [f64], pivot: &[f64], col: usize)
    requires same { length line.old ≡ length pivot.now }
    requires col_in { col < length line.old }
{
    let factor = line[col];
    if factor == 0.0 {
        return;
    }
    line[col] = 0.0;
    for place in 0..line.len() {
        line[place] -= factor * pivot[place];
    }
}
