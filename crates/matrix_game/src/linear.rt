//! The other solver: weights by a linear program in floats, taken where they keep the stage law, else by rounds.

ghost use Rattle.std.specs.Prelude.{◌≡◌, IsTrue, IfOk, ◌≤◌};
ghost use Rattle.sums.specs.declared.TheConstants.{MOST_WEIGHT};
ghost use Rattle.matrix_game.specs.Plans.{AreStagePlans, AreWeighed, IsPureAtSaddle, TakesTurn};

use crate::budget::Turns;
use crate::cells::Matrix;
use crate::memory::StageMemory;
use crate::payoffs::{Line, Payoffs, ZEROS};
use crate::rounds::Solution;
use crate::stage::{StageError, StagePlans};
use crate::tableau::{FIRST_PIVOT, NO_SHARES, SECOND_PIVOT, Shares, Tableau};
use std::alloc::{AllocError, Global};
use std::marker::Model;

// A matrix as each side sees it, the tableau that either is solved by, its shares, and room to work in.
#[derive(Drop)]
struct Program {
    one: Payoffs,
    two: Payoffs,
    tableau: Tableau,
    shares: Shares,
    line: Line,
}

/// What linear programs are solved in, kept from one matrix to the next. It changes no answer.
#[derive(Drop)]
pub struct LinearBuffers {
    // None until the first is solved.
    program: Option<Program>,
}

impl Model for LinearBuffers {
    ghost Value = { Unit {0} };

    ghost view = { λ b. tt };
}

impl LinearBuffers {
    /// Those of no matrix yet. Takes no memory.
    pub(crate) fn new() -> LinearBuffers {
        LinearBuffers { program: None }
    }

    // Makes room, where there is none yet.
    fn open(&mut self, alloc: Global) -> Result<(), AllocError> {
        if self.program.is_none() {
            self.program = Some(Program {
                one: Payoffs::new(alloc)?,
                two: Payoffs::new(alloc)?,
                tableau: Tableau::new(alloc)?,
                shares: NO_SHARES,
                line: ZEROS,
            });
        }
        Ok(())
    }
}

impl Payoffs {
    // Writes the shares of two rows and two columns without a saddle: each makes the other side's moves pay the same.
    fn solve_four(&self, shares: &mut Shares)
        requires rows { self.now.rows ≡ 2 }
        requires cols { self.now.cols ≡ 2 }
    {
        let (a, b) = (self.cell(0, 0), self.cell(0, 1));
        let (c, d) = (self.cell(1, 0), self.cell(1, 1));
        let all = a - b - c + d;
        let (row, col) = ((d - c) / all, (d - b) / all);
        (shares.rows[0], shares.rows[1]) = (row, 1.0 - row);
        (shares.cols[0], shares.cols[1]) = (col, 1.0 - col);
    }

    // Writes shares that solve the payoffs, where they have no saddle.
    fn solve(&self, tableau: &mut Tableau, shares: &mut Shares) {
        if self.rows == 2 && self.cols == 2 {
            self.solve_four(shares);
        } else {
            tableau.solve(self, FIRST_PIVOT, shares);
        }
    }
}

impl Matrix {
    // Whether floor and ceiling are as close as exact plans in whole weights are, which lose a quarter of the spread a move.
    fn is_tight(&self, plans: &StagePlans) -> bool {
        let gap = u128::from(plans.high.abs_diff(plans.low));
        let moves = self.rows.min(self.cols);
        2 * gap <= u128::from(self.spread()) * moves as u128
    }

    // Of each side the better weights.
    fn better(&self, total: u32, first: StagePlans, second: StagePlans) -> StagePlans
        requires first { AreWeighed self.now total first }
        requires second { AreWeighed self.now total second }
        ensures { AreWeighed self.now total result }
    {
        let mut best = first;
        let StagePlans { p, v, low, high } = second;
        if best.low < low {
            best.p = p;
            best.low = low;
        }
        if high < best.high {
            best.v = v;
            best.high = high;
        }
        best
    }

    // Plans by a linear program, and where they are not tight once more as the other side sees it, by other pivots.
    // Nothing is claimed of what they pay.
    fn proposed(
        &self,
        alloc: Global,
        total: u32,
        program: &mut Program,
    ) -> Result<StagePlans, AllocError>
        requires light { total ≤ MOST_WEIGHT }
        ensures { IfOk result (AreWeighed self.now total) }
    {
        let Program {
            one,
            two,
            tableau,
            shares,
            line,
        } = program;
        one.read(self);
        two.turn(one);
        one.solve(tableau, shares);
        let p = one.weights(alloc, &shares.rows, total, line)?;
        let v = two.weights(alloc, &shares.cols, total, line)?;
        let first = self.plans(total, Solution { p, v });
        if self.is_tight(&first) {
            return Ok(first);
        }
        tableau.solve(two, SECOND_PIVOT, shares);
        let p = one.weights(alloc, &shares.cols, total, line)?;
        let v = two.weights(alloc, &shares.rows, total, line)?;
        Ok(self.better(total, first, self.plans(total, Solution { p, v })))
    }

    // Whether floor and ceiling are as close as the stage law asks.
    fn keeps_law(&self, total: u32, plans: &StagePlans) -> bool
        requires light { total ≤ MOST_WEIGHT }
        requires weighed { AreWeighed self.now total plans.now }
        ensures { IsTrue result → AreStagePlans self.now total plans.now }
    {
        let gap = u128::from(plans.high.abs_diff(plans.low));
        let spread = u128::from(self.spread());
        let times = 2 * self.rows as u128 * u128::from(total);
        gap * gap <= times * (spread * spread)
    }

    // By the linear program where there is no saddle and it keeps the law, else as `solve`.
    fn linear_plans(
        &self,
        alloc: Global,
        total: u32,
        buffers: &mut LinearBuffers,
    ) -> Result<StagePlans, AllocError>
        requires some { 1 ≤ total }
        requires light { total ≤ MOST_WEIGHT }
        ensures plans { IfOk result (AreStagePlans self.now total) }
        ensures pure { IfOk result (IsPureAtSaddle self.now total) }
    {
        if self.saddle().is_none() {
            buffers.open(alloc)?;
            if let Some(program) = &mut buffers.program {
                let proposed = self.proposed(alloc, total, program)?;
                if self.keeps_law(total, &proposed) {
                    return Ok(proposed);
                }
            }
        }
        let weights = self.weights(alloc, total, &mut StageMemory::new(0))?;
        Ok(self.plans(total, weights))
    }

    /// Solves the matrix by weights that sum to `total`, for one turn: pure at the first saddle, else by a linear program
    /// in floats, or by rounds as `solve` where that misses the stage law. Without a turn left the answer is `Spent`, and
    /// no memory is taken.
    pub fn solve_linear(
        &self,
        alloc: Global,
        total: u32,
        turns: &mut Turns,
    ) -> Result<StagePlans, StageError>
        requires some { 1 ≤ total }
        requires light { total ≤ MOST_WEIGHT }
        ensures plans { IfOk result (AreStagePlans self.now total) }
        ensures pure { IfOk result (IsPureAtSaddle self.now total) }
        ensures turn { TakesTurn turns.old turns.new result }
    {
        self.solve_linear_in(alloc, total, turns, &mut LinearBuffers::new())
    }

    /// The same answer as that of `solve_linear`, for one turn as well. Where the buffers have solved a matrix before, a first
    /// linear program takes no memory but that of its weights.
    pub(crate) fn solve_linear_in(
        &self,
        alloc: Global,
        total: u32,
        turns: &mut Turns,
        buffers: &mut LinearBuffers,
    ) -> Result<StagePlans, StageError>
        requires some { 1 ≤ total }
        requires light { total ≤ MOST_WEIGHT }
        ensures plans { IfOk result (AreStagePlans self.now total) }
        ensures pure { IfOk result (IsPureAtSaddle self.now total) }
        ensures turn { TakesTurn turns.old turns.new result }
    {
        if turns.left() == 0 {
            return Err(StageError::Spent);
        }
        match self.linear_plans(alloc, total, buffers) {
            Ok(plans) => {
                turns.spend();
                Ok(plans)
            }
            Err(_) => Err(StageError::NoMemory),
        }
    }
}
