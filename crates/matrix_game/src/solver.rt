//! The solver of matrix games that a search uses.

ghost use Rattle.std.specs.Prelude.{◌≡◌, ◌↔◌, IfOk, ◌≤◌};
ghost use Rattle.sums.specs.declared.TheConstants.{MOST_WEIGHT};
ghost use Rattle.matrix_game.specs.Plans.{AreStagePlans, IsPureAtSaddle, TakesTurn};
ghost use Rattle.matrix_game.specs.Rounds.{IsStage};
ghost use Rattle.matrix_game.specs.Solvers.{UsesRegret, solver_of};

use crate::budget::Turns;
use crate::cells::Matrix;
use crate::linear::LinearBuffers;
use crate::memory::StageMemory;
use crate::stage::{StageError, StagePlans};
use std::alloc::Global;

/// Which solver of matrix games.
#[derive(Clone, Copy, Debug, PartialEq, Eq)]
pub enum SolverKind {
    /// By rounds of regret matching plus, with a memory of so many solved matrices.
    Regret { kept: u32 },
    /// By linear programs.
    Linear,
}

/// A solver of matrix games, with what it keeps from one to the next.
#[derive(Drop)]
pub enum StageSolver {
    /// By rounds of regret matching plus, whose answers the memory keeps.
    Regret(StageMemory),
    /// By a linear program in floats, or by rounds where that misses the stage law.
    Linear(LinearBuffers),
}

impl StageSolver {
    /// The solver of a kind, which keeps nothing yet. It takes no memory.
    pub fn new(kind: SolverKind) -> StageSolver
        ensures { result ≡ solver_of kind }
    {
        match kind {
            SolverKind::Regret { kept } => StageSolver::Regret(StageMemory::new(kept)),
            SolverKind::Linear => StageSolver::Linear(LinearBuffers::new()),
        }
    }

    /// Solves the matrix by weights that sum to `total`, for one turn: pure at the first saddle. Without a turn left the
    /// answer is `Spent`, and no memory is taken.
    #[tactic(auto, using(crate::proofs::Stages::pure_if_ok))]
    pub fn solve(
        &mut self,
        alloc: Global,
        matrix: &Matrix,
        total: u32,
        turns: &mut Turns,
    ) -> Result<StagePlans, StageError>
        requires some { 1 ≤ total }
        requires light { total ≤ MOST_WEIGHT }
        ensures stage { UsesRegret self.old → IfOk result (λ plans. IsStage matrix.now total plans.p plans.v) }
        ensures plans { IfOk result (AreStagePlans matrix.now total) }
        ensures pure { IfOk result (IsPureAtSaddle matrix.now total) }
        ensures turn { TakesTurn turns.old turns.new result }
        ensures kind { UsesRegret self.new ↔ UsesRegret self.old }
    {
        match self {
            StageSolver::Regret(memory) => matrix.solve_with_memory(alloc, total, turns, memory),
            StageSolver::Linear(buffers) => matrix.solve_linear_in(alloc, total, turns, buffers),
        }
    }
}
