//! Matrix games with two players and whole payoffs, solved by regret matching plus against best replies, or by linear
//! programs in floats whose answers are tested exactly.
#![tactic(auto)]

ghost use Rattle.matrix_game.specs.Rounds.{ResolutionLaw, StageLaw};
ghost use Rattle.matrix_game.specs.Shifts.{ShiftLaw};

mod budget;
mod cells;
mod floats;
mod heights;
mod linear;
mod memory;
mod payoffs;
mod regrets;
mod rounding;
mod rounds;
mod shares;
mod solver;
mod stage;
mod tableau;

pub use budget::Turns;
pub use cells::{Matrix, ShapeError};
pub use floats::{FloatPlans, FloatSolver};
pub use linear::LinearBuffers;
pub use memory::StageMemory;
pub use solver::{SolverKind, StageSolver};
pub use stage::{StageError, StagePlans};

/// Over enough rounds the square of the gap between ceiling and floor is at most twice the rows times the weight,
/// times the square of what two cells differ by.
pub fn stage_law()
    ensures { StageLaw }
{}

/// The same as a difference, at a resolution that is fine enough for what two cells differ by.
pub fn resolution_law()
    ensures { ResolutionLaw }
{}

/// One number added to every cell changes no regret, round, reply, saddle or answer.
pub fn shift_law()
    ensures { ShiftLaw }
{}
