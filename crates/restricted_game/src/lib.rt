//! Restricted games: games at a state in which each side has some of its moves, and the bounds that they prove.
#![tactic(auto)]

ghost use Rattle.restricted_game.specs.Held.{FewSteps};

mod alone;
mod buffers;
mod cells;
mod children;
mod held;
mod node;
mod plans;
mod posts;
mod reading;
mod stage;
mod table;

pub use buffers::StageBuffers;
pub use children::ChildRows;
pub use held::{Restricted, StepEnd, StepFault};
pub use node::Node;
pub use table::StageNumbers;

/// A restricted game takes fewer steps than there are moves of both sides, up to and with the first that is done.
pub fn few_steps()
    ensures { FewSteps }
{}
