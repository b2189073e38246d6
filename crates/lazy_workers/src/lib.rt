//! The search of a whole game by several workers on one board.
#![tactic(auto)]

mod budgets;
mod jobs;
mod summary;
mod workers;

pub use budgets::{Begun, Budgets};
pub use summary::Found;
pub use workers::{find, find_alone};
