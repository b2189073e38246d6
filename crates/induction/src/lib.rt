//! Search by induction over the ranks: values of states that linear programs propose, children first, plans by the weights of
//! these programs from the root down, and the best bounds that the plans prove, children first again. The bounds rest on
//! neither values nor programs.
#![tactic(auto)]

mod bounds;
mod decided;
mod follow;
mod gave_up;
mod induced;
mod keys;
mod listed;
mod places;
mod proposals;
mod sheets;
mod values;
mod watch;

pub use follow::plan_from;
pub use gave_up::GaveUp;
pub use induced::{Induced, solve, solve_alone};
use seq::Seq;
pub use sheets::{certify, certify_by};
pub use watch::{InductionStep, Terms, Watch};

/// A state of a side's plan, with the weights of the side's moves.
#[derive(Drop)]
pub struct PlannedState<S> {
    pub state: S,
    pub key: u64,
    pub rank: u32,
    /// One weight for each move of the side.
    pub weights: Seq<u32>,
}
