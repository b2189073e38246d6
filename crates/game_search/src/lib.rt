//! The search of a game by the method that is asked: by double oracle, or first by induction and then, where that is not
//! enough, by double oracle.
#![tactic(auto)]

mod induced;
mod plan;
mod search;
mod step;

pub use search::{find, find_alone};
