//! The position that the states of a table make, where JSON tells them.
#![tactic(auto)]

mod fault;
mod kinds;
mod lists;
mod ranges;
mod ranks;
mod reading;

pub use fault::StatesFault;
pub use reading::read_states;
