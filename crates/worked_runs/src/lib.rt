//! Runs of the program over devices in memory, as tests, and what calls of such a device move.
#![tactic(auto)]

pub mod calls;
#[cfg(test)]
mod reads;
#[cfg(test)]
mod refusals;
#[cfg(test)]
mod runs;
