//! Worked examples that cross crates, as tests.
#![tactic(auto)]

mod chance;

pub use chance::{OneInThree, Place};

#[cfg(test)]
mod boards;
#[cfg(test)]
mod draws;
#[cfg(test)]
mod games;
#[cfg(test)]
mod matrices;
#[cfg(test)]
mod passes;
#[cfg(test)]
mod played;
#[cfg(test)]
mod reports;
#[cfg(test)]
mod steps;
#[cfg(test)]
mod tables;
#[cfg(test)]
mod workers;
#[cfg(test)]
mod worst_cases;
