//! The report of what a search has found.
#![tactic(auto)]

mod report;
mod search;

pub use report::{Solved, report_of, reports_are_solutions};
pub use search::{solve, solve_alone};
