//! The commands: what each takes of its input, answers and writes.
#![tactic(auto)]

pub mod alone;
mod bounds;
mod check;
mod finding;
pub mod laws;
mod measure;
mod opened;
mod play;
mod reports;
pub mod run;
mod sample;
mod solve;
pub mod words;

pub use check::ReportedGame;
pub use measure::{sheet_of, worst_of};
pub use opened::{open, row_of};
pub use reports::ReportFault;
pub use solve::status_of;
