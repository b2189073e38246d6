//! The double-oracle search of one worker.
#![tactic(auto)]

mod children;
mod ends;
mod finished;
mod gap;
mod gate;
mod growth;
mod serial_bounds;
mod state;
mod sweeping;
mod sweeps;
mod worker;

pub use ends::SearchEnd;
pub use finished::FinishedStates;
pub use gate::{Gate, OpenGate, Signal};
pub use state::search;
pub use worker::{MemoryLimits, Setup, Worker};
