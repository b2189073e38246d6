//! What is told before each turn of a worker, where the bounds that were asked for have come closer, and at each state of an
//! induction; and what is asked.

/// Whether a search goes on.
#[derive(Clone, Copy, PartialEq, Eq, Debug)]
pub enum Signal {
    GoOn,
    /// The turns that are left are to be given up. A search heeds it where they may be.
    Stop,
}

/// Called by the searches of workers.
pub trait Gate {
    /// Called before each turn, with the worker's number and the turns that it has spent.
    fn at_turn(&self, worker: u32, turn: u64);

    /// Called where the bounds at the state that the game begins at were read, in millionths of a payoff.
    fn at_bounds(&self, _worker: u32, _lower: i64, _upper: i64) {}

    /// Called before an induction lists the states that follow a state.
    fn at_listed(&self) {}

    /// Called before an induction values a state.
    fn at_valued(&self) {}

    /// Called before an induction makes a side's row of a state.
    fn at_planned(&self) {}

    /// Asked before each turn, and in serial searches once in some thousands of states.
    fn signal(&self) -> Signal {
        Signal::GoOn
    }
}

/// Does nothing, and goes on.
#[derive(Clone, Copy, Debug)]
pub struct OpenGate;

impl Gate for OpenGate {
    fn at_turn(&self, _worker: u32, _turn: u64) {}
}
