//! What is asked of an induction, and what an induction asks.

/// What is asked of an induction.
#[derive(Clone, Copy)]
pub struct Terms {
    /// What the weights of each row sum to.
    pub total: u32,
    /// The most undecided states.
    pub rows: u64,
    /// How many threads may work.
    pub workers: u32,
}

/// So few states are no work to divide.
pub(crate) const FEW_STATES: usize = 256;

/// What is to be done next at a state.
#[derive(Clone, Copy, PartialEq, Eq, Debug)]
pub enum InductionStep {
    /// The states that follow it are listed.
    List,
    /// It gets a value.
    Value,
    /// A side gets its row of a plan.
    Plan,
}

/// Asked as an induction goes on, by the caller and by its threads, at each state of each step but the last.
pub trait Watch {
    /// Whether it goes on with this. Where not, the turns that are left are given up, if they may be.
    fn goes_on(&self, next: InductionStep) -> bool;
}
