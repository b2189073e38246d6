//! What stops a search.

/// Asked by a search that may be stopped, at least once in some thousands of states that it enters. No other search asks.
pub trait Interrupt {
    /// Whether the search is to stop.
    fn is_raised(&self) -> bool;
}

/// Stops no search.
#[derive(Clone, Copy, Debug)]
pub struct NoInterrupt;

impl Interrupt for NoInterrupt {
    fn is_raised(&self) -> bool {
        false
    }
}
