//! How a search ends, and why a part of it stops.

ghost use Rattle.std.specs.Prelude.{◌≡◌, ◌≢◌, MatchBool};
ghost use Rattle.oracle_search.specs.declared.ends.Stop.TheVariants as stops;
ghost use Rattle.oracle_search.specs.Searches.{finish_of, stop_at, stop_after};

use bounds_board::{BoardFault, Full};
use restricted_game::StepFault;
use sim_game::NoMemory;

/// How a search ended.
#[derive(Clone, Copy, PartialEq, Eq, Debug)]
pub enum SearchEnd {
    /// The gap is at most the target.
    Reached,
    /// The gap is above the target, and at most what the rank of the state allows.
    Settled,
    /// No turn is left.
    Spent,
    /// A claim found the board full.
    Full,
}

impl SearchEnd {
    pub fn is_full(self) -> bool
        ensures { MatchBool result (self ≡ SearchEnd.Full) (self ≢ SearchEnd.Full) }
    {
        match self {
            SearchEnd::Full => true,
            SearchEnd::Reached | SearchEnd::Settled | SearchEnd::Spent => false,
        }
    }

    /// Whether the search has finished its state; else why the search stops that it is a part of.
    pub(crate) fn finished(self) -> Result<(), Stop>
        ensures { result ≡ finish_of self }
    {
        match self {
            SearchEnd::Reached | SearchEnd::Settled => Ok(()),
            SearchEnd::Spent => Err(Stop::Spent),
            SearchEnd::Full => Err(Stop::Full),
        }
    }
}

/// Why a part of a search stopped before it was done: no turn is left, a claim found the board full, or there is no
/// memory.
#[derive(Clone, Copy, PartialEq, Eq, Debug)]
pub(crate) enum Stop {
    Spent,
    Full,
    NoMemory,
}

impl From<NoMemory> for Stop {
    ghost from_gives = { λ _ e. e ≡ stops.NoMemory };

    fn from(_e: NoMemory) -> Stop {
        Stop::NoMemory
    }
}

impl From<Full> for Stop {
    ghost from_gives = { λ _ e. e ≡ stops.Full };

    fn from(_e: Full) -> Stop {
        Stop::Full
    }
}

impl From<BoardFault> for Stop {
    ghost from_gives = { λ fault e. e ≡ stop_at fault };

    fn from(fault: BoardFault) -> Stop {
        match fault {
            BoardFault::Full => Stop::Full,
            BoardFault::NoMemory => Stop::NoMemory,
        }
    }
}

impl From<StepFault> for Stop {
    ghost from_gives = { λ fault e. e ≡ stop_after fault };

    fn from(fault: StepFault) -> Stop {
        match fault {
            StepFault::Spent => Stop::Spent,
            StepFault::Full => Stop::Full,
            StepFault::NoMemory => Stop::NoMemory,
        }
    }
}
