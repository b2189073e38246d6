//! Why a value is not the states of a table.

ghost use Rattle.std.specs.Prelude.{◌≡◌};
ghost use Rattle.table_text.specs.declared.fault.StatesFault.TheVariants.{NoMemory};

use std::alloc::{AllocError, AllocFailed};
use thiserror::Error;

/// The first fault of a value that should be the states of a table.
#[derive(Clone, Copy, Debug, PartialEq, Eq, Error)]
pub enum StatesFault {
    /// The value, or what it has in it, is no list or no whole number, as it should be.
    #[error("the states have another kind")]
    Kind,
    /// A number or a count is out of range.
    #[error("the states are out of range")]
    Range,
    #[error("out of memory")]
    NoMemory,
}

impl From<AllocError> for StatesFault {
    ghost from_gives = { λ _ e. e ≡ NoMemory };

    fn from(_: AllocError) -> Self {
        StatesFault::NoMemory
    }
}

impl<T: Drop> From<AllocFailed<T>> for StatesFault {
    ghost from_gives = { λ _ e. e ≡ NoMemory };

    fn from(_: AllocFailed<T>) -> Self {
        StatesFault::NoMemory
    }
}
