//! Why no sheets were made.

ghost use Rattle.std.specs.Prelude.{◌≡◌};
ghost use Rattle.induction.specs.declared.gave_up.GaveUp.TheVariants as reasons;

use sim_game::NoMemory;
use std::alloc::{AllocError, AllocFailed};

/// There are too many states, no turn is left, or there is no memory.
#[derive(Clone, Copy, PartialEq, Eq, Debug)]
pub enum GaveUp {
    TooManyStates,
    Spent,
    NoMemory,
}

impl From<AllocError> for GaveUp {
    ghost from_gives = { λ _ e. e ≡ reasons.NoMemory };

    fn from(_e: AllocError) -> GaveUp {
        GaveUp::NoMemory
    }
}

impl<T: Drop> From<AllocFailed<T>> for GaveUp {
    ghost from_gives = { λ _ e. e ≡ reasons.NoMemory };

    fn from(_e: AllocFailed<T>) -> GaveUp {
        GaveUp::NoMemory
    }
}

impl From<NoMemory> for GaveUp {
    ghost from_gives = { λ _ e. e ≡ reasons.NoMemory };

    fn from(_e: NoMemory) -> GaveUp {
        GaveUp::NoMemory
    }
}
