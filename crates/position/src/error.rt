//! Want of memory as a refusal.

ghost use Rattle.std.specs.Prelude.{◌≡◌};
ghost use Rattle.position.specs.declared.games.InputError.TheVariants.{NoMemory};

use crate::InputError;
use std::alloc::{AllocError, AllocFailed};

impl From<AllocError> for InputError {
    ghost from_gives = { λ _ e. e ≡ NoMemory };

    fn from(_: AllocError) -> Self {
        InputError::NoMemory
    }
}

impl<T: Drop> From<AllocFailed<T>> for InputError {
    ghost from_gives = { λ _ e. e ≡ NoMemory };

    fn from(_: AllocFailed<T>) -> Self {
        InputError::NoMemory
    }
}

impl From<sim_game::NoMemory> for InputError {
    ghost from_gives = { λ _ e. e ≡ NoMemory };

    fn from(_: sim_game::NoMemory) -> Self {
        InputError::NoMemory
    }
}
