//! Why a text is no report.

ghost use Rattle.std.specs.Prelude.{◌≡◌};
ghost use Rattle.certificate.specs.declared.error.TextError.TheVariants.{NoMemory};

use std::alloc::{AllocError, AllocFailed};
use thiserror::Error;

/// The first fault of a text. Lines are numbered from 1.
#[derive(Clone, Copy, Debug, PartialEq, Eq, Error)]
pub enum TextError {
    /// The text does not begin with the first line of a report.
    #[error("the first line is not a report's")]
    Head,
    /// The line has another word, another number of fields or an empty field.
    #[error("line {number} has another form")]
    Line { number: u64 },
    /// A number or a list of the line is misspelled or out of range.
    #[error("line {number} has a number that is misspelled or out of range")]
    Number { number: u64 },
    /// The row's key is not greater than that of the row before.
    #[error("line {number} is out of order")]
    Order { number: u64 },
    /// No line feed ends the line that is to be read.
    #[error("the text ends within a line")]
    Short,
    /// Text stands behind the last line.
    #[error("text stands after the end")]
    Tail,
    #[error("out of memory")]
    NoMemory,
}

impl From<AllocError> for TextError {
    ghost from_gives = { λ _ e. e ≡ NoMemory };

    fn from(_: AllocError) -> Self {
        TextError::NoMemory
    }
}

impl<T: Drop> From<AllocFailed<T>> for TextError {
    ghost from_gives = { λ _ e. e ≡ NoMemory };

    fn from(_: AllocFailed<T>) -> Self {
        TextError::NoMemory
    }
}
