//! Why a search has no number.

/// Why a search has no number: no visit is left or it was stopped, the board is full, or there is no memory.
#[derive(Clone, Copy)]
pub(crate) enum SerialStop {
    Cut,
    Full,
    NoMemory,
}
