//! A state that a restricted game is played at.
use bounds_board::Row;

/// A state, and its row on the board.
#[derive(Clone, Copy)]
pub struct Node<S> {
    pub state: S,
    pub row: Row,
}
