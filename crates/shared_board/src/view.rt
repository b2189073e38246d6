//! What a seat at the board knows.
use sim_game::Side;
use std::collections::LinkedList;

/// What a seat at the board knows. No value of it is made.
pub struct View<G> {
    /// The game of the board.
    pub game: Option<G>,
    /// Whether the seat is the lead's, and then how many tickets it has issued.
    pub lead: bool,
    pub issued: u64,
    /// The tickets that the seat holds: each is issued once, and all come back to the lead before the board is closed.
    pub tickets: LinkedList<u64>,
    /// Rows, each with its key.
    pub keys: LinkedList<(u64, u64)>,
    /// For each row the tightest bounds that the seat has seen, as words.
    pub lower: LinkedList<u64>,
    pub upper: LinkedList<u64>,
    /// What the seat has posted: row, side and word.
    pub posted: LinkedList<(u64, Side, u64)>,
    /// How many loads of bounds the seat has made.
    pub loads: u64,
}
