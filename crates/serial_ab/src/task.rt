//! What all parts of a search share.
ghost use Rattle.std.specs.Prelude.{◌≡◌};

use crate::interrupt::Interrupt;
use crate::transpositions::TranspositionTable;
use crate::visits::Visits;
use sim_game::{Game, Side};
use std::alloc::Global;

/// The game, the side that discloses its moves, and what may stop the search.
#[derive(Clone, Copy)]
pub struct SerialTask<'a, G: Game, I: Interrupt> {
    pub alloc: Global,
    pub game: G,
    pub side: Side,
    pub interrupt: &'a I,
    /// Whether the interrupt is heeded.
    pub may_stop: bool,
}

/// The window of a search, from the end that is worse for its side to the better one, in millionths of a payoff.
#[derive(Clone, Copy)]
pub(crate) struct Window {
    pub(crate) worse: i64,
    pub(crate) better: i64,
}

/// What serial searches work with, one after another: the visits that are left, and what they remember.
#[derive(Drop)]
pub struct SerialWorker {
    pub visits: Visits,
    pub table: TranspositionTable,
    pub(crate) alloc: Global,
    // How many states were entered since the interrupt was asked.
    pub(crate) unasked: u32,
}

impl SerialWorker {
    /// A worker with these visits that remembers what the table tells. It takes no memory.
    pub fn new(alloc: Global, visits: Visits, table: TranspositionTable) -> SerialWorker
        ensures visits { result.visits ≡ visits }
        ensures table { result.table ≡ table }
    {
        SerialWorker {
            visits,
            table,
            alloc,
            unasked: 0,
        }
    }
}
