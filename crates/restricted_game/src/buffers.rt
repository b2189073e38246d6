//! The lists that stages are read into, kept from one stage to the next.
ghost use Rattle.std.specs.Prelude.{◌≡◌, [], replicate, vec_len, IfOk};

use crate::table::{StageCells, StageNumbers, StageTable};
use bounds_board::{Enclosure, Row};
use sim_game::NoMemory;
use std::alloc::Global;
use std::marker::Model;
use std::mem;

/// The room that stages take, kept from one stage to the next. It changes no answer.
#[derive(Drop)]
pub struct StageBuffers {
    pub(crate) enclosures: Vec<Enclosure>,
    // Those of One's cells, and of Two's.
    pub(crate) lows: Vec<i64>,
    pub(crate) highs: Vec<i64>,
    // Those of held moves.
    pub(crate) rows: Vec<u32>,
    pub(crate) cols: Vec<u32>,
    // Those of the rows of children that no state has in use: there is one for each rank under way.
    children: Vec<Vec<Option<Row>>>,
}

impl Model for StageBuffers {
    ghost Value = { Unit {0} };

    ghost view = { λ b. tt };
}

impl StageBuffers {
    /// Those of no stage yet. Takes no memory.
    pub fn new(alloc: Global) -> StageBuffers {
        StageBuffers {
            enclosures: Vec::new(alloc),
            lows: Vec::new(alloc),
            highs: Vec::new(alloc),
            rows: Vec::new(alloc),
            cols: Vec::new(alloc),
            children: Vec::new(alloc),
        }
    }

    /// A list for the rows of children.
    pub(crate) fn take_children(&mut self) -> Vec<Option<Row>> {
        match self.children.pop() {
            Some(list) => list,
            None => Vec::new(*self.children.allocator()),
        }
    }

    /// Keeps a list for the rows of children, where there is memory to note it.
    pub(crate) fn keep_children(&mut self, list: Vec<Option<Row>>) {
        let _ = self.children.push(list);
    }
}

impl StageNumbers {
    /// Gives back the lists that the numbers were read into.
    pub fn give_back(self, buffers: &mut StageBuffers) {
        let StageNumbers { table, lows, highs } = self;
        let StageTable { enclosures, .. } = table;
        let StageCells { items, .. } = lows;
        buffers.enclosures = enclosures;
        buffers.lows = items;
        let StageCells { items, .. } = highs;
        buffers.highs = items;
    }
}

/// The list itself, emptied and with its room; one without room is left in its place.
pub(crate) fn emptied<T: Drop>(list: &mut Vec<T>) -> Vec<T>
    ensures { result.items ≡ [] }
{
    let alloc = *list.allocator();
    let mut taken = mem::replace(list, Vec::new(alloc));
    taken.clear();
    taken
}

/// The same, filled with so many copies of an item.
pub(crate) fn filled<T: Copy>(list: &mut Vec<T>, count: usize, item: T) -> Result<Vec<T>, NoMemory>
    ensures items { IfOk result (λ filled. filled.items ≡ replicate count item) }
    ensures len { IfOk result (λ filled. vec_len filled ≡ count) }
{
    let mut taken = emptied(list);
    taken.resize(count, item)?;
    Ok(taken)
}
