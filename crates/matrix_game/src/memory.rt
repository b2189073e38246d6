//! A bounded memory of matrices that were solved by rounds.

ghost use Rattle.std.specs.Prelude.{◌≡◌, ℕ, ◌↔◌, IfOk, IfSome, ◌<◌, ◌≤◌, length, map, pos, slice_index_or, ◌+ℤ◌, ◌≤ℤ◌, ◌<ℤ◌, unsigned_abs, ℤ, List, Contains};
ghost use Rattle.sums.specs.declared.TheConstants.{MOST_BOUND};
ghost use Rattle.matrix_game.specs.Memories.{AreKept, AnswersKey};
ghost use Rattle.matrix_game.specs.Rounds.{IsStage};

use crate::cells::Matrix;
use crate::heights::above;
use crate::rounds::Solution;
use lru::LruCache;
use std::alloc::{AllocError, Global};
use std::marker::Model;
use std::num::NonZeroUsize;

/// The greatest number of cells of a matrix that is kept.
const MOST_CELLS: usize = 64;

// The weights by what they solve.
type Stages = LruCache<StageKey, Solution>;

// A total weight, and a matrix by its cells less the least of them, since a number added to every cell changes no weight.
#[derive(PartialEq, Eq, Hash, Drop)]
pub(crate) struct StageKey {
    total: u32,
    rows: usize,
    cols: usize,
    cells: Vec<u32>,
}

/// The weights of matrices that were solved by rounds; beyond its limit the least recently used go.
#[derive(Drop)]
pub struct StageMemory {
    limit: u32,
    // None until the first is kept.
    stages: Option<Stages>,
}

impl Model for StageMemory {
    ghost use Rattle.std.specs.Prelude.{IfSome, length};
    ghost use Rattle.std.specs.Option.{option_map_or};
    ghost use Rattle.matrix_game.specs.Memories.{Memory, AreKept};

    ghost Value = { Memory };

    ghost view = { λ m. record { limit = m.limit; kept = option_map_or (λ s. length s.entries) m.stages 0 } };

    ghost invariant = { λ m. IfSome m.stages (AreKept m.limit) };
}

// The cells with the least one taken from each.
fn lowered(alloc: Global, cells: &[i64], least: i64) -> Result<Vec<u32>, AllocError>
    requires small { unsigned_abs least ≤ MOST_BOUND }
    requires least { (i : ℕ) → i < length cells.now → least ≤ℤ slice_index_or cells.now i (pos 0) }
    requires close { (i : ℕ) → i < length cells.now → slice_index_or cells.now i (pos 0) <ℤ (least +ℤ pos 4294967296) }
    ensures { IfOk result (λ others. cells.now ≡ map (λ z. z +ℤ least) (map pos others.items)) }
{
    let mut others = Vec::with_capacity(alloc, cells.len())?;
    for cell in cells {
        others.push(above(*cell, least))?;
    }
    Ok(others)
}

// The weights of the key, which becomes the most recently used: None where there are none, or no memory for a copy.
fn found(stages: &mut Stages, key: &StageKey) -> Option<Solution>
    requires { AreKept stages.old.cap stages.old }
    ensures weights { IfSome result (λ r. AnswersKey key.now r.p.items r.v.items) }
    ensures kept { AreKept stages.old.cap stages.new }
{
    stages.promote(key);
    let solution = stages.peek(key)?;
    solution.copied().ok()
}

// What is kept, or else room for as many as the limit: None where that is 0, or memory is wanting.
fn opened(stages: Option<Stages>, alloc: Global, limit: u32) -> Option<Stages>
    requires { IfSome stages (AreKept limit) }
    ensures { IfSome result (AreKept limit) }
{
    match stages {
        Some(stages) => Some(stages),
        None => LruCache::sparse(alloc, NonZeroUsize::new(limit as usize)?).ok(),
    }
}

impl StageMemory {
    /// A memory of at most so many matrices, without any. Takes no memory.
    pub fn new(limit: u32) -> StageMemory
        ensures { result ≡ record { limit = limit; kept = 0 } }
    {
        StageMemory {
            limit,
            stages: None,
        }
    }

    /// How many matrices are kept.
    pub fn len(&self) -> usize
        ensures kept { result ≡ self.now.kept }
        ensures few { self.now.kept ≤ self.now.limit }
    {
        match &self.stages {
            Some(stages) => stages.len(),
            None => 0,
        }
    }

    // What the memory keeps the matrix by: None where it would not, as with many cells or cells that differ by 2^32 or more.
    pub(crate) fn key(&self, alloc: Global, matrix: &Matrix, total: u32) -> Option<StageKey>
        ensures { IfSome result (λ key. (p v : List ℕ) → IsStage matrix.now total p v ↔ AnswersKey key p v) }
    {
        let range = matrix.range();
        if matrix.cells.len() > MOST_CELLS || range.greatest - range.least >= 1 << 32 {
            return None;
        }
        if self.limit == 0 {
            return None;
        }
        let Ok(cells) = lowered(alloc, &matrix.cells, range.least) else {
            return None;
        };
        Some(StageKey {
            total,
            rows: matrix.rows,
            cols: matrix.cols,
            cells,
        })
    }

    // The weights of the key, where they are kept and memory serves.
    pub(crate) fn recall(&mut self, key: &StageKey) -> Option<Solution>
        ensures weights { IfSome result (λ r. AnswersKey key.now r.p.items r.v.items) }
        ensures limit { self.new.limit ≡ self.old.limit }
    {
        let mut stages = self.stages.take()?;
        let solution = found(&mut stages, key);
        self.stages = Some(stages);
        solution
    }

    // Keeps the weights of the key, if memory serves.
    pub(crate) fn keep(&mut self, alloc: Global, key: StageKey, solution: Solution)
        requires { AnswersKey key solution.p.items solution.v.items }
        ensures { self.new.limit ≡ self.old.limit }
    {
        if let Some(mut stages) = opened(self.stages.take(), alloc, self.limit) {
            drop(stages.put(key, solution));
            self.stages = Some(stages);
        }
    }
}
