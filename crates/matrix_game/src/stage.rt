//! The solver: weights of the rows and of the columns, for one turn.

ghost use Rattle.std.specs.Prelude.{◌≡◌, IfOk, ◌<◌, ◌≤◌, ℕ};
ghost use Rattle.sums.specs.declared.TheConstants.{MOST_WEIGHT};
ghost use Rattle.matrix_game.specs.Grid.{IsSaddle};
ghost use Rattle.matrix_game.specs.Plans.{AreStagePlans, AreWeighed, TakesTurn, plans_by};
ghost use Rattle.matrix_game.specs.Rounds.{all_on, IsStage, IsWeighted};

use crate::budget::Turns;
use crate::cells::Matrix;
use crate::memory::StageMemory;
use crate::rounds::Solution;
use seq::Seq;
use std::alloc::{AllocError, Global};

/// Weights of the rows and of the columns, with what they secure and concede.
#[derive(Drop)]
pub struct StagePlans {
    /// The weights of the rows.
    pub p: Seq<u32>,
    /// The weights of the columns.
    pub v: Seq<u32>,
    /// What `p` secures against each column, in weight times cell.
    pub low: i64,
    /// What `v` concedes to each row, in weight times cell.
    pub high: i64,
}

/// Why a matrix was not solved: for want of a turn, or out of memory.
#[derive(Clone, Copy, Debug, PartialEq, Eq)]
pub enum StageError {
    Spent,
    NoMemory,
}

impl Matrix {
    // All of the weight at a cell.
    fn pure(&self, alloc: Global, row: u32, col: u32, weight: u32) -> Result<Solution, AllocError>
        requires row_in { row < self.now.rows }
        requires col_in { col < self.now.cols }
        ensures p { IfOk result (λ r. r.p.items ≡ all_on self.now.rows row weight) }
        ensures v { IfOk result (λ r. r.v.items ≡ all_on self.now.cols col weight) }
    {
        let rows = self.rows;
        let cols = self.cols;
        let p = all_on(alloc, rows, row as usize, weight)?;
        let v = all_on(alloc, cols, col as usize, weight)?;
        Ok(Solution { p, v })
    }

    // By rounds.
    fn played(&self, alloc: Global, weight: u32) -> Result<Solution, AllocError>
        requires some { 1 ≤ weight }
        requires light { weight ≤ MOST_WEIGHT }
        requires mixed { (a b : ℕ) → IsSaddle self.now a b → ⊥ }
        ensures { IfOk result (λ r. IsStage self.now weight r.p.items r.v.items) }
    {
        let played = self.rounds(alloc, weight)?;
        Ok(played)
    }

    // By the memory, or else by rounds, whose weights the memory then keeps if it can.
    fn recalled(
        &self,
        alloc: Global,
        weight: u32,
        memory: &mut StageMemory,
    ) -> Result<Solution, AllocError>
        requires some { 1 ≤ weight }
        requires light { weight ≤ MOST_WEIGHT }
        requires mixed { (a b : ℕ) → IsSaddle self.now a b → ⊥ }
        ensures stage { IfOk result (λ r. IsStage self.now weight r.p.items r.v.items) }
        ensures limit { memory.new.limit ≡ memory.old.limit }
    {
        let Some(key) = memory.key(alloc, self, weight) else {
            return self.played(alloc, weight);
        };
        if let Some(solution) = memory.recall(&key) {
            return Ok(solution);
        }
        let played = self.played(alloc, weight)?;
        if let Ok(copy) = played.copied() {
            memory.keep(alloc, key, copy);
        }
        Ok(played)
    }

    // Pure at the first saddle, else by the memory or by rounds.
    pub(crate) fn weights(
        &self,
        alloc: Global,
        weight: u32,
        memory: &mut StageMemory,
    ) -> Result<Solution, AllocError>
        requires some { 1 ≤ weight }
        requires light { weight ≤ MOST_WEIGHT }
        ensures stage { IfOk result (λ r. IsStage self.now weight r.p.items r.v.items) }
        ensures plans { IfOk result (λ r. AreStagePlans self.now weight (plans_by self.now r.p.items r.v.items)) }
        ensures limit { memory.new.limit ≡ memory.old.limit }
    {
        let _rows = self.rows;
        let weights = match self.saddle() {
            Some((row, col)) => self.pure(alloc, row, col, weight)?,
            None => self.recalled(alloc, weight, memory)?,
        };
        Ok(weights)
    }

    // The plans of weights.
    pub(crate) fn plans(&self, total: u32, weights: Solution) -> StagePlans
        requires light { total ≤ MOST_WEIGHT }
        requires rows { IsWeighted self.now.rows total weights.p.items }
        requires cols { IsWeighted self.now.cols total weights.v.items }
        ensures plans { result ≡ plans_by self.now weights.p.items weights.v.items }
        ensures weighed { AreWeighed self.now total result }
    {
        let low = self.row_floor(&weights.p);
        let high = self.col_ceiling(&weights.v);
        StagePlans {
            p: Seq::from_vec(weights.p),
            v: Seq::from_vec(weights.v),
            low,
            high,
        }
    }

    /// Solves the matrix by weights that sum to `total`, for one turn: pure at the first saddle, else by as many rounds
    /// of regret matching as the total. Without a turn left the answer is `Spent`, and no memory is taken.
    pub fn solve(
        &self,
        alloc: Global,
        total: u32,
        turns: &mut Turns,
    ) -> Result<StagePlans, StageError>
        requires some { 1 ≤ total }
        requires light { total ≤ MOST_WEIGHT }
        ensures stage { IfOk result (λ plans. IsStage self.now total plans.p plans.v) }
        ensures plans { IfOk result (AreStagePlans self.now total) }
        ensures turn { TakesTurn turns.old turns.new result }
    {
        self.solve_with_memory(alloc, total, turns, &mut StageMemory::new(0))
    }

    /// The same answer as that of `solve`, for one turn as well. Rounds are played only where the memory keeps no equal
    /// matrix up to a number added to every cell.
    pub fn solve_with_memory(
        &self,
        alloc: Global,
        total: u32,
        turns: &mut Turns,
        memory: &mut StageMemory,
    ) -> Result<StagePlans, StageError>
        requires some { 1 ≤ total }
        requires light { total ≤ MOST_WEIGHT }
        ensures stage { IfOk result (λ plans. IsStage self.now total plans.p plans.v) }
        ensures plans { IfOk result (AreStagePlans self.now total) }
        ensures turn { TakesTurn turns.old turns.new result }
        ensures limit { memory.new.limit ≡ memory.old.limit }
    {
        if turns.left() == 0 {
            return Err(StageError::Spent);
        }
        match self.weights(alloc, total, memory) {
            Ok(weights) => {
                turns.spend();
                Ok(self.plans(total, weights))
            }
            Err(_) => Err(StageError::NoMemory),
        }
    }
}

// All of the weight at one place.
fn all_on(alloc: Global, len: usize, at: usize, weight: u32) -> Result<Vec<u32>, AllocError>
    requires { at < len }
    ensures { IfOk result (λ weights. weights.items ≡ all_on len at weight) }
{
    let mut weights = vec![in alloc; 0u32; len]?;
    weights[at] = weight;
    Ok(weights)
}
