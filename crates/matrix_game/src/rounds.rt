//! Regret matching plus over whole numbers, each round against a best reply.

ghost use Rattle.std.specs.Prelude.{◌≡◌, ℕ, IsTrue, IfOk, IfSome, ◌*◌, ◌^◌, ◌<◌, ◌≤◌, length, map, slice_index, sum, replicate, unsigned_abs};
ghost use Rattle.sums.specs.declared.TheConstants.{MOST_MOVES, MOST_WEIGHT, MOST_BOUND};
ghost use Rattle.matrix_game.specs.Grid.{HasRegretRoom, IsSpread};
ghost use Rattle.matrix_game.specs.Heights.{AreHeightsOf};
ghost use Rattle.matrix_game.specs.Rounds.{raised_regret, raised_regrets, rounds, best_mixture, reply_counts};

use crate::cells::{Matrix, Reply};
use crate::heights::Heights;
use crate::regrets::Regret;
use crate::shares::mix;
use std::alloc::{AllocError, Global};

// Weights of the rows and of the columns.
#[derive(Drop)]
pub(crate) struct Solution {
    pub(crate) p: Vec<u32>,
    pub(crate) v: Vec<u32>,
}

impl Solution {
    pub(crate) fn copied(&self) -> Result<Solution, AllocError>
        ensures p { IfOk result (λ r. r.p.items ≡ self.now.p.items) }
        ensures v { IfOk result (λ r. r.v.items ≡ self.now.v.items) }
    {
        let p = self.p.clone()?;
        let v = self.v.clone()?;
        Ok(Solution { p, v })
    }
}

impl Matrix {
    // A row's regret after a round: raised by what that row alone would have gained over what was paid, and cut at 0.
    fn raised<R: Regret>(&self, weight: u32, reply: Reply, regrets: &[R], row: usize) -> R
        requires each { length regrets.now ≡ self.now.rows }
        requires light { weight ≤ MOST_WEIGHT }
        requires row_in { row < self.now.rows }
        requires col_in { reply.col < self.now.cols }
        requires bounded { unsigned_abs reply.paid ≤ MOST_MOVES * (MOST_WEIGHT * MOST_BOUND) }
        requires held { slice_index (map R.number regrets.now) row < R.limit }
        requires room { raised_regret self.now weight (map R.number regrets.now) reply.col reply.paid row < R.limit }
        ensures { R.number result ≡ raised_regret self.now weight (map R.number regrets.now) reply.col reply.paid row }
    {
        regrets[row].raised(self.weighted(weight, row, reply.col) - reply.paid)
    }

    // Raises the regrets by a round, and sums them.
    fn raise<R: Regret>(&self, weight: u32, reply: Reply, regrets: &mut [R]) -> R
        requires each { length regrets.old ≡ self.now.rows }
        requires light { weight ≤ MOST_WEIGHT }
        requires col_in { reply.col < self.now.cols }
        requires bounded { unsigned_abs reply.paid ≤ MOST_MOVES * (MOST_WEIGHT * MOST_BOUND) }
        requires held { sum (map R.number regrets.old) < R.limit }
        requires room { sum (raised_regrets self.now weight (map R.number regrets.old) reply.col reply.paid) < R.limit }
        ensures regrets { map R.number regrets.new
            ≡ raised_regrets self.now weight (map R.number regrets.old) reply.col reply.paid }
        ensures all { R.number result ≡ sum (map R.number regrets.new) }
    {
        let mut all = R::none();
        for row in 0..self.rows {
            let regret = self.raised(weight, reply, regrets, row);
            regrets[row] = regret;
            all = all.plus(regret);
        }
        all
    }

    // What two cells differ by at most.
    pub(crate) fn spread(&self) -> u64
        ensures spread { IsSpread self.now result }
        ensures least { (d : ℕ) → IsSpread self.now d → result ≤ d }
        ensures small { result ≤ 8000000000 }
    {
        let range = self.range();
        (range.greatest - range.least) as u64
    }

    // Whether the regrets fit 64 bits in as many rounds as the weight: in each a regret rises by at most the weight
    // times the spread.
    fn is_narrow(&self, weight: u32) -> bool
        requires light { weight ≤ MOST_WEIGHT }
        ensures { IsTrue result → HasRegretRoom self.now weight (2 ^ 63) }
    {
        let greatest = u128::from(weight) * u128::from(weight) * u128::from(self.spread());
        self.rows as u128 * greatest < 1 << 63
    }

    // Plays as many rounds as the weight, from no regrets and no counts.
    fn play<R: Regret>(
        &self,
        weight: u32,
        heights: &Option<Heights>,
        regrets: &mut [R],
        mixture: &mut [u32],
        best: &mut [u32],
        counts: &mut [u32],
    )
        requires some { 1 ≤ weight }
        requires light { weight ≤ MOST_WEIGHT }
        requires room { HasRegretRoom self.now weight R.limit }
        requires heights { IfSome heights.now (AreHeightsOf self.now) }
        requires regrets { map R.number regrets.old ≡ replicate self.now.rows 0 }
        requires mixture { length mixture.old ≡ self.now.rows }
        requires best { best.old ≡ replicate self.now.rows 0 }
        requires counts { counts.old ≡ replicate self.now.cols 0 }
        ensures best { best.new ≡ best_mixture self.now (rounds self.now weight) }
        ensures counts { counts.new ≡ reply_counts self.now (rounds self.now weight) }
    {
        // A read of a field, from which the proof knows the shape.
        let _rows = self.rows;
        let mut all = R::none();
        let mut low = 0;
        for round in 0..weight {
            mix(weight, regrets, all, mixture);
            let reply = self.reply(weight, mixture, heights);
            counts[reply.col] += 1;
            if round == 0 || low < reply.paid {
                low = reply.paid;
                best.copy_from_slice(mixture);
            }
            all = self.raise(weight, reply, regrets);
        }
    }

    // The best mixture and the counts of the replies, after as many rounds as the weight.
    pub(crate) fn rounds(&self, alloc: Global, weight: u32) -> Result<Solution, AllocError>
        requires some { 1 ≤ weight }
        requires light { weight ≤ MOST_WEIGHT }
        ensures p { IfOk result (λ r. r.p.items ≡ best_mixture self.now (rounds self.now weight)) }
        ensures v { IfOk result (λ r. r.v.items ≡ reply_counts self.now (rounds self.now weight)) }
    {
        let rows = self.rows;
        let cols = self.cols;
        let heights = self.heights(alloc)?;
        let mut mixture = vec![in alloc; 0u32; rows]?;
        let mut p = vec![in alloc; 0u32; rows]?;
        let mut v = vec![in alloc; 0u32; cols]?;
        if self.is_narrow(weight) {
            let mut regrets = vec![in alloc; 0u64; rows]?;
            self.play(weight, &heights, &mut regrets, &mut mixture, &mut p, &mut v);
        } else {
            let mut regrets = vec![in alloc; 0u128; rows]?;
            self.play(weight, &heights, &mut regrets, &mut mixture, &mut p, &mut v);
        }
        Ok(Solution { p, v })
    }
}
