//! Whole weights out of shares.

ghost use Rattle.std.specs.Prelude.{◌≡◌, IfOk, OnOk, IfSome, ◌+◌, ◌<◌, ◌≤◌, length, slice_index, sum};
ghost use Rattle.sums.specs.declared.TheConstants.{MOST_MOVES, MOST_WEIGHT};
ghost use Rattle.matrix_game.specs.Rounds.{IsWeighted};

use crate::payoffs::{Line, Payoffs};
use std::alloc::{AllocError, Global};
use std::num::saturating_f64_to_u32;

// A unit of weight that goes from one row to another, and the floor afterwards.
#[derive(Clone, Copy)]
struct Shift {
    from: usize,
    to: usize,
    floor: f64,
}

impl Payoffs {
    /// Weights of the rows in proportion to the shares, with the floor raised by single units. The line is room to work in.
    pub(crate) fn weights(
        &self,
        alloc: Global,
        shares: &Line,
        total: u32,
        line: &mut Line,
    ) -> Result<Vec<u32>, AllocError>
        requires light { total ≤ MOST_WEIGHT }
        ensures { IfOk result (λ r. IsWeighted self.now.rows total r.items) }
    {
        let mut weights = Vec::with_capacity(alloc, self.rows)?;
        self.write_weights(shares, total, line, &mut weights)?;
        Ok(weights)
    }

    /// Writes such weights, and gives what they secure, times their total. The line is room to work in.
    pub(crate) fn write_weights(
        &self,
        shares: &Line,
        total: u32,
        line: &mut Line,
        weights: &mut Vec<u32>,
    ) -> Result<f64, AllocError>
        requires light { total ≤ MOST_WEIGHT }
        ensures { OnOk result (IsWeighted self.now.rows total weights.new.items) }
    {
        round(&shares[..self.rows], total, &mut line[..self.rows], weights)?;
        let sums = &mut line[..self.cols];
        self.write_sums(weights, sums);
        self.improve(weights, sums);
        Ok(least(sums))
    }

    // Shifts single units while that raises the floor, at most two for each row.
    fn improve(&self, weights: &mut [u32], sums: &mut [f64])
        requires weights { length weights.old ≡ self.now.rows }
        requires sums { length sums.old ≡ self.now.cols }
        requires light { sum weights.old ≤ MOST_WEIGHT }
        ensures { sum weights.new ≡ sum weights.old }
    {
        for _ in 0..2 * self.rows {
            let Some(shift) = self.best_shift(weights, sums) else {
                return;
            };
            weights[shift.from] -= 1;
            weights[shift.to] += 1;
            self.add(shift.from, -1.0, sums);
            self.add(shift.to, 1.0, sums);
        }
    }

    // The shift between rows in use that raises the floor most, if one does.
    fn best_shift(&self, weights: &[u32], sums: &[f64]) -> Option<Shift>
        requires weights { length weights.now ≡ self.now.rows }
        requires sums { length sums.now ≡ self.now.cols }
        ensures from { IfSome result (λ s. s.from < self.now.rows) }
        ensures some { IfSome result (λ s. 1 ≤ slice_index weights.now s.from) }
        ensures to { IfSome result (λ s. s.to < self.now.rows) }
    {
        let mut best = None;
        let mut floor = least(sums);
        for from in 0..self.rows {
            if weights[from] > 0 {
                if let Some(shift) = self.best_target(weights, sums, from, floor) {
                    floor = shift.floor;
                    best = Some(shift);
                }
            }
        }
        best
    }

    // The best shift from a row, if one raises the floor above the given one.
    fn best_target(&self, weights: &[u32], sums: &[f64], from: usize, floor: f64) -> Option<Shift>
        requires weights { length weights.now ≡ self.now.rows }
        requires sums { length sums.now ≡ self.now.cols }
        requires from_in { from < self.now.rows }
        ensures from { IfSome result (λ s. s.from ≡ from) }
        ensures to { IfSome result (λ s. s.to < self.now.rows) }
    {
        let mut best = None;
        let mut floor = floor;
        for to in 0..self.rows {
            if to != from && weights[to] > 0 {
                let raised = self.floor_after(sums, from, to, floor);
                if raised > floor {
                    floor = raised;
                    best = Some(Shift { from, to, floor });
                }
            }
        }
        best
    }

    // The floor after a shift, or a number that is not above the given one.
    fn floor_after(&self, sums: &[f64], from: usize, to: usize, floor: f64) -> f64
        requires sums { length sums.now ≡ self.now.cols }
        requires from_in { from < self.now.rows }
        requires to_in { to < self.now.rows }
    {
        let mut least = f64::INFINITY;
        for col in 0..self.cols {
            let sum = sums[col] - self.cell(from, col) + self.cell(to, col);
            if sum <= floor {
                return floor;
            }
            if sum < least {
                least = sum;
            }
        }
        least
    }
}

/// The least of the numbers, or infinity where there are none.
pub(crate) fn least(numbers: &[f64]) -> f64 {
    let mut least = f64::INFINITY;
    for number in numbers {
        if *number < least {
            least = *number;
        }
    }
    least
}

// Writes weights in proportion to the shares, which sum to the total, by the largest remainder. A share that is no number
// counts as 0. The rests are room to work in.
fn round(
    shares: &[f64],
    total: u32,
    rests: &mut [f64],
    weights: &mut Vec<u32>,
) -> Result<(), AllocError>
    requires some { 1 ≤ length shares.now }
    requires few { length shares.now ≤ MOST_MOVES }
    requires same { length rests.old ≡ length shares.now }
    requires light { total ≤ MOST_WEIGHT }
    ensures { OnOk result (IsWeighted (length shares.now) total weights.new.items) }
{
    weights.clear();
    let mut left = total;
    for (place, share) in shares.iter().enumerate() {
        let exact = *share * f64::from(total);
        let whole = saturating_f64_to_u32(exact).min(left);
        weights.push(whole)?;
        rests[place] = exact - f64::from(whole);
        left -= whole;
    }
    give(weights, rests, left);
    Ok(())
}

// Gives single units to the places of greatest rests, each once, and what is still left to the first place.
fn give(weights: &mut [u32], rests: &mut [f64], left: u32)
    requires some { 1 ≤ length weights.old }
    requires same { length rests.old ≡ length weights.old }
    requires light { sum weights.old + left ≤ MOST_WEIGHT }
    ensures { sum weights.new ≡ sum weights.old + left }
{
    let mut left = left;
    for _ in 0..weights.len() {
        if left == 0 {
            return;
        }
        let place = place_of_greatest(rests);
        weights[place] += 1;
        rests[place] = -1.0;
        left -= 1;
    }
    weights[0] += left;
}

// The first place of the greatest number.
fn place_of_greatest(numbers: &[f64]) -> usize
    requires { 1 ≤ length numbers.now }
    ensures { result < length numbers.now }
{
    let mut found = 0;
    for place in 1..numbers.len() {
        if numbers[place] > numbers[found] {
            found = place;
        }
    }
    found
}
