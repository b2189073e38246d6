//! The cells of a matrix, laid out so that eight of its columns are summed at once.

ghost use Rattle.std.specs.Prelude.{◌≡◌, ℕ, IfOk, IfSome, ◌+◌, ◌*◌, ◌<◌, ◌≤◌, length, pos, slice_index, slice_index_or, All, ◌+ℤ◌, ◌≤ℤ◌, ◌<ℤ◌, unsigned_abs};
ghost use Rattle.sums.specs.declared.TheConstants.{MOST_MOVES, MOST_WEIGHT, MOST_BOUND};
ghost use Rattle.sums.specs.Sums.{count_below};
ghost use Rattle.matrix_game.specs.Grid.{cell_at, first_least};
ghost use Rattle.matrix_game.specs.Heights.{AreHeights, AreHeightsOf};
ghost use Rattle.matrix_game.specs.Replies.{IsReplyTo};
ghost use Rattle.matrix_game.specs.Rounds.{IsWeighted};

use crate::cells::{Matrix, Reply};
use std::alloc::{AllocError, Global};
use std::simd::prelude::*;
use sums::{MOST_MOVES, weighted};

// From so many columns on the sums are taken in lanes.
const FEWEST_COLS: usize = 5;

/// How far each cell of a matrix is above the least one, row by row. Each row is filled up to blocks of 8.
#[derive(Drop)]
pub(crate) struct Heights {
    least: i64,
    rows: usize,
    blocks: usize,
    cells: Vec<u32>,
}

impl Heights {
    // What the weights pay in the columns of a block, over the heights.
    fn block_sums(&self, p: &[u32], block: usize) -> u64x8
        requires all { length self.now.cells.items ≡ self.now.rows * (8 * self.now.blocks) }
        requires few_rows { self.now.rows ≤ MOST_MOVES }
        requires narrow { 8 * self.now.blocks ≤ MOST_MOVES }
        requires block_in { block < self.now.blocks }
        requires weights { length p.now ≡ self.now.rows }
        requires light { All (λ x. x ≤ MOST_WEIGHT) p.now }
        ensures eight { length result ≡ 8 }
        ensures sums { (k : ℕ) → k < 8 → slice_index result k ≡ count_below self.now.rows (λ a.
            slice_index p.now a * slice_index self.now.cells.items (a * (8 * self.now.blocks) + (8 * block + k))) }
    {
        let mut sums = u64x8::splat(0);
        for row in 0..self.rows {
            if p[row] > 0 {
                sums = with_row(
                    sums,
                    &self.cells,
                    row * (8 * self.blocks) + 8 * block,
                    p[row],
                );
            }
        }
        sums
    }

    // What the weights pay in each column, over the heights.
    fn sum_rows(&self, p: &[u32], sums: &mut [u64])
        requires all { length self.now.cells.items ≡ self.now.rows * (8 * self.now.blocks) }
        requires few_rows { self.now.rows ≤ MOST_MOVES }
        requires narrow { 8 * self.now.blocks ≤ MOST_MOVES }
        requires weights { length p.now ≡ self.now.rows }
        requires light { All (λ x. x ≤ MOST_WEIGHT) p.now }
        requires sums { 8 * self.now.blocks ≤ length sums.old }
        ensures { (k : ℕ) → k < 8 * self.now.blocks → slice_index sums.new k ≡ count_below self.now.rows (λ a.
            slice_index p.now a * slice_index self.now.cells.items (a * (8 * self.now.blocks) + k)) }
    {
        for block in 0..self.blocks {
            let lanes = self.block_sums(p, block);
            lanes.copy_to_slice(&mut sums[8 * block..]);
        }
    }
}

// The sums, with what the eight heights from a place on pay with a weight.
fn with_row(sums: u64x8, cells: &[u32], first: usize, weight: u32) -> u64x8
    requires first_in { first + 8 ≤ length cells.now }
    requires light { weight ≤ MOST_WEIGHT }
    requires eight { length sums ≡ 8 }
    requires room { (k : ℕ) → k < 8 → slice_index sums k ≤ 1152921504606846976 }
    ensures eight { length result ≡ 8 }
    ensures added { (k : ℕ) → k < 8
        → slice_index result k ≡ slice_index sums k + weight * slice_index cells.now (first + k) }
    ensures small { (k : ℕ) → k < 8 → slice_index result k ≤ slice_index sums k + 4503599627370496 }
{
    let heights: u64x8 = u32x8::from_slice(&cells[first..]).cast();
    sums + heights * u64x8::splat(u64::from(weight))
}

// The first place below n at which a number is least.
fn place_of_least(numbers: &[u64], n: usize) -> usize
    requires some { 1 ≤ n }
    requires all { n ≤ length numbers.now }
    ensures place { result ≡ first_least n (λ k. pos (slice_index numbers.now k)) }
    ensures place_in { result < n }
{
    let mut least = numbers[0];
    let mut found = 0;
    for place in 1..n {
        if numbers[place] < least {
            least = numbers[place];
            found = place;
        }
    }
    found
}

impl Matrix {
    // How far a cell is above the least one, and 0 beside the matrix.
    fn height(&self, row: usize, col: usize, least: i64) -> u32
        requires row_in { row < self.now.rows }
        requires small { unsigned_abs least ≤ MOST_BOUND }
        requires least { (i : ℕ) → i < length self.now.cells → least ≤ℤ slice_index_or self.now.cells i (pos 0) }
        requires close { (i : ℕ) → i < length self.now.cells
            → slice_index_or self.now.cells i (pos 0) <ℤ (least +ℤ pos 4294967296) }
        ensures { col < self.now.cols → cell_at self.now row col ≡ pos result +ℤ least }
    {
        if col < self.cols {
            above(self.cell(row, col), least)
        } else {
            0
        }
    }

    // The heights, row by row, each row of the width.
    fn filled(&self, alloc: Global, least: i64, width: usize) -> Result<Vec<u32>, AllocError>
        requires all { self.now.cols ≤ width }
        requires narrow { width ≤ MOST_MOVES }
        requires small { unsigned_abs least ≤ MOST_BOUND }
        requires least { (i : ℕ) → i < length self.now.cells → least ≤ℤ slice_index_or self.now.cells i (pos 0) }
        requires close { (i : ℕ) → i < length self.now.cells
            → slice_index_or self.now.cells i (pos 0) <ℤ (least +ℤ pos 4294967296) }
        ensures { IfOk result (λ heights. AreHeights self.now least width heights.items) }
    {
        let count = self.rows * width;
        let mut heights = Vec::with_capacity(alloc, count)?;
        for place in 0..count {
            heights.push(self.height(place / width, place % width, least))?;
        }
        Ok(heights)
    }

    /// The heights of the cells, where they serve and fit.
    pub(crate) fn heights(&self, alloc: Global) -> Result<Option<Heights>, AllocError>
        ensures { IfOk result (λ found. IfSome found (AreHeightsOf self.now)) }
    {
        let range = self.range();
        let least = range.least;
        if self.cols < FEWEST_COLS || range.greatest - least >= 1 << 32 {
            return Ok(None);
        }
        let blocks = (self.cols + 7) / 8;
        let cells = self.filled(alloc, least, 8 * blocks)?;
        Ok(Some(Heights {
            least,
            rows: self.rows,
            blocks,
            cells,
        }))
    }

    // The same as `best_reply`, of weights that sum to `weight`, in room for the sums of all blocks. It stands apart, so that
    // a round of few columns is short.
    #[inline(never)]
    fn lane_reply(&self, weight: u32, p: &[u32], heights: &Heights, sums: &mut [u64]) -> Reply
        requires heights { AreHeightsOf self.now heights.now }
        requires weights { IsWeighted self.now.rows weight p.now }
        requires light { All (λ x. x ≤ MOST_WEIGHT) p.now }
        requires light_weight { weight ≤ MOST_WEIGHT }
        requires room { 8 * heights.now.blocks ≤ length sums.old }
        ensures { IsReplyTo self.now p.now result }
    {
        let cols = self.cols;
        heights.sum_rows(p, sums);
        let col = place_of_least(sums, cols);
        let paid = sums[col] as i64 + weighted(weight, heights.least);
        Reply { col, paid }
    }

    // The first column in which the weights of the rows, which sum to `weight`, pay least.
    pub(crate) fn reply(&self, weight: u32, p: &[u32], heights: &Option<Heights>) -> Reply
        requires heights { IfSome heights.now (AreHeightsOf self.now) }
        requires weights { IsWeighted self.now.rows weight p.now }
        requires light { All (λ x. x ≤ MOST_WEIGHT) p.now }
        requires light_weight { weight ≤ MOST_WEIGHT }
        ensures { IsReplyTo self.now p.now result }
    {
        match heights {
            // To clear room for all columns that there may be takes as long as a round of a few.
            Some(heights) if heights.blocks <= 4 => {
                self.lane_reply(weight, p, heights, &mut [0u64; 32])
            }
            Some(heights) => self.lane_reply(weight, p, heights, &mut [0u64; MOST_MOVES as usize]),
            None => self.best_reply(p),
        }
    }
}

/// How far the cell is above the least one.
pub(crate) fn above(cell: i64, least: i64) -> u32
    requires small { unsigned_abs least ≤ MOST_BOUND }
    requires least { least ≤ℤ cell }
    requires close { cell <ℤ (least +ℤ pos 4294967296) }
    ensures { cell ≡ pos result +ℤ least }
{
    (cell - least) as u32
}
