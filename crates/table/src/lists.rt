//! What is read of the six lists of a table.

ghost use Rattle.std.specs.Prelude.{◌≡◌, ◌+◌, ◌*◌, ◌<◌, ◌≤◌, drop, length};
ghost use Rattle.table.specs.Lists.{count_in, draw_reward, draw_state, draw_total, draw_weight, draws_end, state_count, table_cell, table_moves, table_rank, table_value};
ghost use Rattle.table.specs.Setting.{cell_number, lists_of, HasDraw};

use crate::setting::{Cell, Setting};
use sim_game::{CHANCE, Side};

/// The cell that the number stands for.
#[inline]
fn decode(number: i32) -> Cell
    ensures { number ≡ cell_number result }
{
    if number >= 0 {
        Cell::State(number as u32)
    } else {
        Cell::Draws((-1 - number) as u32)
    }
}

/// A number of a list of which no number is below 0.
#[inline]
fn count_in(numbers: &[i32], i: usize) -> u32
    requires { i < length numbers.now }
    ensures { result ≡ count_in numbers.now i }
{
    numbers[i].unsigned_abs()
}

impl Setting<'_> {
    /// The rank of a state, and 0 for an end.
    #[inline]
    pub(crate) fn rank(&self, s: u32) -> u32
        requires { s < state_count (lists_of self.now) }
        ensures { result ≡ table_rank (lists_of self.now) s }
    {
        count_in(self.ranks, s as usize)
    }

    /// How many moves a side has.
    #[inline]
    pub(crate) fn moves(&self, side: Side, s: u32) -> u32
        requires { 2 * s + 1 < length self.now.moves.now }
        ensures { result ≡ table_moves (lists_of self.now) side s }
    {
        match side {
            Side::One => count_in(self.moves, 2 * s as usize),
            Side::Two => count_in(self.moves, 2 * s as usize + 1),
        }
    }

    /// The payoff of an end, or the place of the first cell.
    #[inline]
    pub(crate) fn value(&self, s: u32) -> i32
        requires { s < length self.now.values.now }
        ensures { result ≡ table_value (lists_of self.now) s }
    {
        self.values[s as usize]
    }

    /// The cell at a place of the list.
    #[inline]
    pub(crate) fn cell(&self, place: usize) -> Cell
        requires { place < length self.now.cells.now }
        ensures { table_cell (lists_of self.now) place ≡ cell_number result }
    {
        decode(self.cells[place])
    }

    /// How many draws there are.
    #[inline]
    pub(crate) fn draw_total(&self) -> u32
        ensures { result ≡ draw_total (lists_of self.now) }
    {
        (self.draws.len() / 2) as u32
    }

    /// Where the draws of a cell end, whose next cell is at the place.
    pub(crate) fn draws_end(&self, place: usize) -> u32
        requires { place ≤ length self.now.cells.now }
        ensures { result ≡ draws_end (drop place self.now.cells.now) (draw_total (lists_of self.now)) }
    {
        for number in &self.cells[place..] {
            if let Cell::Draws(first) = decode(*number) {
                return first;
            }
        }
        self.draw_total()
    }

    /// The place of a draw's state in the list; the next place is that of its weight.
    #[inline]
    fn draw_place(&self, first: u32, d: u32) -> usize
        requires { first + d < draw_total (lists_of self.now) }
        ensures is { result ≡ 2 * (first + d) }
        ensures within { result + 1 < length self.now.draws.now }
    {
        2 * (first + d) as usize
    }

    /// The state of a draw of a cell.
    #[inline]
    pub(crate) fn state(&self, cell: Cell, d: u32) -> u32
        requires { HasDraw (lists_of self.now) (cell_number cell) d }
        ensures { result ≡ draw_state self.now.draws.now (cell_number cell) d }
    {
        match cell {
            Cell::State(state) => state,
            Cell::Draws(first) => count_in(self.draws, self.draw_place(first, d)),
        }
    }

    /// The weight of a draw of a cell.
    #[inline]
    pub(crate) fn weight(&self, cell: Cell, d: u32) -> u32
        requires { HasDraw (lists_of self.now) (cell_number cell) d }
        ensures { result ≡ draw_weight self.now.draws.now (cell_number cell) d }
    {
        match cell {
            Cell::State(_) => CHANCE,
            Cell::Draws(first) => count_in(self.draws, self.draw_place(first, d) + 1),
        }
    }

    /// The reward of a draw of a cell.
    #[inline]
    pub(crate) fn reward(&self, cell: Cell, d: u32) -> i32
        ensures { result ≡ draw_reward self.now.rewards.now (cell_number cell) d }
    {
        match cell {
            Cell::State(_) => 0,
            Cell::Draws(first) => {
                let place = first as usize + d as usize;
                self.rewards.get(place).copied().unwrap_or(0)
            }
        }
    }
}
