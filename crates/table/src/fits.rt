//! Whether the six lists fit each other.

ghost use Rattle.std.specs.Prelude.{◌≡◌, ◌+◌, ◌<◌, ◌^◌, length, true};
ghost use Rattle.sums.specs.Sums.{count_below};
ghost use Rattle.table.specs.Faults.{are_rewards, do_draws_fit, do_fit, do_states_fit, have_counts, state_fits};
ghost use Rattle.table.specs.Lists.{cells_of, state_count};
ghost use Rattle.table.specs.Setting.{lists_of};

use crate::setting::{Cell, Setting};
use sim_game::Side;

impl Setting<'_> {
    /// Whether the lists fit each other, so that they are those of some states.
    pub(crate) fn do_fit(&self) -> bool
        ensures { result ≡ do_fit (lists_of self.now) }
    {
        self.have_counts() && self.do_states_fit() && self.do_draws_fit()
    }

    /// Whether there are no rewards, or one for each draw.
    fn are_rewards(&self) -> bool
        ensures { result ≡ are_rewards (lists_of self.now) }
    {
        self.rewards.is_empty() || 2 * self.rewards.len() == self.draws.len()
    }

    /// Whether the lists have as many numbers as there are states, or twice as many, the draws are pairs, and the
    /// rewards as many as the draws.
    fn have_counts(&self) -> bool
        ensures { result ≡ have_counts (lists_of self.now) }
    {
        self.moves.len() == 2 * self.ranks.len()
            && self.values.len() == self.ranks.len()
            && self.draws.len() % 2 == 0
            && self.are_rewards()
    }

    /// How many cells a state has.
    fn cells_of(&self, s: u32) -> u64
        requires here { s < state_count (lists_of self.now) }
        requires counts { have_counts (lists_of self.now) ≡ true }
        ensures is { result ≡ cells_of (lists_of self.now) s }
        ensures small { result + 2 ^ 32 < 2 ^ 64 }
    {
        self.moves(Side::One, s) as u64 * self.moves(Side::Two, s) as u64
    }

    /// Whether a state fits, before which there are so many cells.
    fn state_fits(&self, s: u32, cells: u64) -> bool
        requires here { s < state_count (lists_of self.now) }
        requires counts { have_counts (lists_of self.now) ≡ true }
        requires cells { cells ≡ count_below s (cells_of (lists_of self.now)) }
        ensures { result ≡ state_fits (lists_of self.now) s }
    {
        if self.rank(s) == 0 {
            self.moves(Side::One, s) == 0 && self.moves(Side::Two, s) == 0
        } else {
            let value = self.value(s);
            value >= 0 && value as u64 == cells
        }
    }

    /// Whether ends have no moves, and the cells of the other states are all that there are, state by state.
    fn do_states_fit(&self) -> bool
        requires { have_counts (lists_of self.now) ≡ true }
        ensures { result ≡ do_states_fit (lists_of self.now) }
    {
        let total = self.cells.len() as u64;
        let mut cells: u64 = 0;
        for s in 0..self.ranks.len() as u32 {
            if !self.state_fits(s, cells) {
                return false;
            }
            cells += self.cells_of(s);
            if cells > total {
                return false;
            }
        }
        cells == total
    }

    /// Whether the draws of the cells are all that there are, cell by cell.
    fn do_draws_fit(&self) -> bool
        ensures { result ≡ do_draws_fit (lists_of self.now) }
    {
        let mut last = self.draw_total();
        let mut place = self.cells.len();
        while place > 0 {
            place -= 1;
            if let Cell::Draws(first) = self.cell(place) {
                if first > last {
                    return false;
                }
                last = first;
            }
        }
        last == 0
    }
}
