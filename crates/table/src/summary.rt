//! What is known of all states: the range of what can be got, the width, and whether there is chance.

ghost use Rattle.std.specs.Prelude.{◌≡◌};
ghost use Rattle.table.specs.Setting.{lists_of};
ghost use Rattle.sim_game.specs.declared.Side.TheVariants.{One, Two};
ghost use Rattle.table.specs.Lists.{is_chance_free, table_width};
ghost use Rattle.table.specs.Totals.{worst_payoff};

use crate::rules::Fitting;
use sim_game::Side;

impl Fitting<'_> {
    /// The least payoff.
    fn least_payoff(&self) -> i32
        ensures { result ≡ worst_payoff (lists_of self.now.setting) One }
    {
        let mut low = 4000;
        for s in 0..self.setting.ranks.len() as u32 {
            if self.setting.rank(s) == 0 {
                low = low.min(self.setting.value(s));
            }
        }
        low
    }

    /// The greatest payoff.
    fn greatest_payoff(&self) -> i32
        ensures { result ≡ worst_payoff (lists_of self.now.setting) Two }
    {
        let mut high = -4000;
        for s in 0..self.setting.ranks.len() as u32 {
            if self.setting.rank(s) == 0 {
                high = high.max(self.setting.value(s));
            }
        }
        high
    }

    /// The least payoff for One, the greatest for Two.
    pub(crate) fn worst_payoff(&self, side: Side) -> i32
        ensures { result ≡ worst_payoff (lists_of self.now.setting) side }
    {
        match side {
            Side::One => self.least_payoff(),
            Side::Two => self.greatest_payoff(),
        }
    }

    /// The greatest number of moves, at least 1.
    pub(crate) fn width(&self) -> u32
        ensures { result ≡ table_width (lists_of self.now.setting) }
    {
        let mut most = 1;
        for moves in self.setting.moves {
            most = moves.unsigned_abs().max(most);
        }
        most
    }

    /// Whether each cell has one draw.
    pub(crate) fn is_chance_free(&self) -> bool
        ensures { result ≡ is_chance_free (lists_of self.now.setting) }
    {
        for place in 0..self.setting.cells.len() {
            if self.draw_count(place) != 1 {
                return false;
            }
        }
        true
    }
}
