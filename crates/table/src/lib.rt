//! Tables: any finite game, handed in state by state.
#![tactic(auto)]

ghost use Rattle.std.specs.Prelude.{◌≡◌, ℕ, ◌<◌, ◌≤◌, ◌^◌, length, true, MatchResult, None, Some};
ghost use Rattle.sim_game.specs.declared.Limits.{Limits};
ghost use Rattle.sim_game.specs.declared.Limits.TheVariants.{Wide};
ghost use Rattle.sim_game.specs.declared.Side.TheVariants.{One, Two};
ghost use Rattle.table.specs.Draws.{AreDraws};
ghost use Rattle.table.specs.Faults.{first_fault, most_table_moves, most_table_turns, HasTotals};
ghost use Rattle.table.specs.Setting.{cell_number, lists_of, IsSettingOf};
ghost use Rattle.sim_game.specs.Numbers.{by_key, numbered_by_key};
ghost use Rattle.table.specs.laws.Game.{sound, table_is_game};
ghost use Rattle.table.specs.Lists.{Lists, table_cell, has_rewards, is_chance_free, lists_from, table_moves, table_rank, state_count, table_width};
ghost use Rattle.table.specs.Position.{AreSmallTotals, IsTable};
ghost use Rattle.table.specs.Rules.{place_of, table_game, KeepsRules};
ghost use Rattle.table.specs.Totals.{table_bound, table_range, AreStateTotals};

mod fits;
mod lists;
mod nested;
mod refusals;
mod rules;
mod setting;
mod state_totals;
mod summary;

pub use nested::{
    MOST_STATES, states_fit, states_have_longest_ways, states_have_one_game,
    states_have_short_lists, states_widen,
};
pub use refusals::position_has_one_game;
use rules::Shaped;
use setting::Cell;
pub use setting::Setting;
use sim_game::{CHANCE, Game, Limits, Side};
use state_totals::total_in;
pub use state_totals::totals;
use thiserror::Error;

/// A state, by its number.
#[derive(Clone, Copy, PartialEq, Eq, Debug)]
pub struct State {
    pub number: u32,
}

/// A game, by its lists.
#[derive(Clone, Copy, PartialEq, Eq, Debug)]
pub struct Table<'a> {
    pub setting: Setting<'a>,
    totals: &'a [i32],
    low: i32,
    high: i32,
    width: u32,
    chance_free: bool,
    ghost valid: { IsTable (lists_of setting) },
    ghost small: { AreSmallTotals (lists_of setting) },
    ghost totals_are: { has_rewards (lists_of setting) ≡ true → AreStateTotals (lists_of setting) totals.now },
    ghost low_is: { low ≡ table_range (lists_of setting) One },
    ghost high_is: { high ≡ table_range (lists_of setting) Two },
    ghost width_is: { width ≡ table_width (lists_of setting) },
    ghost chance_free_is: { chance_free ≡ is_chance_free (lists_of setting) },
}

/// Why there is no such position. States are numbered from 0, and so are the rows of a state and the cells of a row.
#[derive(Clone, Copy, PartialEq, Eq, Debug, Error)]
pub enum TableError {
    #[error("the lists do not fit each other")]
    Lists,
    #[error("there is no state")]
    NoStates,
    #[error("the payoff of the end {state} is not -4000 to 4000")]
    PayoffRange { state: u32 },
    #[error("the state {state} has no row, or too many")]
    RowsRange { state: u32 },
    #[error("the rows of the state {state} have no cell, or too many, or not equally many")]
    CellsRange { state: u32 },
    #[error("the cell {cell} of row {row} of the state {state} has not 1 to 13 draws")]
    DrawsRange { state: u32, row: u32, cell: u32 },
    #[error("the weights of the cell {cell} of row {row} of the state {state} do not sum to 360360, or one is 0")]
    Weights { state: u32, row: u32, cell: u32 },
    #[error("the cell {cell} of row {row} of the state {state} names a state that does not stand behind it")]
    Order { state: u32, row: u32, cell: u32 },
    #[error("the longest way from the state {state} takes too many turns, or not as many as told")]
    Turns { state: u32 },
    #[error("what can be got from the state {state} on is not -4000 to 4000")]
    Total { state: u32 },
}

impl<'a> Table<'a> {
    /// The table of these lists. An error names the first rule that is broken: the lists fit each other; there is a
    /// state; payoffs of ends are -4000 to 4000; a state that is no end has 1 to 32 rows, and 1 to 32 cells in each,
    /// within wide limits 1 to 64; a cell has 1 to 13 draws, whose weights are at least 1 and sum to 360360, and whose
    /// states stand behind the cell's own; ranks are those of the longest ways, and at most 31, within wide limits 63;
    /// and where turns pay, all that can be got from a state on is -4000 to 4000. `totals` are those that the function
    /// of this name makes of the lists.
    pub fn new(
        limits: Limits,
        setting: Setting<'a>,
        totals: &'a [i32],
    ) -> Result<Table<'a>, TableError>
        requires { HasTotals (lists_of setting) totals.now }
        ensures { MatchResult result
            (λ table. (first_fault limits (lists_of setting.entry) ≡ None) × (table.setting ≡ setting.entry))
            (λ fault. first_fault limits (lists_of setting.entry) ≡ Some fault) }
    {
        let shaped = Shaped::new(limits, setting)?;
        let table = shaped.table(totals)?;
        Ok(table)
    }

    /// The least sum that One can still get from a state on for One, the greatest for Two.
    #[inline]
    fn bound(&self, side: Side, s: u32) -> i32
        requires { s < state_count (lists_of self.now.setting) }
        ensures { result ≡ table_bound (lists_of self.now.setting) side s }
    {
        if !self.setting.rewards.is_empty() {
            return total_in(self.totals, side, s);
        }
        match side {
            Side::One => self.low,
            Side::Two => self.high,
        }
    }

    /// The cell of two moves at a state.
    #[inline]
    fn cell(&self, s: u32, a: u32, b: u32) -> Cell
        requires here { s < state_count (lists_of self.now.setting) }
        requires one { a < table_moves (lists_of self.now.setting) One s }
        requires two { b < table_moves (lists_of self.now.setting) Two s }
        ensures { let l = lists_of self.now.setting in table_cell l (place_of l s a b) ≡ cell_number result }
    {
        let columns = self.setting.moves(Side::Two, s) as usize;
        let first = self.setting.value(s) as usize;
        self.setting
            .cell(first + (a as usize * columns + b as usize))
    }

    /// How many draws from the first on are all that can happen.
    #[inline]
    fn draw_count(&self, first: u32) -> u32
        requires { (count : ℕ) × AreDraws (lists_of self.now.setting) first count }
        ensures { AreDraws (lists_of self.now.setting) first result }
    {
        let mut count = 0;
        let mut left = CHANCE;
        while left > 0 {
            left -= self.setting.weight(Cell::Draws(first), count);
            count += 1;
        }
        count
    }
}

impl Game for Table<'_> {
    type State = State;

    ghost model = { λ game. table_game (lists_of game.setting) };

    ghost numbering = { λ game. let l = lists_of game.setting in by_key (table_game l) (state_count l) };

    fn root(&self) -> State {
        State { number: 0 }
    }

    #[inline]
    fn moves(&self, side: Side, s: State) -> u32 {
        self.setting.moves(side, s.number)
    }

    #[inline]
    fn next(&self, s: State, a: u32, b: u32) -> State {
        self.drawn(s, a, b, 0)
    }

    #[inline]
    fn payoff(&self, s: State) -> i32 {
        self.setting.value(s.number)
    }

    #[inline]
    fn reward(&self, s: State, a: u32, b: u32, d: u32) -> i32 {
        self.setting.reward(self.cell(s.number, a, b), d)
    }

    #[inline]
    fn least(&self, s: State) -> i32 {
        self.bound(Side::One, s.number)
    }

    #[inline]
    fn most(&self, s: State) -> i32 {
        self.bound(Side::Two, s.number)
    }

    #[inline]
    fn rank(&self, s: State) -> u32 {
        self.setting.rank(s.number)
    }

    #[inline]
    fn key(&self, s: State) -> u64 {
        s.number as u64
    }

    fn most_states(&self) -> u64 {
        self.setting.ranks.len() as u64
    }

    #[inline]
    fn place(&self, s: State) -> u64 {
        self.key(s)
    }

    #[inline]
    fn low(&self) -> i32 {
        self.low
    }

    #[inline]
    fn high(&self) -> i32 {
        self.high
    }

    #[inline]
    fn width(&self) -> u32 {
        self.width
    }

    fn label(&self, _side: Side, _s: State, i: u32) -> u8 {
        i as u8
    }

    #[inline]
    fn chance_free(&self) -> bool {
        self.chance_free
    }

    #[inline]
    fn draws(&self, s: State, a: u32, b: u32) -> u32 {
        match self.cell(s.number, a, b) {
            Cell::State(_) => 1,
            Cell::Draws(first) => self.draw_count(first),
        }
    }

    #[inline]
    fn chance(&self, s: State, a: u32, b: u32, d: u32) -> u32 {
        self.setting.weight(self.cell(s.number, a, b), d)
    }

    #[inline]
    fn drawn(&self, s: State, a: u32, b: u32, d: u32) -> State {
        let number = self.setting.state(self.cell(s.number, a, b), d);
        State { number }
    }

    ghost lawful = { λ game. table_is_game (lists_of game.setting) game.valid game.small };

    ghost numbered = { λ game. let l = lists_of game.setting in
        numbered_by_key (table_game l) (table_is_game l game.valid game.small) (state_count l) (sound l game.valid) };
}

/// Lists that are accepted within some limits have no more moves of a side and no longer ways than these allow. They are
/// accepted within the wide limits too, and within others wherever they have no more than those allow.
pub fn tables_keep_limits()
    ensures width { (limits : Limits) (l : Lists) → first_fault limits l ≡ None
        → table_width l ≤ most_table_moves limits }
    ensures turns { (limits : Limits) (l : Lists) → first_fault limits l ≡ None
        → (s : ℕ) → s < state_count l → table_rank l s ≤ most_table_turns limits }
    ensures wider { (limits : Limits) (l : Lists) → first_fault limits l ≡ None → first_fault Wide l ≡ None }
    ensures others { (limits : Limits) (l : Lists) → first_fault limits l ≡ None
        → (other : Limits) → table_width l ≤ most_table_moves other
        → ((s : ℕ) → s < state_count l → table_rank l s ≤ most_table_turns other)
        → first_fault other l ≡ None }
{}

/// What a state tells of the turns that follow it holds.
pub fn keeps_rules(_game: &Table)
    ensures { KeepsRules (lists_of _game.now.setting) }
{}
