//! The least and the greatest sum that One can still get from each state on, from the last state to the first.

ghost use Rattle.std.specs.Prelude.{◌≡◌, ℕ, ◌+◌, ◌-◌, ◌*◌, ◌<◌, ◌≤◌, ◌^◌, ◌+ℤ◌, ◌==◌, if◌then◌else◌, true, length, IfOk, MatchResult, None, Some};
ghost use Rattle.sim_game.specs.Sides.{other_side, better};
ghost use Rattle.table.specs.Below.{first_below, worst_upto};
ghost use Rattle.table.specs.Faults.{total_fault, total_fault_at, HasTotals};
ghost use Rattle.table.specs.Lists.{draw_state, draw_reward, has_rewards, lists_from, state_count, table_rank, table_value};
ghost use Rattle.table.specs.Position.{IsTableCell};
ghost use Rattle.table.specs.Setting.{cell_number, lists_of, HasDraw};
ghost use Rattle.table.specs.Totals.{cell_total, next_total, table_range, total_in, AreNear, AreSmallRewards, AreStateTotals};

use crate::rules::Shaped;
use crate::setting::{Cell, Setting};
use crate::{Table, TableError};
use sim_game::{Limits, NoMemory, Side};
use std::alloc::{AllocError, Global};

/// The worse of two numbers for a side: the lesser for One, the greater for Two.
fn worse(side: Side, x: i32, y: i32) -> i32
    ensures { result ≡ better (other_side side) x y }
{
    match side {
        Side::One => x.min(y),
        Side::Two => x.max(y),
    }
}

/// The sum of a state in a list that has two for each state, the least and the greatest.
#[inline]
pub(crate) fn total_in(totals: &[i32], side: Side, s: u32) -> i32
    requires { 2 * s + 1 < length totals.now }
    ensures { result ≡ total_in totals.now side s }
{
    match side {
        Side::One => totals[2 * s as usize],
        Side::Two => totals[2 * s as usize + 1],
    }
}

/// The worst for a side of the sums of the first states, of which there are some.
fn worst_total(totals: &[i32], side: Side, states: u32) -> i32
    requires some { 1 ≤ states }
    requires there { length totals.now ≡ 2 * states }
    ensures { result ≡ worst_upto side (states - 1) (total_in totals.now side) }
{
    let mut worst = total_in(totals, side, 0);
    for s in 1..states {
        let total = total_in(totals, side, s);
        worst = worse(side, worst, total);
    }
    worst
}

impl Shaped<'_> {
    /// The reward of a draw, and the sum of the state that it leads to.
    fn turn_total(&self, side: Side, totals: &[i32], cell: Cell, d: u32) -> i32
        requires draw { HasDraw (lists_of self.now.setting) (cell_number cell) d }
        requires there { 2 * draw_state self.now.setting.draws.now (cell_number cell) d + 1 < length totals.now }
        requires small { AreSmallRewards self.now.setting.rewards.now }
        requires near { AreNear totals.now }
        ensures { result ≡ draw_reward self.now.setting.rewards.now (cell_number cell) d
            +ℤ total_in totals.now side (draw_state self.now.setting.draws.now (cell_number cell) d) }
    {
        let next = self.setting.state(cell, d);
        let reward = self.setting.reward(cell, d);
        reward + total_in(totals, side, next)
    }

    /// The worst for a side over the draws of a cell.
    fn cell_total(&self, side: Side, totals: &[i32], place: usize) -> i32
        requires cell { (s : ℕ) × IsTableCell (lists_of self.now.setting) s place }
        requires place { place < length self.now.setting.cells.now }
        requires count { length totals.now ≡ 2 * state_count (lists_of self.now.setting) }
        requires small { AreSmallRewards self.now.setting.rewards.now }
        requires near { AreNear totals.now }
        ensures { result ≡ cell_total (lists_of self.now.setting) side (total_in totals.now side) place }
    {
        let cell = self.setting.cell(place);
        let mut worst = self.turn_total(side, totals, cell, 0);
        for d in 1..self.fitting().draw_count(place) {
            let total = self.turn_total(side, totals, cell, d);
            worst = worse(side, worst, total);
        }
        worst
    }

    /// The worst for a side over the cells of a state.
    fn next_total(&self, side: Side, totals: &[i32], s: u32) -> i32
        requires here { s < state_count (lists_of self.now.setting) }
        requires inner { 1 ≤ table_rank (lists_of self.now.setting) s }
        requires count { length totals.now ≡ 2 * state_count (lists_of self.now.setting) }
        requires small { AreSmallRewards self.now.setting.rewards.now }
        requires near { AreNear totals.now }
        ensures { result ≡ next_total (lists_of self.now.setting) side (total_in totals.now side) s }
    {
        let (count, first) = self.fitting().cells_of(s);
        let mut worst = self.cell_total(side, totals, first);
        for k in 1..count {
            let total = self.cell_total(side, totals, first + k as usize);
            worst = worse(side, worst, total);
        }
        worst
    }

    /// The worst sum for a side from a state on, given those of the states behind it.
    fn state_total(&self, side: Side, totals: &[i32], s: u32) -> i32
        requires here { s < state_count (lists_of self.now.setting) }
        requires count { length totals.now ≡ 2 * state_count (lists_of self.now.setting) }
        requires small { AreSmallRewards self.now.setting.rewards.now }
        requires near { AreNear totals.now }
        ensures { let l = lists_of self.now.setting in
            result ≡ (if table_rank l s == 0 then table_value l s else next_total l side (total_in totals.now side) s) }
    {
        if self.setting.rank(s) == 0 {
            self.setting.value(s)
        } else {
            self.next_total(side, totals, s)
        }
    }

    /// The sums of all states.
    pub(crate) fn totals(&self, alloc: Global) -> Result<Vec<i32>, AllocError>
        requires { AreSmallRewards self.now.setting.rewards.now }
        ensures { IfOk result (λ totals. AreStateTotals (lists_of self.now.setting) totals.items) }
    {
        let states = self.setting.ranks.len();
        let mut totals = Vec::from_elem(alloc, 0, 2 * states)?;
        let mut s = states;
        while s > 0 {
            s -= 1;
            let least = self.state_total(Side::One, totals.as_slice(), s as u32);
            let most = self.state_total(Side::Two, totals.as_slice(), s as u32);
            totals[2 * s] = least;
            totals[2 * s + 1] = most;
        }
        Ok(totals)
    }

    /// The worst for a side of what can be got from any state on.
    fn range(&self, side: Side, totals: &[i32]) -> i32
        requires { has_rewards (lists_of self.now.setting) ≡ true
            → AreStateTotals (lists_of self.now.setting) totals.now }
        ensures { result ≡ table_range (lists_of self.now.setting) side }
    {
        if self.setting.rewards.is_empty() {
            self.fitting().worst_payoff(side)
        } else {
            worst_total(totals, side, self.setting.ranks.len() as u32)
        }
    }

    /// Refuses lists with a state from which too much can be got.
    fn check_totals(&self, totals: &[i32]) -> Result<(), TableError>
        requires { AreStateTotals (lists_of self.now.setting) totals.now }
        ensures { let l = lists_of self.now.setting in MatchResult result
            (λ _. first_below (state_count l) (total_fault_at l) ≡ None)
            (λ fault. first_below (state_count l) (total_fault_at l) ≡ Some fault) }
    {
        for s in 0..self.setting.ranks.len() as u32 {
            let least = total_in(totals, Side::One, s);
            let most = total_in(totals, Side::Two, s);
            if least < -4000 || most > 4000 {
                return Err(TableError::Total { state: s });
            }
        }
        Ok(())
    }
}

impl<'a> Shaped<'a> {
    /// Refuses lists that break the last rule.
    fn check_last(&self, totals: &[i32]) -> Result<(), TableError>
        requires { has_rewards (lists_of self.now.setting) ≡ true
            → AreStateTotals (lists_of self.now.setting) totals.now }
        ensures { MatchResult result
            (λ _. total_fault (lists_of self.now.setting) ≡ None)
            (λ fault. total_fault (lists_of self.now.setting) ≡ Some fault) }
    {
        if self.setting.rewards.is_empty() {
            Ok(())
        } else {
            self.check_totals(totals)
        }
    }

    /// The table of the lists, where they keep the last rule too.
    pub(crate) fn table(&self, totals: &'a [i32]) -> Result<Table<'a>, TableError>
        requires { has_rewards (lists_of self.now.setting) ≡ true
            → AreStateTotals (lists_of self.now.setting) totals.now }
        ensures { MatchResult result
            (λ table. (total_fault (lists_of self.now.setting) ≡ None) × (table.setting ≡ self.now.setting))
            (λ fault. total_fault (lists_of self.now.setting) ≡ Some fault) }
    {
        self.check_last(totals)?;
        let lists = self.fitting();
        Ok(Table {
            setting: self.setting,
            totals,
            low: self.range(Side::One, totals),
            high: self.range(Side::Two, totals),
            width: lists.width(),
            chance_free: lists.is_chance_free(),
        })
    }
}

/// For each state the least and the greatest sum that One can still get from it on, where turns pay: what a table with
/// rewards borrows beside its lists. Nobody reads it where no turn pays, or where a rule before the last
/// is broken within the wide limits.
pub fn totals(
    alloc: Global,
    ranks: &[i32],
    moves: &[i32],
    values: &[i32],
    cells: &[i32],
    draws: &[i32],
    rewards: &[i32],
) -> Result<Vec<i32>, NoMemory>
    requires ranks { length ranks.now < 2 ^ 31 }
    requires cells { length cells.now < 2 ^ 31 }
    requires draws { length draws.now < 2 ^ 31 }
    requires rewards { AreSmallRewards rewards.now }
    ensures { let l = lists_from ranks.now moves.now values.now cells.now draws.now rewards.now in
        IfOk result (λ totals. HasTotals l totals.items) }
{
    let setting = Setting {
        ranks,
        moves,
        values,
        cells,
        draws,
        rewards,
    };
    if rewards.is_empty() {
        return Ok(Vec::new(alloc));
    }
    match Shaped::new(Limits::Wide, setting) {
        Ok(shaped) => Ok(shaped.totals(alloc)?),
        Err(_) => Ok(Vec::new(alloc)),
    }
}
