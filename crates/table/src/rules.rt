//! The rules that lists which fit each other keep, tried one by one.

ghost use Rattle.std.specs.Prelude.{◌≡◌, ℕ, ◌<◌, ◌≤◌, length, MatchResult, None, Some};
ghost use Rattle.sim_game.specs.declared.Limits.{Limits};
ghost use Rattle.table.specs.Faults.{are_moves, are_weights, cell_error, cell_fault, fault_at, is_payoff, is_rank, keeps, leads_on, most_table_moves, most_table_turns, rule_fault, shape_fault, AreOrdered};
ghost use Rattle.table.specs.Setting.{lists_of};
ghost use Rattle.table.specs.Lists.{cell_rank, cells_of, draws_at, next_rank, place_at, table_rank, table_state, state_count};
ghost use Rattle.table.specs.Position.{AreFitting, IsTable};

use crate::TableError;
use crate::setting::{Cell, Setting};
use sim_game::{CHANCE, Limits, MOST_TURNS, Side};
use sums::MOST_MOVES;

/// A rule of the cells of a state.
#[derive(Clone, Copy, PartialEq, Eq, Debug)]
pub(crate) enum CellRule {
    Draws,
    Weights,
    Order,
}

/// A rule of states.
#[derive(Clone, Copy, PartialEq, Eq, Debug)]
pub(crate) enum Rule {
    Payoff,
    Rows(Limits),
    Cells(Limits),
    Each(CellRule),
    Turns(Limits),
}

/// Lists that fit each other.
#[derive(Clone, Copy)]
pub(crate) struct Fitting<'a> {
    pub(crate) setting: Setting<'a>,
    ghost fits: { AreFitting (lists_of setting) },
}

fn is_payoff(value: i32) -> bool
    ensures { result ≡ is_payoff value }
{
    !(value < -4000 || 4000 < value)
}

/// The most rows of a state, and the most cells of a row.
fn most_moves(limits: Limits) -> u32
    ensures { result ≡ most_table_moves limits }
{
    match limits {
        Limits::Narrow => 32,
        Limits::Wide => MOST_MOVES,
    }
}

/// The most turns of a way.
fn most_turns(limits: Limits) -> u32
    ensures { result ≡ most_table_turns limits }
{
    match limits {
        Limits::Narrow => 31,
        Limits::Wide => MOST_TURNS,
    }
}

fn are_moves(limits: Limits, moves: u32) -> bool
    ensures { result ≡ are_moves limits moves }
{
    1 <= moves && moves <= most_moves(limits)
}

impl CellRule {
    /// What is said of a cell that breaks the rule.
    fn error(self, state: u32, row: u32, cell: u32) -> TableError
        ensures { result ≡ cell_error self state row cell }
    {
        match self {
            CellRule::Draws => TableError::DrawsRange { state, row, cell },
            CellRule::Weights => TableError::Weights { state, row, cell },
            CellRule::Order => TableError::Order { state, row, cell },
        }
    }
}

impl Fitting<'_> {
    /// How many draws the cell at the place has.
    pub(crate) fn draw_count(&self, place: usize) -> u32
        requires { place < length self.now.setting.cells.now }
        ensures { result ≡ draws_at (lists_of self.now.setting) place }
    {
        match self.setting.cell(place) {
            Cell::State(_) => 1,
            Cell::Draws(first) => self.setting.draws_end(place + 1) - first,
        }
    }

    /// Whether the weights of a cell are at least 1 and sum to the whole chance.
    fn are_weights(&self, place: usize) -> bool
        requires { place < length self.now.setting.cells.now }
        ensures { result ≡ are_weights (lists_of self.now.setting) place }
    {
        let cell = self.setting.cell(place);
        let mut left = CHANCE;
        for d in 0..self.draw_count(place) {
            let weight = self.setting.weight(cell, d);
            if weight == 0 || weight > left {
                return false;
            }
            left -= weight;
        }
        left == 0
    }

    /// Whether a cell of the state names states that stand behind it and are there.
    fn leads_on(&self, s: u32, place: usize) -> bool
        requires { place < length self.now.setting.cells.now }
        ensures { result ≡ leads_on (lists_of self.now.setting) s place }
    {
        let cell = self.setting.cell(place);
        for d in 0..self.draw_count(place) {
            let next = self.setting.state(cell, d);
            if next <= s || next as usize >= self.setting.ranks.len() {
                return false;
            }
        }
        true
    }

    /// Whether a cell of the state keeps the rule.
    fn keeps(&self, rule: CellRule, s: u32, place: usize) -> bool
        requires { place < length self.now.setting.cells.now }
        ensures { result ≡ keeps rule (lists_of self.now.setting) s place }
    {
        match rule {
            CellRule::Draws => {
                let count = self.draw_count(place);
                1 <= count && count <= 13
            }
            CellRule::Weights => self.are_weights(place),
            CellRule::Order => self.leads_on(s, place),
        }
    }

    /// The greatest rank of the states that a cell names.
    fn cell_rank(&self, place: usize) -> u32
        requires place { place < length self.now.setting.cells.now }
        requires there { let l = lists_of self.now.setting in
            (d : ℕ) → d < draws_at l place → table_state l place d < state_count l }
        ensures { result ≡ cell_rank (lists_of self.now.setting) place }
    {
        let cell = self.setting.cell(place);
        let mut most = 0;
        for d in 0..self.draw_count(place) {
            let next = self.setting.state(cell, d);
            most = self.setting.rank(next).max(most);
        }
        most
    }

    /// How many cells a state has, and the place of the first.
    pub(crate) fn cells_of(&self, s: u32) -> (u32, usize)
        requires here { s < state_count (lists_of self.now.setting) }
        requires inner { 1 ≤ table_rank (lists_of self.now.setting) s }
        ensures count { result.0 ≡ cells_of (lists_of self.now.setting) s }
        ensures first { result.1 ≡ place_at (lists_of self.now.setting) s 0 }
    {
        let count = self.setting.moves(Side::One, s) * self.setting.moves(Side::Two, s);
        (count, self.setting.value(s) as usize)
    }

    /// The greatest rank of the states that the cells of a state name.
    fn next_rank(&self, s: u32) -> u32
        requires here { s < state_count (lists_of self.now.setting) }
        requires inner { 1 ≤ table_rank (lists_of self.now.setting) s }
        requires ordered { AreOrdered (lists_of self.now.setting) }
        ensures { result ≡ next_rank (lists_of self.now.setting) s }
    {
        let (count, first) = self.cells_of(s);
        let mut most = 0;
        for k in 0..count {
            most = self.cell_rank(first + k as usize).max(most);
        }
        most
    }

    /// Whether the rank of a state is within the limits, and that of the longest way.
    fn is_rank(&self, limits: Limits, s: u32) -> bool
        requires here { s < state_count (lists_of self.now.setting) }
        requires ordered { AreOrdered (lists_of self.now.setting) }
        ensures { result ≡ is_rank limits (lists_of self.now.setting) s }
    {
        let rank = self.setting.rank(s);
        if rank > most_turns(limits) {
            return false;
        }
        rank == 0 || rank - 1 == self.next_rank(s)
    }

    /// What is said of the first cell of the state that breaks the rule.
    fn cell_fault(&self, rule: CellRule, s: u32) -> Option<TableError>
        requires { s < state_count (lists_of self.now.setting) }
        ensures { result ≡ cell_fault rule (lists_of self.now.setting) s }
    {
        if self.setting.rank(s) == 0 {
            return None;
        }
        let (count, first) = self.cells_of(s);
        for k in 0..count {
            if !self.keeps(rule, s, first + k as usize) {
                let columns = self.setting.moves(Side::Two, s);
                return Some(rule.error(s, k / columns, k % columns));
            }
        }
        None
    }

    /// What is said of the state where it breaks the rule.
    fn fault_at(&self, rule: Rule, s: u32) -> Option<TableError>
        requires here { s < state_count (lists_of self.now.setting) }
        requires ordered { (limits : Limits) → rule ≡ Rule.Turns limits → AreOrdered (lists_of self.now.setting) }
        ensures { result ≡ fault_at rule (lists_of self.now.setting) s }
    {
        let is_end = self.setting.rank(s) == 0;
        match rule {
            Rule::Payoff if !is_end || is_payoff(self.setting.value(s)) => None,
            Rule::Payoff => Some(TableError::PayoffRange { state: s }),
            Rule::Rows(limits) if is_end || are_moves(limits, self.setting.moves(Side::One, s)) =>
                None,
            Rule::Rows(_) => Some(TableError::RowsRange { state: s }),
            Rule::Cells(limits) if is_end || are_moves(limits, self.setting.moves(Side::Two, s)) =>
                None,
            Rule::Cells(_) => Some(TableError::CellsRange { state: s }),
            Rule::Each(rule) => self.cell_fault(rule, s),
            Rule::Turns(limits) if self.is_rank(limits, s) => None,
            Rule::Turns(_) => Some(TableError::Turns { state: s }),
        }
    }

    /// Refuses lists in which a state breaks the rule.
    pub(crate) fn check(&self, rule: Rule) -> Result<(), TableError>
        requires { (limits : Limits) → rule ≡ Rule.Turns limits → AreOrdered (lists_of self.now.setting) }
        ensures { MatchResult result
            (λ _. rule_fault rule (lists_of self.now.setting) ≡ None)
            (λ fault. rule_fault rule (lists_of self.now.setting) ≡ Some fault) }
    {
        for s in 0..self.setting.ranks.len() as u32 {
            if let Some(fault) = self.fault_at(rule, s) {
                return Err(fault);
            }
        }
        Ok(())
    }
}

/// Lists that keep all rules but the last.
#[derive(Clone, Copy)]
pub(crate) struct Shaped<'a> {
    pub(crate) setting: Setting<'a>,
    ghost valid: { IsTable (lists_of setting) },
}

impl<'a> Shaped<'a> {
    /// The lists, where they keep all rules but the last, else the first that is broken.
    pub(crate) fn new(limits: Limits, setting: Setting<'a>) -> Result<Shaped<'a>, TableError>
        ensures { MatchResult result
            (λ shaped. (shape_fault limits (lists_of setting.entry) ≡ None) × (shaped.setting ≡ setting.entry))
            (λ fault. shape_fault limits (lists_of setting.entry) ≡ Some fault) }
    {
        if !setting.do_fit() {
            return Err(TableError::Lists);
        }
        if setting.ranks.is_empty() {
            return Err(TableError::NoStates);
        }
        let lists = Fitting { setting };
        lists.check(Rule::Payoff)?;
        lists.check(Rule::Rows(limits))?;
        lists.check(Rule::Cells(limits))?;
        lists.check(Rule::Each(CellRule::Draws))?;
        lists.check(Rule::Each(CellRule::Weights))?;
        lists.check(Rule::Each(CellRule::Order))?;
        lists.check(Rule::Turns(limits))?;
        Ok(Shaped { setting })
    }

    /// The same lists, which fit each other.
    pub(crate) fn fitting(&self) -> Fitting<'a>
        ensures { result.setting ≡ self.now.setting }
    {
        Fitting {
            setting: self.setting,
        }
    }
}
