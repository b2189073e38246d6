//! The lists that states make, but for the ranks.

ghost use Rattle.std.specs.Prelude.{◌≡◌, ◌&&◌, ◌∷◌, ◌++◌, [], ◌+◌, ◌<◌, ◌≤◌, ◌^◌, ◌==◌, ◌⊎◌, true, false, pos, negsuc, neg_ℤ, ◌≤ℤ◌, map, length, if◌then◌else◌, IfOk, OnOk};
ghost use Rattle.std.specs.List.{list_all, flat_map};
ghost use Rattle.serde_json.specs.View.{view};
ghost use Rattle.sim_game.specs.declared.Limits.TheVariants.{Wide};
ghost use Rattle.table.specs.declared.nested.TheConstants.{MOST_STATES};
ghost use Rattle.table.specs.Nested.{Draws, End, Rows, is_within, draw_in_range, cell_in_range, row_in_range, state_in_range, are_in_range, draw_count_of, kept_cells, columns_in};
ghost use Rattle.table_text.specs.Elements.{is_whole};
ghost use Rattle.table_text.specs.States.{elements_of, whole_of, draw_form_of, cell_form_of, row_form_of, state_form_of, are_unpaid, AddsDraws, AddsCells, AddsState, AreListsOf};

use crate::kinds::{draw_length, elements, is_whole, whole, whole_at};
use serde_json::Value;
use std::alloc::{AllocError, Global};

/// Draws so far.
#[derive(Drop)]
pub(crate) struct DrawLists {
    /// The state and the weight of each.
    pub(crate) numbers: Vec<i32>,
    /// The reward of each, 0 where it tells none.
    pub(crate) rewards: Vec<i32>,
    /// None of them tells a reward.
    pub(crate) unpaid: bool,
}

/// Cells so far, and their draws.
#[derive(Drop)]
pub(crate) struct Cells {
    pub(crate) numbers: Vec<i32>,
    pub(crate) draws: DrawLists,
}

/// States so far.
#[derive(Drop)]
pub(crate) struct Lists {
    pub(crate) moves: Vec<i32>,
    pub(crate) values: Vec<i32>,
    pub(crate) cells: Cells,
}

/// Adds the whole number.
fn push_whole(list: &mut Vec<i32>, number: i64) -> Result<(), AllocError>
    requires low { neg_ℤ (pos 2147483648) ≤ℤ number }
    requires high { number ≤ℤ pos 2147483647 }
    ensures { OnOk result (list.new.items ≡ list.old.items ++ number ∷ []) }
{
    list.push(number as i32)?;
    Ok(())
}

fn push_count(list: &mut Vec<i32>, count: usize) -> Result<(), AllocError>
    requires { count < 2 ^ 31 }
    ensures { OnOk result (list.new.items ≡ list.old.items ++ pos count ∷ []) }
{
    list.push(count as i32)?;
    Ok(())
}

/// Adds -1 - count.
fn push_first(list: &mut Vec<i32>, count: usize) -> Result<(), AllocError>
    requires { count < 2 ^ 31 }
    ensures { OnOk result (list.new.items ≡ list.old.items ++ negsuc count ∷ []) }
{
    list.push(-1 - count as i32)?;
    Ok(())
}

/// Whether those before tell no reward, and this one tells none.
fn are_unpaid(before: bool, draw: &Value) -> bool
    ensures { result ≡ (before && are_unpaid (draw_form_of (view draw.now) ∷ [])) }
{
    before && draw_length(draw) == 2
}

impl DrawLists {
    fn push(&mut self, draw: &Value) -> Result<(), AllocError>
        requires { draw_in_range Wide (draw_form_of (view draw.now)) ≡ true }
        ensures { OnOk result (AddsDraws self.old self.new (draw_form_of (view draw.now) ∷ [])) }
    {
        push_whole(&mut self.numbers, whole_at(draw, 0))?;
        push_whole(&mut self.numbers, whole_at(draw, 1))?;
        push_whole(&mut self.rewards, whole_at(draw, 2))?;
        self.unpaid = are_unpaid(self.unpaid, draw);
        Ok(())
    }

    fn push_all(&mut self, draws: &[Value]) -> Result<(), AllocError>
        requires { list_all (λ v. draw_in_range Wide (draw_form_of (view v))) draws.now ≡ true }
        ensures { OnOk result (AddsDraws self.old self.new (map (λ v. draw_form_of (view v)) draws.now)) }
    {
        for draw in draws {
            self.push(draw)?;
        }
        Ok(())
    }
}

/// The rewards of all draws, and none where no draw tells one.
pub(crate) fn told_rewards(alloc: Global, rewards: Vec<i32>, unpaid: bool) -> Vec<i32>
    ensures { result.items ≡ (if unpaid then [] else rewards.items) }
{
    if unpaid { Vec::new(alloc) } else { rewards }
}

impl Cells {
    fn push_draws(&mut self, draws: &[Value]) -> Result<(), AllocError>
        requires range { list_all (λ v. draw_in_range Wide (draw_form_of (view v))) draws.now ≡ true }
        requires room { length self.old.draws.rewards.items ≤ MOST_STATES }
        ensures { OnOk result (AddsCells self.old self.new (Draws (map (λ v. draw_form_of (view v)) draws.now) ∷ [])) }
    {
        push_first(&mut self.numbers, self.draws.rewards.len())?;
        self.draws.push_all(draws)?;
        Ok(())
    }

    fn push_cell(&mut self, cell: &Value) -> Result<(), AllocError>
        requires range { cell_in_range Wide (cell_form_of (view cell.now)) ≡ true }
        requires room { length self.old.draws.rewards.items
            + draw_count_of (cell_form_of (view cell.now) ∷ []) ≤ MOST_STATES }
        ensures { OnOk result (AddsCells self.old self.new (cell_form_of (view cell.now) ∷ [])) }
    {
        if is_whole(cell) {
            push_whole(&mut self.numbers, whole(cell))?;
        } else {
            self.push_draws(elements(cell))?;
        }
        Ok(())
    }

    fn push_row(&mut self, cells: &[Value]) -> Result<(), AllocError>
        requires range { list_all (λ v. cell_in_range Wide (cell_form_of (view v))) cells.now ≡ true }
        requires room { length self.old.draws.rewards.items
            + draw_count_of (flat_map (λ v. cell_form_of (view v) ∷ []) cells.now) ≤ MOST_STATES }
        ensures { OnOk result (AddsCells self.old self.new (flat_map (λ v. cell_form_of (view v) ∷ []) cells.now)) }
    {
        for cell in cells {
            self.push_cell(cell)?;
        }
        Ok(())
    }

    fn push_rows(&mut self, rows: &[Value]) -> Result<(), AllocError>
        requires range { list_all (λ v. row_in_range Wide (row_form_of (view v))) rows.now ≡ true }
        requires room { length self.old.draws.rewards.items
            + draw_count_of (flat_map (λ v. row_form_of (view v)) rows.now) ≤ MOST_STATES }
        ensures { OnOk result (AddsCells self.old self.new (flat_map (λ v. row_form_of (view v)) rows.now)) }
    {
        for row in rows {
            self.push_row(elements(row))?;
        }
        Ok(())
    }
}

fn row_length(row: &Value) -> usize
    ensures { result ≡ length (row_form_of (view row.now)) }
{
    elements(row).len()
}

fn are_long(rows: &[Value], columns: usize) -> bool
    ensures { result ≡ list_all (λ v. length (row_form_of (view v)) == columns) rows.now }
{
    rows.iter().all(|row| row_length(row) == columns)
}

/// The length of each row, and 0 where they are not equally long, or there is none.
fn columns(rows: &[Value]) -> usize
    ensures { result ≡ columns_in (map (λ v. row_form_of (view v)) rows.now) }
{
    match rows {
        [] => 0,
        [first, ..] => {
            let columns = row_length(first);
            if are_long(rows, columns) { columns } else { 0 }
        }
    }
}

/// The rows of the cells that are kept of a state.
pub(crate) fn kept_rows(state: &Value) -> &[Value]
    ensures cells { flat_map (λ v. row_form_of (view v)) result.now ≡ kept_cells (state_form_of (view state.now)) }
    ensures rows { (result.now ≡ []) ⊎ (map view result.now ≡ elements_of (view state.now)) }
{
    let rows = elements(state);
    if columns(rows) == 0 { &[] } else { rows }
}

impl Lists {
    fn new(alloc: Global) -> Lists
        ensures { AreListsOf [] result }
    {
        Lists {
            moves: Vec::new(alloc),
            values: Vec::new(alloc),
            cells: Cells {
                numbers: Vec::new(alloc),
                draws: DrawLists {
                    numbers: Vec::new(alloc),
                    rewards: Vec::new(alloc),
                    unpaid: true,
                },
            },
        }
    }

    fn push_end(&mut self, payoff: &Value) -> Result<(), AllocError>
        requires { is_within (neg_ℤ (pos 1000000)) (pos 1000000) (whole_of (view payoff.now)) ≡ true }
        ensures { OnOk result (AddsState self.old self.new (End (whole_of (view payoff.now)))) }
    {
        push_count(&mut self.moves, 0)?;
        push_count(&mut self.moves, 0)?;
        push_whole(&mut self.values, whole(payoff))?;
        Ok(())
    }

    fn push_rows(&mut self, state: &Value) -> Result<(), AllocError>
        requires kind { is_whole (view state.now) ≡ false }
        requires range { state_in_range Wide (state_form_of (view state.now)) ≡ true }
        requires few { length self.old.cells.numbers.items ≤ MOST_STATES }
        requires room { length self.old.cells.draws.rewards.items
            + draw_count_of (kept_cells (state_form_of (view state.now))) ≤ MOST_STATES }
        ensures { OnOk result (AddsState self.old self.new (state_form_of (view state.now))) }
    {
        let rows = elements(state);
        push_count(&mut self.moves, rows.len())?;
        push_count(&mut self.moves, columns(rows))?;
        push_count(&mut self.values, self.cells.numbers.len())?;
        self.cells.push_rows(kept_rows(state))?;
        Ok(())
    }

    fn push_state(&mut self, state: &Value) -> Result<(), AllocError>
        requires range { state_in_range Wide (state_form_of (view state.now)) ≡ true }
        requires few { length self.old.cells.numbers.items ≤ MOST_STATES }
        requires room { length self.old.cells.draws.rewards.items
            + draw_count_of (kept_cells (state_form_of (view state.now))) ≤ MOST_STATES }
        ensures { OnOk result (AddsState self.old self.new (state_form_of (view state.now))) }
    {
        if is_whole(state) {
            self.push_end(state)?;
        } else {
            self.push_rows(state)?;
        }
        Ok(())
    }

    /// The lists of the states.
    pub(crate) fn of_states(alloc: Global, states: &[Value]) -> Result<Lists, AllocError>
        requires { are_in_range Wide (map (λ v. state_form_of (view v)) states.now) ≡ true }
        ensures { IfOk result (AreListsOf (map (λ v. state_form_of (view v)) states.now)) }
    {
        let mut lists = Lists::new(alloc);
        for state in states {
            lists.push_state(state)?;
        }
        Ok(lists)
    }
}
