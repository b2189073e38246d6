//! The ranges of what stands in the states of a table.

ghost use Rattle.std.specs.Prelude.{◌≡◌, ◌&&◌, ◌==◌, ◌-◌, ◌^◌, pos, min, map, length, nat_le};
ghost use Rattle.std.specs.List.{list_all, flat_map};
ghost use Rattle.serde_json.specs.View.{view};
ghost use Rattle.sim_game.specs.declared.Limits.{Limits};
ghost use Rattle.table.specs.Nested.{most_state, names_state, is_reward, draw_in_range, cell_in_range, row_in_range, state_in_range, are_few, are_in_range, given_cells, draws_of_form, draw_count_of, is_within};
ghost use Rattle.table_text.specs.States.{draw_form_of, cell_form_of, row_form_of, state_form_of};

use crate::kinds::{draw_length, elements, is_whole, whole, whole_at};
use serde_json::Value;
use sim_game::Limits;
use table::MOST_STATES;

fn is_within(low: i64, high: i64, number: i64) -> bool
    ensures { result ≡ is_within low high number }
{
    low <= number && number <= high
}

/// The greatest number that can be told of a state, and the greatest weight.
fn most_state(limits: Limits) -> i64
    ensures { result ≡ pos (most_state limits) }
{
    match limits {
        Limits::Narrow => 1_048_575,
        Limits::Wide => 16_777_215,
    }
}

fn names_state(limits: Limits, number: i64) -> bool
    ensures { result ≡ names_state limits number }
{
    is_within(0, most_state(limits), number)
}

/// Whether it is a payoff of an end, or a reward, that can be told.
fn is_payoff(number: i64) -> bool
    ensures { result ≡ is_reward number }
{
    is_within(-1_000_000, 1_000_000, number)
}

fn has_draw_length(draw: &Value) -> bool
    ensures { let count = length (draw_form_of (view draw.now)) in result ≡ (nat_le 2 count && nat_le count 3) }
{
    2 <= draw_length(draw) && draw_length(draw) <= 3
}

fn are_draw_numbers(limits: Limits, state: i64, weight: i64, reward: i64) -> bool
    ensures { result ≡ (names_state limits state && names_state limits weight && is_reward reward) }
{
    names_state(limits, state) && names_state(limits, weight) && is_payoff(reward)
}

/// A draw has a state, a weight and, where it tells one, a reward.
fn draw_in_range(limits: Limits, draw: &Value) -> bool
    ensures { result ≡ draw_in_range limits (draw_form_of (view draw.now)) }
{
    has_draw_length(draw)
        && are_draw_numbers(
            limits,
            whole_at(draw, 0),
            whole_at(draw, 1),
            whole_at(draw, 2),
        )
}

fn all_draws(limits: Limits, values: &[Value]) -> bool
    ensures { result ≡ list_all (λ v. draw_in_range limits (draw_form_of (view v))) values.now }
{
    values.iter().all(|draw| draw_in_range(limits, draw))
}

fn are_draws(limits: Limits, values: &[Value]) -> bool
    ensures { result ≡ (nat_le (length values.now) 255
        && list_all (λ v. draw_in_range limits (draw_form_of (view v))) values.now) }
{
    values.len() <= 255 && all_draws(limits, values)
}

fn cell_in_range(limits: Limits, cell: &Value) -> bool
    ensures { result ≡ cell_in_range limits (cell_form_of (view cell.now)) }
{
    if is_whole(cell) {
        names_state(limits, whole(cell))
    } else {
        are_draws(limits, elements(cell))
    }
}

fn all_cells(limits: Limits, values: &[Value]) -> bool
    ensures { result ≡ list_all (λ v. cell_in_range limits (cell_form_of (view v))) values.now }
{
    values.iter().all(|cell| cell_in_range(limits, cell))
}

fn are_cells(limits: Limits, values: &[Value]) -> bool
    ensures { result ≡ (nat_le (length values.now) 255
        && list_all (λ v. cell_in_range limits (cell_form_of (view v))) values.now) }
{
    values.len() <= 255 && all_cells(limits, values)
}

fn row_in_range(limits: Limits, row: &Value) -> bool
    ensures { result ≡ row_in_range limits (row_form_of (view row.now)) }
{
    are_cells(limits, elements(row))
}

fn all_rows(limits: Limits, values: &[Value]) -> bool
    ensures { result ≡ list_all (λ v. row_in_range limits (row_form_of (view v))) values.now }
{
    values.iter().all(|row| row_in_range(limits, row))
}

fn are_rows(limits: Limits, values: &[Value]) -> bool
    ensures { result ≡ (nat_le (length values.now) 255
        && list_all (λ v. row_in_range limits (row_form_of (view v))) values.now) }
{
    values.len() <= 255 && all_rows(limits, values)
}

fn state_in_range(limits: Limits, state: &Value) -> bool
    ensures { result ≡ state_in_range limits (state_form_of (view state.now)) }
{
    if is_whole(state) {
        is_payoff(whole(state))
    } else {
        are_rows(limits, elements(state))
    }
}

fn all_states(limits: Limits, values: &[Value]) -> bool
    ensures { result ≡ list_all (λ v. state_in_range limits (state_form_of (view v))) values.now }
{
    values.iter().all(|state| state_in_range(limits, state))
}

/// How many draws the cell has.
fn draws_of_cell(cell: &Value) -> usize
    ensures { result ≡ length (draws_of_form (cell_form_of (view cell.now))) }
{
    if is_whole(cell) {
        0
    } else {
        elements(cell).len()
    }
}

// Counts stop at the last number of their type.
fn draws_of_cells(cells: &[Value]) -> usize
    ensures { result ≡ min (draw_count_of (map (λ v. cell_form_of (view v)) cells.now)) (2 ^ 64 - 1) }
{
    cells
        .iter()
        .fold(0, |count, cell| count.saturating_add(draws_of_cell(cell)))
}

fn draws_of_row(row: &Value) -> usize
    ensures { result ≡ min (draw_count_of (row_form_of (view row.now))) (2 ^ 64 - 1) }
{
    draws_of_cells(elements(row))
}

fn draws_of_rows(rows: &[Value]) -> usize
    ensures { result ≡ min (draw_count_of (flat_map (λ v. row_form_of (view v)) rows.now)) (2 ^ 64 - 1) }
{
    rows.iter()
        .fold(0, |count, row| count.saturating_add(draws_of_row(row)))
}

fn draws_of_state(state: &Value) -> usize
    ensures { result ≡ min (draw_count_of (given_cells (state_form_of (view state.now)))) (2 ^ 64 - 1) }
{
    draws_of_rows(elements(state))
}

fn draws_of_states(states: &[Value]) -> usize
    ensures { result ≡ min (draw_count_of (flat_map (λ v. given_cells (state_form_of (view v))) states.now))
        (2 ^ 64 - 1) }
{
    states.iter().fold(
        0,
        |count, state| count.saturating_add(draws_of_state(state)),
    )
}

fn cells_of_row(row: &Value) -> usize
    ensures { result ≡ length (row_form_of (view row.now)) }
{
    elements(row).len()
}

fn cells_of_rows(rows: &[Value]) -> usize
    ensures { result ≡ min (length (flat_map (λ v. row_form_of (view v)) rows.now)) (2 ^ 64 - 1) }
{
    rows.iter()
        .fold(0, |count, row| count.saturating_add(cells_of_row(row)))
}

fn cells_of_state(state: &Value) -> usize
    ensures { result ≡ min (length (given_cells (state_form_of (view state.now)))) (2 ^ 64 - 1) }
{
    cells_of_rows(elements(state))
}

fn cells_of_states(states: &[Value]) -> usize
    ensures { result ≡ min (length (flat_map (λ v. given_cells (state_form_of (view v))) states.now)) (2 ^ 64 - 1) }
{
    states.iter().fold(
        0,
        |count, state| count.saturating_add(cells_of_state(state)),
    )
}

fn are_few(states: &[Value]) -> bool
    ensures { let cells = flat_map (λ v. given_cells (state_form_of (view v))) states.now in
        result ≡ are_few (length states.now) (length cells) (draw_count_of cells) }
{
    let most = MOST_STATES as usize;
    states.len() <= most && cells_of_states(states) <= most && draws_of_states(states) < most
}

/// Whether all that the states tell is in range.
pub(crate) fn are_in_range(limits: Limits, states: &[Value]) -> bool
    ensures { result ≡ are_in_range limits (map (λ v. state_form_of (view v)) states.now) }
{
    all_states(limits, states) && are_few(states)
}
