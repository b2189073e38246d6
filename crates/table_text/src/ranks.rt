//! The ranks of states, from the last to the first.

ghost use Rattle.std.specs.Prelude.{◌≡◌, ℤ, pos, ◌+◌, ◌≤◌, map, length, max, slice_index_or, IfOk};
ghost use Rattle.std.specs.List.{flat_map};
ghost use Rattle.serde_json.specs.View.{view};
ghost use Rattle.table.specs.declared.nested.TheConstants.{MOST_STATES};
ghost use Rattle.table.specs.Nested.{Draws, named_by, greatest_in, ranks_told};
ghost use Rattle.table_text.specs.States.{draw_form_of, cell_form_of, row_form_of, state_form_of, rank_in, rank_among};

use crate::kinds::{elements, is_whole, whole, whole_at};
use crate::lists::kept_rows;
use serde_json::Value;
use std::alloc::{AllocError, Global};

/// The rank at the number, and 0 where there is none.
fn rank_at(number: i64, ranks: &[i32]) -> u32
    ensures { result ≡ rank_in ranks.now number }
{
    if number < 0 {
        return 0;
    }
    let place = number as usize;
    if place < ranks.len() {
        ranks[place].unsigned_abs()
    } else {
        0
    }
}

/// The rank of the state that the draw names.
fn draw_rank(draw: &Value, ranks: &[i32]) -> u32
    ensures { result ≡ rank_in ranks.now (slice_index_or (draw_form_of (view draw.now)) 0 (pos 0)) }
{
    rank_at(whole_at(draw, 0), ranks)
}

/// The greatest rank of the states that the draws name.
fn draws_rank(draws: &[Value], ranks: &[i32]) -> u32
    ensures { result
        ≡ greatest_in (map (rank_in ranks.now) (named_by (Draws (map (λ v. draw_form_of (view v)) draws.now)))) }
{
    draws
        .iter()
        .fold(0, |rank, draw| rank.max(draw_rank(draw, ranks)))
}

fn cell_rank(cell: &Value, ranks: &[i32]) -> u32
    ensures { result ≡ greatest_in (map (rank_in ranks.now) (named_by (cell_form_of (view cell.now)))) }
{
    if is_whole(cell) {
        rank_at(whole(cell), ranks)
    } else {
        draws_rank(elements(cell), ranks)
    }
}

fn cells_rank(cells: &[Value], ranks: &[i32]) -> u32
    ensures { result
        ≡ greatest_in (map (rank_in ranks.now) (flat_map named_by (map (λ v. cell_form_of (view v)) cells.now))) }
{
    cells
        .iter()
        .fold(0, |rank, cell| rank.max(cell_rank(cell, ranks)))
}

fn row_rank(row: &Value, ranks: &[i32]) -> u32
    ensures { result ≡ greatest_in (map (rank_in ranks.now) (flat_map named_by (row_form_of (view row.now)))) }
{
    cells_rank(elements(row), ranks)
}

fn rows_rank(rows: &[Value], ranks: &[i32]) -> u32
    ensures { result
        ≡ greatest_in (map (rank_in ranks.now) (flat_map named_by (flat_map (λ v. row_form_of (view v)) rows.now))) }
{
    rows.iter()
        .fold(0, |rank, row| rank.max(row_rank(row, ranks)))
}

/// The rank of a state, given those of the states behind it, with 0 for each state up to it.
fn rank(state: &Value, ranks: &[i32]) -> u32
    requires { (z : ℤ) → rank_in ranks.now z ≤ MOST_STATES }
    ensures exact { result ≡ rank_among ranks.now (state_form_of (view state.now)) }
    ensures low { result ≤ MOST_STATES + 1 }
{
    if is_whole(state) {
        0
    } else {
        rows_rank(kept_rows(state), ranks) + 1
    }
}

fn zeros(alloc: Global, states: &[Value]) -> Result<Vec<i32>, AllocError>
    ensures { IfOk result (λ v. v.items ≡ map (λ _. pos 0) states.now) }
{
    states.iter().map(|_| 0).collect(alloc)
}

/// The ranks of the states.
pub(crate) fn ranks(alloc: Global, states: &[Value]) -> Result<Vec<i32>, AllocError>
    requires { length states.now ≤ MOST_STATES }
    ensures { IfOk result (λ v. v.items ≡ map pos (ranks_told 0 (map (λ v. state_form_of (view v)) states.now))) }
{
    let mut ranks = zeros(alloc, states)?;
    let mut left = states.len();
    while left > 0 {
        left -= 1;
        let rank = rank(&states[left], ranks.as_slice());
        ranks[left] = rank as i32;
    }
    Ok(ranks)
}
