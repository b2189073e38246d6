//! The kinds of what stands in the states of a table.

ghost use Rattle.std.specs.Prelude.{◌≡◌, pos, map, length, slice_index_or};
ghost use Rattle.std.specs.List.{list_all};
ghost use Rattle.serde_json.specs.View.{view};
ghost use Rattle.table_text.specs.Elements.{is_whole};
ghost use Rattle.table_text.specs.States.{elements_of, whole_of, draw_form_of, is_draw_kind, is_cell_kind, is_row_kind, is_state_kind, are_state_kinds};

use serde_json::Value;

/// The elements of a list, and none of what is no list.
pub(crate) fn elements(value: &Value) -> &[Value]
    ensures { map view result.now ≡ elements_of (view value.now) }
{
    match value.as_array() {
        Some(items) => items.as_slice(),
        None => &[],
    }
}

pub(crate) fn is_whole(value: &Value) -> bool
    ensures { result ≡ is_whole (view value.now) }
{
    value.as_i64().is_some()
}

/// The number, and 0 where it is no whole number.
pub(crate) fn whole(value: &Value) -> i64
    ensures { result ≡ whole_of (view value.now) }
{
    value.as_i64().unwrap_or(0)
}

/// The number at the place of a list, and 0 where there is none.
pub(crate) fn whole_at(value: &Value, place: usize) -> i64
    ensures { result ≡ slice_index_or (draw_form_of (view value.now)) place (pos 0) }
{
    let numbers = elements(value);
    if place < numbers.len() {
        whole(&numbers[place])
    } else {
        0
    }
}

/// How many numbers the draw has.
pub(crate) fn draw_length(draw: &Value) -> usize
    ensures { result ≡ length (draw_form_of (view draw.now)) }
{
    elements(draw).len()
}

fn all_whole(values: &[Value]) -> bool
    ensures { result ≡ list_all (λ v. is_whole (view v)) values.now }
{
    values.iter().all(is_whole)
}

fn is_draw_kind(value: &Value) -> bool
    ensures { result ≡ is_draw_kind (view value.now) }
{
    value.is_array() && all_whole(elements(value))
}

fn all_draws(values: &[Value]) -> bool
    ensures { result ≡ list_all (λ v. is_draw_kind (view v)) values.now }
{
    values.iter().all(is_draw_kind)
}

fn is_cell_kind(value: &Value) -> bool
    ensures { result ≡ is_cell_kind (view value.now) }
{
    if is_whole(value) {
        return true;
    }
    value.is_array() && all_draws(elements(value))
}

fn all_cells(values: &[Value]) -> bool
    ensures { result ≡ list_all (λ v. is_cell_kind (view v)) values.now }
{
    values.iter().all(is_cell_kind)
}

fn is_row_kind(value: &Value) -> bool
    ensures { result ≡ is_row_kind (view value.now) }
{
    value.is_array() && all_cells(elements(value))
}

fn all_rows(values: &[Value]) -> bool
    ensures { result ≡ list_all (λ v. is_row_kind (view v)) values.now }
{
    values.iter().all(is_row_kind)
}

fn is_state_kind(value: &Value) -> bool
    ensures { result ≡ is_state_kind (view value.now) }
{
    if is_whole(value) {
        return true;
    }
    value.is_array() && all_rows(elements(value))
}

fn all_states(values: &[Value]) -> bool
    ensures { result ≡ list_all (λ v. is_state_kind (view v)) values.now }
{
    values.iter().all(is_state_kind)
}

/// Whether all that stands in the field has the right kind.
pub(crate) fn are_state_kinds(value: &Value) -> bool
    ensures { result ≡ are_state_kinds (view value.now) }
{
    value.is_array() && all_states(elements(value))
}
