//! The places of rows by their keys.

ghost use Rattle.std.specs.Prelude.{◌≡◌, ◌<◌, ◌≤◌, length, map, MatchOption, slice_get, None, IfSome};
ghost use Rattle.std.specs.List.Sorted.{IsStrictlyIncreasing};
ghost use Rattle.sim_game.specs.Model.{Reachable};
ghost use Rattle.plan_book.specs.Sheets.{row_at, bound_at};

use plan_book::{Sheet, SheetRow};
use sim_game::{Game, end_bound, state_bound};

/// How many places `Recent` has.
pub(crate) const NUMBERS: usize = 1024;

/// Where the rows of children were found last: one place for all children whose numbers among those of their states,
/// or whose pairs of moves, are equal modulo `NUMBERS`. Rows that follow each other mostly have children that do, so
/// that a search from there takes a few steps.
pub(crate) type Recent = [usize; NUMBERS];

/// The bound of the state's row, else the payoff of an end, else what holds of every value of the state; in
/// millionths.
pub(crate) fn bound_near<G: Game>(g: G, sheet: &Sheet, s: G::State, recent: &mut usize) -> i64
    requires rising { IsStrictlyIncreasing (map (λ r. r.key) sheet.now.rows) }
    requires reachable { Reachable (G.model g) s }
    ensures { result ≡ bound_at (G.model g) sheet.now.side sheet.now.rows s }
{
    let rows = sheet.rows.as_slice();
    match find(rows, g.key(s), recent) {
        Some(place) => rows[place].bound,
        None if g.rank(s) == 0 => end_bound(g, s),
        None => state_bound(g, sheet.side, s),
    }
}

/// The place of the row of the key, sought from where one was found last: in steps that double, then by halves.
pub(crate) fn find(rows: &[SheetRow], key: u64, recent: &mut usize) -> Option<usize>
    requires rising { IsStrictlyIncreasing (map (λ r. r.key) rows.now) }
    ensures found { MatchOption result (row_at rows.now key ≡ None) (λ i. row_at rows.now key ≡ slice_get rows.now i) }
    ensures within { IfSome result (λ i. i < length rows.now) }
{
    let mut low = 0;
    let mut high = rows.len();
    let mut guess = *recent;
    let mut step: usize = 1;
    while low < high {
        let middle = between(low, high, guess);
        let here = rows[middle].key;
        if here < key {
            low = middle + 1;
            guess = middle.wrapping_add(step);
        } else if key < here {
            high = middle;
            guess = middle.wrapping_sub(step);
        } else {
            *recent = middle;
            return Some(middle);
        }
        step = step.wrapping_mul(2);
    }
    None
}

/// The guess where it is in the range, else the middle.
fn between(low: usize, high: usize, guess: usize) -> usize
    requires { low < high }
    ensures low { low ≤ result }
    ensures high { result < high }
{
    if low <= guess && guess < high {
        guess
    } else {
        low + (high - low) / 2
    }
}
