//! The bound that a sheet has at a state.

ghost use Rattle.std.specs.Prelude.{◌≡◌, ◌<◌, length, map, MatchOption, slice_get, None, IfSome};
ghost use Rattle.std.specs.List.Sorted.{IsStrictlyIncreasing};
ghost use Rattle.sim_game.specs.Model.{Reachable};
ghost use Rattle.plan_book.specs.Sheets.{row_at, bound_at};

use crate::{Sheet, SheetRow};
use sim_game::{Game, end_bound, state_bound};

/// The bound of the state's row, else the payoff of an end, else what holds of every value of the state; in
/// millionths.
pub fn bound_of<G: Game>(g: G, sheet: &Sheet, s: G::State) -> i64
    requires rising { IsStrictlyIncreasing (map (λ r. r.key) sheet.now.rows) }
    requires reachable { Reachable (G.model g) s }
    ensures { result ≡ bound_at (G.model g) sheet.now.side sheet.now.rows s }
{
    let rows = sheet.rows.as_slice();
    match place_of(rows, g.key(s)) {
        Some(place) => rows[place].bound,
        None => {
            if g.rank(s) == 0 {
                end_bound(g, s)
            } else {
                state_bound(g, sheet.side, s)
            }
        }
    }
}

/// The place of the row of the key.
pub fn place_of(rows: &[SheetRow], key: u64) -> Option<usize>
    requires rising { IsStrictlyIncreasing (map (λ r. r.key) rows.now) }
    ensures found { MatchOption result (row_at rows.now key ≡ None) (λ i. row_at rows.now key ≡ slice_get rows.now i) }
    ensures within { IfSome result (λ i. i < length rows.now) }
{
    let mut low = 0;
    let mut high = rows.len();
    while low < high {
        let middle = low + (high - low) / 2;
        let here = rows[middle].key;
        if here < key {
            low = middle + 1;
        } else if key < here {
            high = middle;
        } else {
            return Some(middle);
        }
    }
    None
}
