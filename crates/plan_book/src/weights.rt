//! The weights that a sheet plays.

ghost use Rattle.std.specs.Prelude.{◌≡◌, ◌≤◌, List, length, map, sum, IfSome, MatchBool, MatchOption};
ghost use Rattle.std.specs.List.Sorted.{IsStrictlyIncreasing};
ghost use Rattle.sim_game.specs.Model.{Reachable, Turn};
ghost use Rattle.plan_book.specs.Plans.{AreWeights, one_move, weights_at};
ghost use Rattle.plan_book.specs.Sheets.{plan_of};

use crate::{Sheet, place_of};
use sim_game::Game;

/// Whether there is one weight for each of so many moves, and they sum to the total.
pub fn is_whole(weights: &[u32], count: u32, total: u32) -> bool
    ensures { MatchBool result (AreWeights count total weights.now) (¬ AreWeights count total weights.now) }
{
    weights.len() == count as usize && total_of(weights) == u64::from(total)
}

/// The sum of the weights.
fn total_of(weights: &[u32]) -> u64
    requires { length weights.now ≤ 4294967295 }
    ensures { result ≡ sum weights.now }
{
    let mut sum: u64 = 0;
    for weight in weights {
        sum += u64::from(*weight);
    }
    sum
}

/// The weights that the sheet's plan plays at a state, whatever has been played before: those of the row of its key,
/// where they are one a move and sum to the total; `None` where all of the total is on the first move.
pub fn weights_of<G: Game>(g: G, sheet: &Sheet, s: G::State) -> Option<&[u32]>
    requires rising { IsStrictlyIncreasing (map (λ r. r.key) sheet.now.rows) }
    requires reachable { Reachable (G.model g) s }
    ensures plays { let m = G.model g in
        (history : List Turn) → MatchOption result
        (weights_at m sheet.now.side (plan_of sheet.now) s history
        ≡ one_move sheet.now.total (m.moves sheet.now.side s) 0)
        (λ weights. weights_at m sheet.now.side (plan_of sheet.now) s history ≡ weights.now) }
    ensures whole { IfSome result (λ weights.
        AreWeights ((G.model g).moves sheet.now.side s) sheet.now.total weights.now) }
{
    let rows = sheet.rows.as_slice();
    match place_of(rows, g.key(s)) {
        Some(place) => {
            let weights = rows[place].weights.as_slice();
            if is_whole(weights, g.moves(sheet.side, s), sheet.total) {
                Some(weights)
            } else {
                None
            }
        }
        None => None,
    }
}
