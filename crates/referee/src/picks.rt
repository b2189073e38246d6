//! What words pick.

ghost use Rattle.std.specs.Prelude.{◌≡◌, ◌<◌, ◌≤◌, ℕ, List, length, slice_index, sum, map};
ghost use Rattle.std.specs.List.Sorted.{IsStrictlyIncreasing};
ghost use Rattle.sums.specs.declared.TheConstants.{MOST_MOVES};
ghost use Rattle.sim_game.specs.Model.{Reachable, Turn, IsTurn};
ghost use Rattle.plan_book.specs.Sheets.{plan_of};
ghost use Rattle.referee.specs.Picks.{pick};
ghost use Rattle.referee.specs.Transcripts.{IsPlayable, as_turn, draw_by, move_by, keyed_turn, turn_by};

use crate::PlayedTurn;
use plan_book::{Sheet, weights_of};
use sim_game::{CHANCE, Game, Side};

/// The number that a word picks by weights of this total.
fn pick(weights: &[u32], total: u32, word: u64) -> u32
    requires some { 1 ≤ total }
    requires sums { sum weights.now ≡ total }
    requires few { length weights.now ≤ MOST_MOVES }
    ensures { result ≡ pick (length weights.now) (slice_index weights.now) word }
{
    let mut left = word % u64::from(total);
    for (i, weight) in weights.iter().enumerate() {
        let weight = u64::from(*weight);
        if left < weight {
            return i as u32;
        }
        left -= weight;
    }
    unreachable!()
}

/// The draw that a word picks after both moves.
fn draw_by<G: Game>(g: G, s: G::State, a: u32, b: u32, word: u64) -> u32
    requires reachable { Reachable (G.model g) s }
    requires one { a < (G.model g).moves Side.One s }
    requires two { b < (G.model g).moves Side.Two s }
    ensures is { result ≡ draw_by (G.model g) s a b word }
    ensures below { result < (G.model g).draws s a b }
{
    let mut left = word % u64::from(CHANCE);
    for d in 0..g.draws(s, a, b) {
        let chance = u64::from(g.chance(s, a, b, d));
        if left < chance {
            return d;
        }
        left -= chance;
    }
    unreachable!()
}

/// The move that a sheet plays at a state, by a word.
fn move_by<G: Game>(g: G, sheet: &Sheet, s: G::State, word: u64) -> u32
    requires some { 1 ≤ sheet.now.total }
    requires rising { IsStrictlyIncreasing (map (λ r. r.key) sheet.now.rows) }
    requires reachable { Reachable (G.model g) s }
    requires goes_on { 1 ≤ (G.model g).rank s }
    ensures is { (history : List Turn)
        → result ≡ move_by (G.model g) sheet.now.side (plan_of sheet.now) s history word }
    ensures below { result < (G.model g).moves sheet.now.side s }
{
    match weights_of(g, sheet, s) {
        Some(weights) => pick(weights, sheet.total, word),
        None => 0,
    }
}

/// The turn that two sheets play at a state, by three words.
pub(crate) fn turn_by<G: Game>(
    g: G,
    one: &Sheet,
    two: &Sheet,
    s: G::State,
    words: &[u64],
) -> PlayedTurn
    requires one { IsPlayable Side.One one.now }
    requires two { IsPlayable Side.Two two.now }
    requires words { 3 ≤ length words.now }
    requires reachable { Reachable (G.model g) s }
    requires goes_on { 1 ≤ (G.model g).rank s }
    ensures is { (history : List Turn) → result ≡ keyed_turn (G.model g) s
        (turn_by (G.model g) (plan_of one.now) (plan_of two.now) s history
        (slice_index words.now 0) (slice_index words.now 1) (slice_index words.now 2)) }
    ensures turn { IsTurn (G.model g) s (as_turn result) }
{
    let a = move_by(g, one, s, words[0]);
    let b = move_by(g, two, s, words[1]);
    let draw = draw_by(g, s, a, b, words[2]);
    PlayedTurn {
        key: g.key(s),
        one: a,
        two: b,
        draw,
    }
}
