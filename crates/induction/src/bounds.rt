//! The best bound that weights prove at a state over rows of the states that follow.

ghost use Rattle.std.specs.Prelude.{◌≡◌, ◌<◌, ◌≤◌, pos, ◌+ℤ◌, length, unsigned_abs, All};
ghost use Rattle.sums.specs.declared.TheConstants.{MOST_WEIGHT, MOST_BOUND, MOST_REWARD};
ghost use Rattle.sim_game.specs.Model.{Reachable};
ghost use Rattle.sim_game.specs.Sides.{other_side};
ghost use Rattle.plan_book.specs.Plans.{AreWeights};
ghost use Rattle.plan_book.specs.Sheets.{bound_at};
ghost use Rattle.plan_book.specs.Steps.{cell, worth};
ghost use Rattle.induction.specs.Places.{place_word};
ghost use Rattle.induction.specs.Certified.{ArePlaced, IsBestStep, turn_numbers};

use crate::places::PlaceTable;
use plan_book::SheetRow;
use sim_game::{CHANCE, Game, Side, end_bound, state_bound, turn_reward};
use sums::weighted;

/// A turn's reward, with a bound at the state that follows.
fn with_reward(reward: i64, bound: i64) -> i64
    requires reward { unsigned_abs reward ≤ MOST_REWARD }
    requires bound { unsigned_abs bound ≤ MOST_BOUND }
    ensures { result ≡ reward +ℤ bound }
{
    reward + bound
}

// Greater than any bound, in millionths.
const SHIFT: i64 = 8_000_000_000;

/// A bound as a word, which is not 0.
pub(crate) fn word_of(bound: i64) -> u64
    requires { unsigned_abs bound ≤ MOST_BOUND }
    ensures some { 1 ≤ result }
    ensures is { pos result ≡ bound +ℤ pos 8000000000 }
{
    (bound + SHIFT) as u64
}

/// The bound that a word holds.
fn bound_in(word: u64) -> i64
    requires { word ≤ 12000000000 }
    ensures { result +ℤ pos 8000000000 ≡ pos word }
{
    word as i64 - SHIFT
}

/// The bound of the state's row, else the payoff of an end, else what holds of every value of the state; in millionths.
fn bound_by<G: Game>(g: G, side: Side, _rows: &[SheetRow], bounds: &PlaceTable, s: G::State) -> i64
    requires placed { ArePlaced (G.model g) (G.numbering g).place _rows.now (place_word bounds.now) }
    requires reachable { Reachable (G.model g) s }
    ensures { result ≡ bound_at (G.model g) side _rows.now s }
{
    let word = bounds.word(g.place(s));
    if word != 0 {
        return bound_in(word);
    }
    if g.rank(s) == 0 {
        end_bound(g, s)
    } else {
        state_bound(g, side, s)
    }
}

/// The mean, over the draws of an own move and a reply, of the turn's reward with the bound at the state that follows.
fn cell<G: Game>(
    g: G,
    side: Side,
    rows: &[SheetRow],
    bounds: &PlaceTable,
    s: G::State,
    own: u32,
    reply: u32,
) -> i64
    requires placed { ArePlaced (G.model g) (G.numbering g).place rows.now (place_word bounds.now) }
    requires reachable { Reachable (G.model g) s }
    requires own { own < (G.model g).moves side s }
    requires reply { reply < (G.model g).moves (other_side side) s }
    ensures value { result ≡ cell (G.model g) side s (turn_numbers (G.model g) side rows.now s) own reply }
    ensures small { unsigned_abs result ≤ MOST_BOUND }
{
    let a = side.move_of_one(own, reply);
    let b = side.move_of_two(own, reply);
    let mut sum: i64 = 0;
    for d in 0..g.draws(s, a, b) {
        let bound = bound_by(g, side, rows, bounds, g.drawn(s, a, b, d));
        let number = with_reward(turn_reward(g, s, a, b, d), bound);
        sum += weighted(g.chance(s, a, b, d), number);
    }
    side.quotient(sum, CHANCE)
}

/// What the weights are worth against a reply. Moves of weight 0 are not read.
fn worth<G: Game>(
    g: G,
    side: Side,
    rows: &[SheetRow],
    bounds: &PlaceTable,
    weights: &[u32],
    s: G::State,
    reply: u32,
) -> i64
    requires placed { ArePlaced (G.model g) (G.numbering g).place rows.now (place_word bounds.now) }
    requires reachable { Reachable (G.model g) s }
    requires one_each { length weights.now ≡ (G.model g).moves side s }
    requires light { All (λ w. w ≤ MOST_WEIGHT) weights.now }
    requires reply { reply < (G.model g).moves (other_side side) s }
    ensures value { result ≡ worth (G.model g) side s weights.now (turn_numbers (G.model g) side rows.now s) reply }
    ensures small { unsigned_abs result ≤ 268435456000000000 }
{
    let mut sum: i64 = 0;
    for own in 0..g.moves(side, s) {
        let weight = weights[own as usize];
        if weight > 0 {
            sum += weighted(weight, cell(g, side, rows, bounds, s, own, reply));
        }
    }
    sum
}

/// The best bound that the weights prove at a state: their least worth against a reply, divided by the total and rounded
/// so that it says no more for the side.
pub(crate) fn best_bound<G: Game>(
    g: G,
    side: Side,
    total: u32,
    rows: &[SheetRow],
    bounds: &PlaceTable,
    weights: &[u32],
    s: G::State,
) -> i64
    requires placed { ArePlaced (G.model g) (G.numbering g).place rows.now (place_word bounds.now) }
    requires reachable { Reachable (G.model g) s }
    requires goes_on { 1 ≤ (G.model g).rank s }
    requires some { 1 ≤ total }
    requires light { total ≤ MOST_WEIGHT }
    requires whole { AreWeights ((G.model g).moves side s) total weights.now }
    ensures { IsBestStep (G.model g) side s total weights.now rows.now result }
{
    let mut least = worth(g, side, rows, bounds, weights, s, 0);
    for reply in 1..g.moves(side.other(), s) {
        let sum = worth(g, side, rows, bounds, weights, s, reply);
        if side.is_tighter(least, sum) {
            least = sum;
        }
    }
    side.quotient(least, total)
}
