//! What the weights of a row are worth over the bounds of its sheet.

ghost use Rattle.std.specs.Prelude.{◌≡◌, ◌<◌, ◌≤◌, length, All, pos, ◌+ℤ◌, ◌*ℤ◌, unsigned_abs};
ghost use Rattle.sums.specs.declared.TheConstants.{MOST_WEIGHT, MOST_BOUND, MOST_REWARD};
ghost use Rattle.sim_game.specs.Model.{Reachable};
ghost use Rattle.sim_game.specs.Sides.{other_side};
ghost use Rattle.checker.specs.Faults.{IsReadable, cell_of, worth_of};

use crate::places::{NUMBERS, Recent, bound_near};
use plan_book::Sheet;
use sim_game::{CHANCE, Game, turn_reward};

/// A number of a turn with a weight.
fn weighted(weight: u32, number: i64) -> i64
    requires light { weight ≤ MOST_WEIGHT }
    requires small { unsigned_abs number ≤ 12000000000 }
    ensures value { result ≡ pos weight *ℤ number }
    ensures small { unsigned_abs result ≤ 12582912000000000 }
{
    i64::from(weight) * number
}

/// A turn's reward, with a bound at the state that follows.
fn with_reward(reward: i64, bound: i64) -> i64
    requires reward { unsigned_abs reward ≤ MOST_REWARD }
    requires bound { unsigned_abs bound ≤ MOST_BOUND }
    ensures { result ≡ reward +ℤ bound }
{
    reward + bound
}

/// What the weights are worth against a reply.
pub(crate) fn worth<G: Game>(
    g: G,
    sheet: &Sheet,
    weights: &[u32],
    s: G::State,
    reply: u32,
    recent: &mut Recent,
) -> i64
    requires readable { IsReadable sheet.now }
    requires reachable { Reachable (G.model g) s }
    requires one_each { length weights.now ≡ (G.model g).moves sheet.now.side s }
    requires light { All (λ w. w ≤ MOST_WEIGHT) weights.now }
    requires reply { reply < (G.model g).moves (other_side sheet.now.side) s }
    ensures value { result ≡ worth_of (G.model g) sheet.now weights.now s reply }
    ensures small { unsigned_abs result ≤ 805306368000000000 }
{
    let mut sum: i64 = 0;
    for own in 0..g.moves(sheet.side, s) {
        sum += weighted(weights[own as usize], cell(g, sheet, s, own, reply, recent));
    }
    sum
}

/// The mean, over the draws of an own move and a reply, of the turn's reward with the bound at the state that follows.
fn cell<G: Game>(g: G, sheet: &Sheet, s: G::State, own: u32, reply: u32, recent: &mut Recent) -> i64
    requires readable { IsReadable sheet.now }
    requires reachable { Reachable (G.model g) s }
    requires own { own < (G.model g).moves sheet.now.side s }
    requires reply { reply < (G.model g).moves (other_side sheet.now.side) s }
    ensures value { result ≡ cell_of (G.model g) sheet.now s own reply }
    ensures small { unsigned_abs result ≤ 12000000000 }
{
    let side = sheet.side;
    let a = side.move_of_one(own, reply);
    let b = side.move_of_two(own, reply);
    // Most sides have at most 32 moves; the numbers of more share places.
    let number = own.wrapping_mul(32).wrapping_add(reply) as usize % NUMBERS;
    let mut sum: i64 = 0;
    for d in 0..g.draws(s, a, b) {
        let bound = bound_near(g, sheet, g.drawn(s, a, b, d), &mut recent[number]);
        let paid = with_reward(turn_reward(g, s, a, b, d), bound);
        sum += weighted(g.chance(s, a, b, d), paid);
    }
    side.quotient(sum, CHANCE)
}
