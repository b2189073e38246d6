//! What differs between the two players.

ghost use Rattle.std.specs.Prelude.{◌≡◌, ◌<◌, ◌≤◌, ◌<ℤ◌, pos, neg_ℤ, MatchBool};
ghost use Rattle.sim_game.specs.Model.{Reachable, IsEnd};
ghost use Rattle.sim_game.specs.Sides.{IsNoTighter, IsTighter, better, quotient, other_side, opening_bound, state_bound, end_bound, turn_reward, move_of_one, move_of_two};

use crate::{Game, SCALE, Side};
use sums::{ceiling_quotient, floor_quotient};

impl Side {
    pub fn other(self) -> Side
        ensures { result ≡ other_side self }
    {
        match self {
            Side::One => Side::Two,
            Side::Two => Side::One,
        }
    }

    /// Whether a bound says more for the side than another: One's bounds are lower and Two's upper.
    pub fn is_tighter(self, bound: i64, other: i64) -> bool
        ensures { MatchBool result (IsTighter self bound other) (IsNoTighter self bound other) }
    {
        match self {
            Side::One => bound > other,
            Side::Two => bound < other,
        }
    }

    /// The better of two numbers for the side.
    pub fn better(self, x: i64, y: i64) -> i64
        ensures { result ≡ better self x y }
    {
        match self {
            Side::One => x.max(y),
            Side::Two => x.min(y),
        }
    }

    /// The quotient by a positive number, rounded so that it says no more for the side: down for One, up for Two.
    pub fn quotient(self, x: i64, divisor: u32) -> i64
        requires positive { 1 ≤ divisor }
        requires negatable { neg_ℤ (pos 9223372036854775808) <ℤ x }
        ensures { result ≡ quotient self divisor x }
    {
        match self {
            Side::One => floor_quotient(x, divisor),
            Side::Two => ceiling_quotient(x, divisor),
        }
    }

    /// The move of One, where the side makes its own move and the other side replies.
    pub fn move_of_one(self, own: u32, reply: u32) -> u32
        ensures { result ≡ move_of_one self own reply }
    {
        match self {
            Side::One => own,
            Side::Two => reply,
        }
    }

    /// The move of Two, where the side makes its own move and the other side replies.
    pub fn move_of_two(self, own: u32, reply: u32) -> u32
        ensures { result ≡ move_of_two self own reply }
    {
        match self {
            Side::One => reply,
            Side::Two => own,
        }
    }
}

/// The bound that holds of every state, in millionths: the least payoff for One, the greatest for Two.
pub fn opening_bound<G: Game>(g: G, side: Side) -> i64
    ensures { result ≡ opening_bound (G.model g) side }
{
    match side {
        Side::One => g.low() as i64 * SCALE,
        Side::Two => g.high() as i64 * SCALE,
    }
}

/// The bound that holds of every value of a state, in millionths: the least sum that One can still get for One, the
/// greatest for Two.
pub fn state_bound<G: Game>(g: G, side: Side, s: G::State) -> i64
    requires { Reachable (G.model g) s }
    ensures { result ≡ state_bound (G.model g) side s }
{
    match side {
        Side::One => g.least(s) as i64 * SCALE,
        Side::Two => g.most(s) as i64 * SCALE,
    }
}

/// What a turn pays One, in millionths.
pub fn turn_reward<G: Game>(g: G, s: G::State, a: u32, b: u32, d: u32) -> i64
    requires reachable { Reachable (G.model g) s }
    requires one { a < (G.model g).moves Side.One s }
    requires two { b < (G.model g).moves Side.Two s }
    requires draw { d < (G.model g).draws s a b }
    ensures { result ≡ turn_reward (G.model g) Side.One s a b d }
{
    g.reward(s, a, b, d) as i64 * SCALE
}

/// The payoff of an end as a bound, in millionths.
pub fn end_bound<G: Game>(g: G, s: G::State) -> i64
    requires reachable { Reachable (G.model g) s }
    requires end { IsEnd (G.model g) s }
    ensures { result ≡ end_bound (G.model g) s }
{
    g.payoff(s) as i64 * SCALE
}
