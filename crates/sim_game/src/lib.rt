//! Finite two-player zero-sum games in which both players move at once.
#![tactic(auto)]

ghost use Rattle.std.specs.Prelude.{◌≡◌, ℕ, ◌<◌, ◌≤◌, pos, ◌≤ℤ◌};
ghost use Rattle.sums.specs.declared.TheConstants.{MOST_MOVES, LEAST_WEIGHT, MOST_WEIGHT};
ghost use Rattle.sim_game.specs.Model.{GameModel, HasAtMost, IsGame, IsEnd, Reachable};
ghost use Rattle.sim_game.specs.Numbers.{Numbering, IsNumbering};
ghost use Rattle.sim_game.specs.Resolution.{IsLeastGap, IsResolution};

mod sides;

pub use sides::{end_bound, opening_bound, state_bound, turn_reward};
use std::alloc::{AllocError, AllocFailed};

/// What follows a pair of moves and a draw: the place of the next state, what One gets by the turn, and the weight of the
/// draw.
#[derive(Clone, Copy, PartialEq, Eq, Debug)]
pub struct Transition {
    pub place: u64,
    pub reward: i32,
    pub chance: u32,
}

/// How many parts a payoff of 1 has in a bound.
pub const SCALE: i64 = 1000000;

/// The most turns of a history: a rank fits six bits.
pub const MOST_TURNS: u32 = 63;

/// The most rows of a board, and of a sheet.
pub const MOST_ROWS: u32 = 16_777_216;

/// What the weights of the draws of one pair of moves sum to.
pub const CHANCE: u32 = 360360;

/// What a position may hold. The wide limits are those of positions with linear stages, and of reports from version 3
/// on; the narrow ones those of all others.
#[derive(Clone, Copy, PartialEq, Eq, Debug)]
pub enum Limits {
    Narrow,
    Wide,
}

/// There was no memory.
#[derive(Clone, Copy, PartialEq, Eq, Debug)]
pub struct NoMemory;

impl From<AllocError> for NoMemory {
    fn from(_e: AllocError) -> NoMemory {
        NoMemory
    }
}

impl<T: Drop> From<AllocFailed<T>> for NoMemory {
    fn from(_e: AllocFailed<T>) -> NoMemory {
        NoMemory
    }
}

/// A player.
#[derive(Clone, Copy, PartialEq, Eq, Debug)]
pub enum Side {
    One,
    Two,
}

/// A game: a root, and what follows each pair of moves and each draw. A state is the root or what `drawn` makes
/// of one; no call refuses, and none takes memory.
pub trait Game: Copy {
    type State: Copy + Eq;

    /// The game that the calls speak of.
    ghost model: { Self → GameModel Self.State };

    /// The places of the states.
    ghost numbering: { Self → Numbering Self.State };

    /// The position itself.
    fn root(&self) -> Self::State
        ensures { result ≡ (model self.now).root };

    /// How many moves a side has, numbered from 0: none at an end, else 1 to `width`.
    fn moves(&self, side: Side, s: Self::State) -> u32
        requires { Reachable (model self.now) s }
        ensures { result ≡ (model self.now).moves side s };

    /// The state after both moves, and the first draw where there are several.
    fn next(&self, s: Self::State, a: u32, b: u32) -> Self::State
        requires reachable { Reachable (model self.now) s }
        requires one { a < (model self.now).moves Side.One s }
        requires two { b < (model self.now).moves Side.Two s }
        ensures { result ≡ (model self.now).drawn s a b 0 };

    /// What One gets at an end, from `least` to `most`; Two gets its negative.
    fn payoff(&self, s: Self::State) -> i32
        requires reachable { Reachable (model self.now) s }
        requires end { IsEnd (model self.now) s }
        ensures { result ≡ (model self.now).payoff s };

    /// What One gets by a turn, besides what follows it; Two gets its negative.
    fn reward(&self, s: Self::State, a: u32, b: u32, d: u32) -> i32
        requires reachable { Reachable (model self.now) s }
        requires one { a < (model self.now).moves Side.One s }
        requires two { b < (model self.now).moves Side.Two s }
        requires draw { d < (model self.now).draws s a b }
        ensures { result ≡ (model self.now).reward s a b d };

    /// The least sum that One can still get from a state on, at least `low`. It is no more than a turn's reward and the
    /// least sum after the turn.
    fn least(&self, s: Self::State) -> i32
        requires { Reachable (model self.now) s }
        ensures { result ≡ (model self.now).least s };

    /// The greatest sum that One can still get from a state on, at most `high`. It is no less than a turn's reward and
    /// the greatest sum after the turn.
    fn most(&self, s: Self::State) -> i32
        requires { Reachable (model self.now) s }
        ensures { result ≡ (model self.now).most s };

    /// The rank, 0 to `MOST_TURNS`: 0 exactly at an end, and lower after each turn.
    fn rank(&self, s: Self::State) -> u32
        requires { Reachable (model self.now) s }
        ensures { result ≡ (model self.now).rank s };

    /// The key, below 2^63. No two states of the game have one key.
    fn key(&self, s: Self::State) -> u64
        requires { Reachable (model self.now) s }
        ensures { result ≡ (model self.now).key s };

    /// How many places there are, 2^63 where a game does not count its states. The states, ends included, are no more;
    /// a board of more rows is never full.
    fn most_states(&self) -> u64
        ensures { result ≡ (numbering self.now).most };

    /// The place of a state, below `most_states`. No two states of the game have one place.
    fn place(&self, s: Self::State) -> u64
        requires { Reachable (model self.now) s }
        ensures { result ≡ (numbering self.now).place s };

    /// The least sum from any state on, at least -4000.
    fn low(&self) -> i32
        ensures { result ≡ (model self.now).low };

    /// The greatest sum from any state on, at most 4000.
    fn high(&self) -> i32
        ensures { result ≡ (model self.now).high };

    /// An upper limit on the moves of a side, 1 to `MOST_MOVES`.
    fn width(&self) -> u32
        ensures { result ≡ (model self.now).width };

    /// The card, bid or direction of a move.
    fn label(&self, side: Side, s: Self::State, i: u32) -> u8
        requires reachable { Reachable (model self.now) s }
        requires place { i < (model self.now).moves side s }
        ensures { result ≡ (model self.now).label side s i };

    /// Whether no pair of moves has more than one draw.
    fn chance_free(&self) -> bool
        ensures { result ≡ (model self.now).chance_free };

    /// The number of draws after a pair of moves, 1 to 13.
    fn draws(&self, s: Self::State, a: u32, b: u32) -> u32
        requires reachable { Reachable (model self.now) s }
        requires one { a < (model self.now).moves Side.One s }
        requires two { b < (model self.now).moves Side.Two s }
        ensures { result ≡ (model self.now).draws s a b };

    /// The weight of a draw, at least 1. The weights after one pair of moves sum to `CHANCE`.
    fn chance(&self, s: Self::State, a: u32, b: u32, d: u32) -> u32
        requires reachable { Reachable (model self.now) s }
        requires one { a < (model self.now).moves Side.One s }
        requires two { b < (model self.now).moves Side.Two s }
        requires draw { d < (model self.now).draws s a b }
        ensures { result ≡ (model self.now).chance s a b d };

    /// The state after both moves and a draw.
    fn drawn(&self, s: Self::State, a: u32, b: u32, d: u32) -> Self::State
        requires reachable { Reachable (model self.now) s }
        requires one { a < (model self.now).moves Side.One s }
        requires two { b < (model self.now).moves Side.Two s }
        requires draw { d < (model self.now).draws s a b }
        ensures { result ≡ (model self.now).drawn s a b d };

    /// Adds the transitions of a state: those of One's first move first, in the order of Two's moves, then of the draws. A
    /// game may have a faster way of its own. Proposals alone read them: nothing is promised of them, and no bound rests on
    /// them.
    fn add_transitions(
        &self,
        s: Self::State,
        transitions: &mut Vec<Transition>,
    ) -> Result<(), AllocError>
        requires { Reachable (model self.now) s }
    {
        for a in 0..self.moves(Side::One, s) {
            for b in 0..self.moves(Side::Two, s) {
                for d in 0..self.draws(s, a, b) {
                    transitions.push(Transition {
                        place: self.place(self.drawn(s, a, b, d)),
                        reward: self.reward(s, a, b, d),
                        chance: self.chance(s, a, b, d),
                    })?;
                }
            }
        }
        Ok(())
    }

    /// The place of the state in which the sides are exchanged, if the position is its own mirror image: what One gets from
    /// there on, Two gets from here on. Proposals alone read it: nothing is promised of it, and no bound rests on it.
    fn mirrored_place(&self, _s: Self::State) -> Option<u64>
        requires { Reachable (model self.now) _s }
    {
        None
    }

    /// The first of a side's moves at which a list of all states has to look for further ones: what follows the moves before
    /// it follows other states too. Lists of states alone read it: nothing is promised of it, and no bound rests on it.
    fn first_listed(&self, _side: Side, _s: Self::State) -> u32
        requires { Reachable (model self.now) _s }
    {
        0
    }

    ghost lawful: { (g : Self) → IsGame (model g) };

    ghost numbered: { (g : Self) → IsNumbering (model g) (numbering g) };
}

/// The gap, in millionths of a payoff, that a search with stages of this weight reaches at the root.
pub fn resolution<G: Game>(g: G, weight: u32) -> i64
    requires low { LEAST_WEIGHT ≤ weight }
    requires high { weight ≤ MOST_WEIGHT }
    ensures is { (n : ℕ) × (result ≡ pos n) × IsResolution (G.model g) weight n }
    ensures most { result ≤ℤ pos 99999999999 }
{
    let gap = least_gap(g.width(), (g.high() - g.low()).unsigned_abs(), weight);
    let rounding: u64 = if g.chance_free() { 1 } else { 2 };
    let rank = g.rank(g.root());
    (rank as u64 * (gap as u64 + rounding)) as i64
}

/// The least gap for which the stage law holds at this width and range of payoffs, by bisection.
fn least_gap(width: u32, range: u32, weight: u32) -> u32
    requires width { width ≤ MOST_MOVES }
    requires range { range ≤ 8000 }
    requires low { LEAST_WEIGHT ≤ weight }
    requires high { weight ≤ MOST_WEIGHT }
    ensures least { IsLeastGap width range weight result }
    ensures small { result ≤ 1073741824 }
{
    let span = range as u128 * SCALE as u128;
    let need = 2 * width as u128 * span * span;
    let mut low: u32 = 0;
    let mut high: u32 = 1073741824;
    while low < high {
        let mid = low + (high - low) / 2;
        if weight as u128 * mid as u128 * mid as u128 >= need {
            high = mid;
        } else {
            low = mid + 1;
        }
    }
    low
}

/// A game keeps its laws, and has no more states than places.
pub fn keeps_laws<G: Game>(_g: &G)
    ensures game { IsGame (G.model _g.now) }
    ensures numbered { IsNumbering (G.model _g.now) (G.numbering _g.now) }
    ensures states { HasAtMost (G.model _g.now) (G.numbering _g.now).most }
{}
