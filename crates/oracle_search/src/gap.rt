//! How far the bounds at a state are apart.

ghost use Rattle.std.specs.Prelude.{◌≡◌, ◌≤◌, ◌-ℤ◌, ◌≤ℤ◌, ℕ, pos, Some, IsTrue, MatchBool};
ghost use Rattle.sums.specs.declared.TheConstants.{LEAST_WEIGHT, MOST_WEIGHT};
ghost use Rattle.sim_game.specs.declared.Side.TheVariants.{One, Two};
ghost use Rattle.sim_game.specs.Model.{Reachable};
ghost use Rattle.sim_game.specs.Resolution.{IsStageGap};
ghost use Rattle.bounds_board.specs.Views.{IsLater, IsEnclosure, known_bound};
ghost use Rattle.restricted_game.specs.Nodes.{IsAtNode};
ghost use Rattle.oracle_search.specs.Finished.{IsWithin, IsBeyond, IsLeftBelow, left_gap};
ghost use Rattle.oracle_search.specs.Searches.{IsInner, IsStoppedAs, IsEarlyEnd};

use crate::ends::SearchEnd;
use crate::gate::Gate;
use crate::worker::Setup;
use bounds_board::{Bounds, Enclosure, Row, known_bounds};
use sim_game::{Game, SCALE, resolution};

/// How far the bounds at the state are apart, read anew.
pub(crate) fn gap_at<G: Game, B: Bounds<G>>(g: G, s: G::State, row: Row, board: &mut B) -> i64
    requires here { IsAtNode (G.model g) g (B.view board.old) s row }
    ensures later { IsLater (B.view board.old) (B.view board.new) }
    ensures entries { (B.view board.new).entries ≡ (B.view board.old).entries }
    ensures gap { result ≡
        known_bound (G.model g) (B.view board.new) Two s -ℤ known_bound (G.model g) (B.view board.new) One s }
    ensures enclosed { IsEnclosure (G.model g)
        (known_bound (G.model g) (B.view board.new) One s) (known_bound (G.model g) (B.view board.new) Two s) s }
{
    let enclosure = known_bounds(g, s, row, board);
    enclosure.upper - enclosure.lower
}

/// The same, told to the gate where the game begins at the state.
pub(crate) fn told_gap<G: Game, B: Bounds<G>, T: Gate>(
    setup: &Setup<'_, G, T>,
    s: G::State,
    row: Row,
    board: &mut B,
) -> i64
    requires here { IsAtNode (G.model setup.now.game) setup.now.game (B.view board.old) s row }
    ensures later { IsLater (B.view board.old) (B.view board.new) }
    ensures entries { (B.view board.new).entries ≡ (B.view board.old).entries }
    ensures gap { result ≡ known_bound (G.model setup.now.game) (B.view board.new) Two s
        -ℤ known_bound (G.model setup.now.game) (B.view board.new) One s }
{
    let enclosure = known_bounds(setup.game, s, row, board);
    tell_bounds(setup, s, enclosure);
    enclosure.upper - enclosure.lower
}

/// Tells the gate of bounds at a state, where the game begins there: no other state that it leads to has its rank.
fn tell_bounds<G: Game, T: Gate>(setup: &Setup<'_, G, T>, s: G::State, enclosure: Enclosure)
    requires reachable { Reachable (G.model setup.now.game) s }
{
    let g = setup.game;
    if g.rank(s) == g.rank(g.root()) {
        setup
            .gate
            .at_bounds(setup.worker, enclosure.lower, enclosure.upper);
    }
}

/// Whether the bounds at the state are at most so far apart, read anew, and told to the gate where the game begins
/// there.
pub(crate) fn is_within_told<G: Game, B: Bounds<G>, T: Gate>(
    setup: &Setup<'_, G, T>,
    s: G::State,
    row: Row,
    target: i64,
    board: &mut B,
) -> bool
    requires here { IsAtNode (G.model setup.now.game) setup.now.game (B.view board.old) s row }
    ensures later { IsLater (B.view board.old) (B.view board.new) }
    ensures entries { (B.view board.new).entries ≡ (B.view board.old).entries }
    ensures within { MatchBool result (IsWithin (G.model setup.now.game) (B.view board.new) s target)
        (IsBeyond (G.model setup.now.game) (B.view board.new) s target) }
{
    told_gap(setup, s, row, board) <= target
}

/// Whether they are at most so far apart, read anew.
pub(crate) fn is_within<G: Game, B: Bounds<G>>(
    g: G,
    s: G::State,
    row: Row,
    target: i64,
    board: &mut B,
) -> bool
    requires here { IsAtNode (G.model g) g (B.view board.old) s row }
    ensures later { IsLater (B.view board.old) (B.view board.new) }
    ensures entries { (B.view board.new).entries ≡ (B.view board.old).entries }
    ensures within { MatchBool result (IsWithin (G.model g) (B.view board.new) s target)
        (IsBeyond (G.model g) (B.view board.new) s target) }
{
    gap_at(g, s, row, board) <= target
}

/// The gap, in millionths of a payoff, at which a state is left to another worker that has searched it: a 32nd of what
/// the stages of each rank reach, rounded up.
fn left_gap<G: Game>(g: G, s: G::State, total: u32) -> i64
    requires here { IsInner (G.model g) s }
    requires low { LEAST_WEIGHT ≤ total }
    requires high { total ≤ MOST_WEIGHT }
    ensures { (stage : ℕ) × IsStageGap (G.model g) total stage
        × (result ≡ pos (left_gap (G.model g) stage ((G.model g).rank s))) }
{
    let each = resolution(g, total) as u64 / g.rank(g.root()) as u64;
    (g.rank(s) as u64 * each.div_ceil(32)) as i64
}

/// The gap, in millionths of a payoff, at which a state is left to another worker with linear stages: what these leave,
/// a few millionths and a sixteenth of the range over the weight with each rank, never more than with regret matching.
pub(crate) fn linear_left_gap<G: Game>(g: G, s: G::State, total: u32) -> i64
    requires reachable { Reachable (G.model g) s }
    requires low { LEAST_WEIGHT ≤ total }
    requires high { total ≤ MOST_WEIGHT }
    ensures least { pos 0 ≤ℤ result }
    ensures left { IsLeftBelow (G.model g) total s result }
{
    let range = (g.high() - g.low()).unsigned_abs() as u64;
    let each = range * SCALE as u64 / (16 * total as u64) + 2 * range.min(1);
    (g.rank(s) as u64 * each) as i64
}

/// How the search of a state ends before its first turn, if it does: its gap is at most the target, or it is left to
/// another worker, where that is allowed.
pub(crate) fn ended_early<G: Game, B: Bounds<G>, T: Gate>(
    setup: &Setup<'_, G, T>,
    s: G::State,
    row: Row,
    target: i64,
    may_leave: bool,
    board: &mut B,
) -> Option<SearchEnd>
    requires here { IsAtNode (G.model setup.now.game) setup.now.game (B.view board.old) s row }
    ensures later { IsLater (B.view board.old) (B.view board.new) }
    ensures entries { (B.view board.new).entries ≡ (B.view board.old).entries }
    ensures end { IsEarlyEnd (G.model setup.now.game) (B.view board.new) s target result }
    ensures leaves { result ≡ Some SearchEnd.Settled → IsTrue may_leave }
{
    let gap = told_gap(setup, s, row, board);
    if gap <= target {
        return Some(SearchEnd::Reached);
    }
    if !may_leave {
        return None;
    }
    if gap <= left_gap(setup.game, s, board.total()) {
        Some(SearchEnd::Settled)
    } else {
        None
    }
}

/// How the search of a state ends that stopped with this end: it is reached all the same where its gap, read once more,
/// is at most the target.
pub(crate) fn stopped<G: Game, B: Bounds<G>>(
    g: G,
    s: G::State,
    row: Row,
    target: i64,
    end: SearchEnd,
    board: &mut B,
) -> SearchEnd
    requires here { IsAtNode (G.model g) g (B.view board.old) s row }
    requires target { pos 0 ≤ℤ target }
    ensures later { IsLater (B.view board.old) (B.view board.new) }
    ensures entries { (B.view board.new).entries ≡ (B.view board.old).entries }
    ensures end { IsStoppedAs (G.model g) (B.view board.new) s target end result }
{
    if is_within(g, s, row, target, board) {
        return SearchEnd::Reached;
    }
    end
}
