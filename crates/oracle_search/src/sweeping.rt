//! A search by sweeps over the states that a state leads to, with linear stages.

ghost use Rattle.std.specs.Prelude.{◌≡◌, ◌≤◌, ◌≤ℤ◌, pos, true, false, cond, Some, IsTrue, IfErr, IfOk};
ghost use Rattle.sums.specs.declared.TheConstants.{LEAST_WEIGHT, MOST_WEIGHT};
ghost use Rattle.oracle_search.specs.Sweeps.{EndsBySweeps, IsAfterSweep, TakesUnlessFull};
ghost use Rattle.oracle_search.specs.Workers.{at_work};
ghost use Rattle.oracle_search.specs.Searches.{IsInner, IsAtRow, IsStop, IsWorked};

use crate::ends::{SearchEnd, Stop};
use crate::gap::is_within_told;
use crate::gate::Gate;
use crate::sweeps::sweep_state;
use crate::worker::{Setup, Worker};
use bounds_board::{Bounds, Row};
use sim_game::{Game, Side, opening_bound};

/// How close a sweep brings the states.
#[derive(Clone, Copy)]
pub(crate) struct Sweep {
    /// The gap wanted at the state that was asked for, in millionths of a payoff, and the rank of that state.
    goal: i64,
    rank: u32,
    /// How much less is wanted with each rank below, since the stages between add their own gaps.
    slack: i64,
    /// The last sweep goes on at each state that has a gap; with other workers on the board, a gap that is not small.
    pub(crate) is_last: bool,
}

impl Sweep {
    /// The first sweep of a search of a state: a sixteenth of the range of payoffs is wanted.
    fn first<G: Game>(g: G, s: G::State, total: u32) -> Sweep
        requires here { IsInner (G.model g) s }
        requires low { LEAST_WEIGHT ≤ total }
        requires high { total ≤ MOST_WEIGHT }
    {
        let range = opening_bound(g, Side::Two) - opening_bound(g, Side::One);
        let width = g.moves(Side::One, s).max(g.moves(Side::Two, s));
        Sweep {
            goal: range / 16,
            rank: g.rank(s),
            slack: (range / (2 * total as i64))
                .saturating_mul(width as i64)
                .saturating_add(2),
            is_last: false,
        }
    }

    /// A sweep of another goal, which is not the last.
    fn with_goal(&self, goal: i64) -> Sweep
        ensures { result.is_last ≡ false }
    {
        Sweep {
            goal,
            rank: self.rank,
            slack: self.slack,
            is_last: false,
        }
    }

    /// The last sweep.
    fn last(&self) -> Sweep
        ensures { result.is_last ≡ true }
    {
        Sweep {
            goal: 0,
            rank: self.rank,
            slack: self.slack,
            is_last: true,
        }
    }

    /// The gap wanted at a state of this rank.
    pub(crate) fn goal_at(&self, rank: u32) -> i64
        ensures least { pos 0 ≤ℤ result }
        ensures last { IsTrue self.now.is_last → result ≡ pos 0 }
    {
        if self.is_last {
            return 0;
        }
        let above = (self.rank.saturating_sub(rank) as i64).saturating_mul(self.slack);
        self.goal.saturating_sub(above).max(0)
    }
}

/// Makes sweeps over the states that a state whose gap is above the target leads to, up to the first that ends the
/// search: one for a sixteenth of the range of payoffs, unless the target is not far below, one for the target, unless
/// it is 0, and the last, which brings each state as close as its stages reach, or leaves it. The serial searches of the
/// states before are forgotten, since hardly one of them is met again.
pub(crate) fn make_sweeps<G: Game, B: Bounds<G>, T: Gate>(
    setup: &Setup<'_, G, T>,
    s: G::State,
    row: Row,
    target: i64,
    worker: &mut Worker,
    board: &mut B,
) -> Result<SearchEnd, Stop>
    requires here { IsAtRow (G.model setup.now.game) setup.now.game s (Some row)
        (at_work (B.view board.old) worker.old) }
    requires target { pos 0 ≤ℤ target }
    ensures worked { IsWorked (G.model setup.now.game) s
        (at_work (B.view board.old) worker.old) (at_work (B.view board.new) worker.new) }
    ensures ended { IfOk result (EndsBySweeps (G.model setup.now.game) s target 2 1
        (at_work (B.view board.old) worker.old) (at_work (B.view board.new) worker.new)) }
    ensures stopped { IfErr result (IsStop (G.model setup.now.game) s (at_work (B.view board.new) worker.new)
        (TakesUnlessFull (G.model setup.now.game) 2 1 worker.old (at_work (B.view board.new) worker.new))) }
{
    worker.forget_searches(setup.alloc);
    let first = Sweep::first(setup.game, s, board.total());
    let coarse = if target < first.goal / 4 {
        first.goal
    } else {
        0
    };
    for goal in [coarse, target] {
        if goal > 0 {
            let sweep = first.with_goal(goal);
            if make_sweep(setup, &sweep, s, row, target, worker, board)? {
                return Ok(SearchEnd::Reached);
            }
        }
    }
    if make_sweep(setup, &first.last(), s, row, target, worker, board)? {
        return Ok(SearchEnd::Reached);
    }
    Ok(SearchEnd::Settled)
}

/// One sweep: whether it reaches the target.
fn make_sweep<G: Game, B: Bounds<G>, T: Gate>(
    setup: &Setup<'_, G, T>,
    sweep: &Sweep,
    s: G::State,
    row: Row,
    target: i64,
    worker: &mut Worker,
    board: &mut B,
) -> Result<bool, Stop>
    requires here { IsAtRow (G.model setup.now.game) setup.now.game s (Some row)
        (at_work (B.view board.old) worker.old) }
    requires target { pos 0 ≤ℤ target }
    ensures worked { IsWorked (G.model setup.now.game) s
        (at_work (B.view board.old) worker.old) (at_work (B.view board.new) worker.new) }
    ensures ended { IfOk result (IsAfterSweep (G.model setup.now.game) s target sweep.now.is_last
        (at_work (B.view board.old) worker.old) (at_work (B.view board.new) worker.new)) }
    ensures stopped { IfErr result (IsStop (G.model setup.now.game) s (at_work (B.view board.new) worker.new)
        (TakesUnlessFull (G.model setup.now.game) (cond sweep.now.is_last 0 1) (cond sweep.now.is_last 1 0)
        worker.old (at_work (B.view board.new) worker.new))) }
{
    worker.begin_sweep();
    sweep_state(setup, sweep, s, row, worker, board)?;
    Ok(is_within_told(setup, s, row, target, board))
}
