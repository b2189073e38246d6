//! The search of a state.

ghost use Rattle.std.specs.Prelude.{◌≡◌, ◌≢◌, ℕ, ◌+◌, ◌≤◌, ◌≤ℤ◌, pos, Some, IfErr, IfOk};
ghost use Rattle.sim_game.specs.Model.{Reachable};
ghost use Rattle.oracle_search.specs.Sweeps.{HasBounded, HasRunOut};
ghost use Rattle.oracle_search.specs.Workers.{at_start, at_work};
ghost use Rattle.oracle_search.specs.Searches.{HasKept, IsAtRow, IsWorked, IsStop};
ghost use Rattle.oracle_search.specs.Searches.{BoundsByPure, IsLeavable};

use crate::ends::{SearchEnd, Stop};
use crate::gap::{ended_early, gap_at, stopped};
use crate::gate::Gate;
use crate::growth::grow;
use crate::serial_bounds::bound_state;
use crate::sweeping::make_sweeps;
use crate::worker::{Setup, Worker};
use bounds_board::{Bounds, Row};
use sim_game::{Game, NoMemory};

/// Bounds a state until its gap is at most the target, in millionths of a payoff. `Full`, and what the worker keeps in
/// mind of full boards, tell of the claims of this call alone.
///
/// The double-oracle search of Bošanský et al. (2016): bounds by pure plans first, then a game on a few moves of each
/// side that grows by best replies, with its children searched before each turn. A state below this one at which the
/// board shows more than its pure plans and a small gap is left to the worker that has brought it there.
///
/// With linear stages, whose gaps are narrow from the first turn on, the search goes by sweeps over all states, with
/// all moves held: one that brings the gap to a sixteenth of the range of payoffs, one for the target, and one that
/// brings each state as close as its stages reach; with other workers on the board it leaves a state below this one
/// whose gap is small. A turn is taken only where pure plans over the children do not suffice.
pub fn search<G: Game, B: Bounds<G>, T: Gate>(
    setup: &Setup<'_, G, T>,
    s: G::State,
    target: i64,
    worker: &mut Worker,
    board: &mut B,
) -> Result<SearchEnd, NoMemory>
    requires game { (B.view board.old).game ≡ setup.now.game }
    requires reachable { Reachable (G.model setup.now.game) s }
    requires target { pos 0 ≤ℤ target }
    requires kept { HasKept (G.model setup.now.game) (at_work (B.view board.old) worker.old) }
    ensures worked { IsWorked (G.model setup.now.game) s
        (at_start (B.view board.old) worker.old) (at_work (B.view board.new) worker.new) }

    // With linear stages: at most two sweeps of a turn for each state that has a row, and a last one of a turn for each
    // state that it brings as close as its rank allows.
    ensures ended { IfOk result (HasBounded (G.model setup.now.game) s target
        (at_start (B.view board.old) worker.old) (at_work (B.view board.new) worker.new)) }
    ensures pure { IfOk result (BoundsByPure (G.model setup.now.game) s target
        (at_start (B.view board.old) worker.old) (at_work (B.view board.new) worker.new)) }

    // The state that was asked for is not left to another worker, and keeps a row.
    ensures settled { IfOk result (λ end. end ≡ SearchEnd.Settled
        → worker.old.turns.spent + 1 ≤ worker.new.turns.spent) }
    ensures rowed { 1 ≤ (G.model setup.now.game).rank s → IfOk result (λ end. end ≢ SearchEnd.Full
        → (row : ℕ) × ((B.view board.new).key_at row ≡ Some ((G.model setup.now.game).key s))) }
{
    worker.begin();
    if setup.game.rank(s) == 0 {
        return Ok(SearchEnd::Reached);
    }
    match board.claim(setup.game.key(s)) {
        Ok(row) => search_row(setup, s, row, target, false, worker, board),
        Err(_) => {
            worker.note_full();
            Ok(SearchEnd::Full)
        }
    }
}

/// Bounds a state that is no end, by its row. It may be left to another worker where that is allowed.
#[cycle(search)]
pub(crate) fn search_row<G: Game, B: Bounds<G>, T: Gate>(
    setup: &Setup<'_, G, T>,
    s: G::State,
    row: Row,
    target: i64,
    may_leave: bool,
    worker: &mut Worker,
    board: &mut B,
) -> Result<SearchEnd, NoMemory>
    requires here { IsAtRow (G.model setup.now.game) setup.now.game s (Some row)
        (at_work (B.view board.old) worker.old) }
    requires target { pos 0 ≤ℤ target }
    ensures worked { IsWorked (G.model setup.now.game) s
        (at_work (B.view board.old) worker.old) (at_work (B.view board.new) worker.new) }
    ensures ended { IfOk result (HasBounded (G.model setup.now.game) s target
        (at_work (B.view board.old) worker.old) (at_work (B.view board.new) worker.new)) }
    ensures pure { IfOk result (BoundsByPure (G.model setup.now.game) s target
        (at_work (B.view board.old) worker.old) (at_work (B.view board.new) worker.new)) }
    ensures left { IfOk result (λ end. end ≡ SearchEnd.Settled → worker.new.turns.spent ≡ worker.old.turns.spent
        → IsLeavable (G.model setup.now.game) s may_leave
        (at_work (B.view board.old) worker.old) (at_work (B.view board.new) worker.new)) }
{
    match close_row(setup, s, row, target, may_leave, worker, board) {
        Ok(end) => Ok(end),
        Err(Stop::Spent) => Ok(stopped(setup.game, s, row, target, SearchEnd::Spent, board)),
        Err(Stop::Full) => {
            worker.note_full();
            Ok(stopped(setup.game, s, row, target, SearchEnd::Full, board))
        }
        Err(Stop::NoMemory) => Err(NoMemory),
    }
}

/// Brings the bounds of its row together: by pure plans first, then by sweeps with linear stages, else by a game that
/// grows.
#[cycle(search)]
fn close_row<G: Game, B: Bounds<G>, T: Gate>(
    setup: &Setup<'_, G, T>,
    s: G::State,
    row: Row,
    target: i64,
    may_leave: bool,
    worker: &mut Worker,
    board: &mut B,
) -> Result<SearchEnd, Stop>
    requires here { IsAtRow (G.model setup.now.game) setup.now.game s (Some row)
        (at_work (B.view board.old) worker.old) }
    requires target { pos 0 ≤ℤ target }
    ensures worked { IsWorked (G.model setup.now.game) s
        (at_work (B.view board.old) worker.old) (at_work (B.view board.new) worker.new) }
    ensures ended { IfOk result (HasBounded (G.model setup.now.game) s target
        (at_work (B.view board.old) worker.old) (at_work (B.view board.new) worker.new)) }
    ensures pure { IfOk result (BoundsByPure (G.model setup.now.game) s target
        (at_work (B.view board.old) worker.old) (at_work (B.view board.new) worker.new)) }
    ensures left { IfOk result (λ end. end ≡ SearchEnd.Settled → worker.new.turns.spent ≡ worker.old.turns.spent
        → IsLeavable (G.model setup.now.game) s may_leave
        (at_work (B.view board.old) worker.old) (at_work (B.view board.new) worker.new)) }
    ensures stopped { IfErr result (IsStop (G.model setup.now.game) s (at_work (B.view board.new) worker.new)
        (HasRunOut (G.model setup.now.game) s target
        (at_work (B.view board.old) worker.old) (at_work (B.view board.new) worker.new))) }
{
    if gap_at(setup.game, s, row, board) == 0 {
        return Ok(SearchEnd::Reached);
    }
    let is_ahead = bound_state(setup, s, row, worker, board)?;
    let is_left = worker.may_leave(may_leave, is_ahead);
    if let Some(end) = ended_early(setup, s, row, target, is_left, board) {
        return Ok(end);
    }
    if worker.is_linear() {
        make_sweeps(setup, s, row, target, worker, board)
    } else {
        grow(setup, s, row, target, worker, board)
    }
}
