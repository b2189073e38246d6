//! The searches of the states after held moves.

ghost use Rattle.std.specs.Prelude.{◌≡◌, ◌+◌, ◌-◌, ◌<◌, ℕ, false, Contains};
ghost use Rattle.sim_game.specs.declared.Side.{Side};
ghost use Rattle.restricted_game.specs.Children.{AreChildRows};
ghost use Rattle.restricted_game.specs.Held.{IsHolding};
ghost use Rattle.restricted_game.specs.Nodes.{FitsState};
ghost use Rattle.oracle_search.specs.Workers.{at_work};
ghost use Rattle.oracle_search.specs.Searches.{IsAtRow, IsAtChildren, IsWorked, IsWorkedBelow};
ghost use Rattle.oracle_search.specs.Searches.{HasSearched, IsDone, AreDone};

use crate::ends::Stop;
use crate::gap::gap_at;
use crate::gate::Gate;
use crate::state::search_row;
use crate::worker::{Setup, Worker};
use bounds_board::{Bounds, Row};
use restricted_game::{ChildRows, Restricted};
use sim_game::Game;

/// Searches the states after held moves of both sides, up to the first that stops. The pairs of moves come row by row,
/// as on a ring, from a place on that depends on the worker.
#[cycle(search)]
pub(crate) fn search_children<G: Game, B: Bounds<G>, T: Gate>(
    setup: &Setup<'_, G, T>,
    s: G::State,
    held: &Restricted,
    children: &mut ChildRows,
    worker: &mut Worker,
    board: &mut B,
) -> Result<(), Stop>
    requires here { IsAtChildren (G.model setup.now.game) setup.now.game s children.old
        (at_work (B.view board.old) worker.old) }
    requires fits { FitsState (G.model setup.now.game) s held.now }
    requires regret { worker.old.linear ≡ false }
    ensures holding { IsHolding held.now }
    ensures children { AreChildRows (G.model setup.now.game) (B.view board.new) s children.new }
    ensures worked { IsWorked (G.model setup.now.game) s
        (at_work (B.view board.old) worker.old) (at_work (B.view board.new) worker.new) }
    ensures searched { HasSearched (G.model setup.now.game) s ((G.model setup.now.game).rank s - 1)
        ((one two : ℕ) → Contains held.now.rows one → Contains held.now.cols two
        → AreDone (G.model setup.now.game) (B.view board.new) s one two)
        worker.old (at_work (B.view board.new) worker.new) result }
{
    let rows = held.rows();
    let cols = held.cols();
    let pairs = rows.len() * cols.len();
    for step in 0..pairs {
        let pair = (setup.worker as usize + step) % pairs;
        let moves = (rows[pair / cols.len()], cols[pair % cols.len()]);
        search_draws(setup, s, moves, children, worker, board)?;
    }
    Ok(())
}

/// Those after a move of One and a move of Two.
#[cycle(search)]
fn search_draws<G: Game, B: Bounds<G>, T: Gate>(
    setup: &Setup<'_, G, T>,
    s: G::State,
    moves: (u32, u32),
    children: &mut ChildRows,
    worker: &mut Worker,
    board: &mut B,
) -> Result<(), Stop>
    requires here { IsAtChildren (G.model setup.now.game) setup.now.game s children.old
        (at_work (B.view board.old) worker.old) }
    requires one { moves.0 < (G.model setup.now.game).moves Side.One s }
    requires two { moves.1 < (G.model setup.now.game).moves Side.Two s }
    requires regret { worker.old.linear ≡ false }
    ensures children { AreChildRows (G.model setup.now.game) (B.view board.new) s children.new }
    ensures worked { IsWorked (G.model setup.now.game) s
        (at_work (B.view board.old) worker.old) (at_work (B.view board.new) worker.new) }
    ensures searched { HasSearched (G.model setup.now.game) s ((G.model setup.now.game).rank s - 1)
        (AreDone (G.model setup.now.game) (B.view board.new) s moves.0 moves.1)
        worker.old (at_work (B.view board.new) worker.new) result }
{
    let g = setup.game;
    for draw in 0..g.draws(s, moves.0, moves.1) {
        let row = children.claim(g, s, moves.0, moves.1, draw, board)?;
        let child = g.drawn(s, moves.0, moves.1, draw);
        search_child(setup, child, row, worker, board)?;
    }
    Ok(())
}

/// Finishes a state, unless it is an end, which has no row, is finished, or has no gap.
#[cycle(search)]
fn search_child<G: Game, B: Bounds<G>, T: Gate>(
    setup: &Setup<'_, G, T>,
    s: G::State,
    row: Option<Row>,
    worker: &mut Worker,
    board: &mut B,
) -> Result<(), Stop>
    requires here { IsAtRow (G.model setup.now.game) setup.now.game s row (at_work (B.view board.old) worker.old) }
    requires regret { worker.old.linear ≡ false }
    ensures worked { IsWorkedBelow (G.model setup.now.game) s ((G.model setup.now.game).rank s + 1)
        (at_work (B.view board.old) worker.old) (at_work (B.view board.new) worker.new) }
    ensures searched { HasSearched (G.model setup.now.game) s ((G.model setup.now.game).rank s)
        (IsDone (G.model setup.now.game) (B.view board.new) s)
        worker.old (at_work (B.view board.new) worker.new) result }
{
    let Some(row) = row else {
        return Ok(());
    };
    let key = setup.game.key(s);
    if worker.has(key) {
        return Ok(());
    }
    if gap_at(setup.game, s, row, board) == 0 {
        return Ok(());
    }
    let end = search_row(setup, s, row, 0, true, worker, board)?;
    end.finished()?;
    worker.add(key)?;
    Ok(())
}
