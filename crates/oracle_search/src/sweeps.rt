//! One sweep over the states that a state leads to: a turn for each, its children first.

ghost use Rattle.std.specs.Prelude.{◌≡◌, ◌⊎◌, ◌+◌, ◌<◌, ◌≤◌, ◌≤ℤ◌, pos, true, Some, IsTrue, IsFalse, IfErr, IfOk, OnOk, Contains};
ghost use Rattle.sums.specs.declared.TheConstants.{LEAST_WEIGHT, MOST_WEIGHT};
ghost use Rattle.sim_game.specs.declared.Side.{Side};
ghost use Rattle.restricted_game.specs.Children.{AreChildRows};
ghost use Rattle.oracle_search.specs.Sweeps.{HasSwept, IsSweepEnd, IsSweepDone, IsFullHeld, AreAllDone, TakesOne};
ghost use Rattle.oracle_search.specs.Workers.{at_work};
ghost use Rattle.oracle_search.specs.Searches.{IsInner, IsAtRow, IsAtChildren, IsStop, IsWorked, IsDone, AreDone};
ghost use Rattle.oracle_search.specs.Finished.{AreFinished, IsLeftBelow, IsWithin};

use crate::ends::Stop;
use crate::gap::{gap_at, is_within, linear_left_gap};
use crate::gate::Gate;
use crate::growth::{Growth, take_turn_over};
use crate::serial_bounds::bound_state;
use crate::sweeping::Sweep;
use crate::worker::{Setup, Worker};
use bounds_board::{Bounds, Row};
use restricted_game::{ChildRows, Node, StageBuffers};
use sim_game::{Game, Side};

/// Makes the sweep at the states that this one leads to, and then here, with all moves held.
#[cycle(sweep)]
pub(crate) fn sweep_state<G: Game, B: Bounds<G>, T: Gate>(
    setup: &Setup<'_, G, T>,
    sweep: &Sweep,
    s: G::State,
    row: Row,
    worker: &mut Worker,
    board: &mut B,
) -> Result<(), Stop>
    requires here { IsAtRow (G.model setup.now.game) setup.now.game s (Some row)
        (at_work (B.view board.old) worker.old) }
    requires swept { AreFinished (G.model setup.now.game) sweep.now.is_last (B.view board.old) worker.old.swept }
    requires unmet { Contains worker.old.swept ((G.model setup.now.game).key s) → ⊥ }
    ensures swept { HasSwept (G.model setup.now.game) sweep.now.is_last s ((G.model setup.now.game).rank s + 1)
        (at_work (B.view board.old) worker.old) (at_work (B.view board.new) worker.new) }
    ensures ended { IsSweepEnd (G.model setup.now.game) s
        (IsSweepDone (G.model setup.now.game) sweep.now.is_last (B.view board.new) s)
        worker.old (at_work (B.view board.new) worker.new) result }
    ensures turned { OnOk result (sweep.now.is_last ≡ true
        → (worker.old.turns.spent + 1 ≤ worker.new.turns.spent)
        ⊎ IsWithin (G.model setup.now.game) (B.view board.new) s (pos 0)) }
{
    let mut children = worker.child_rows(setup.game, s)?;
    sweep_children(setup, sweep, s, &mut children, worker, board)?;
    let mut buffers = worker.take_buffers(setup.alloc);
    let mut growth = Growth::full(setup.game, s, children, &mut buffers)?;
    let node = Node { state: s, row };
    let end = close_in(setup, sweep, node, &mut growth, worker, board, &mut buffers);
    growth.give_back(&mut buffers);
    worker.put_back(buffers);
    end
}

/// Posts the best pure plans of both sides over the states after all moves, which are done, where these bring the gap to
/// what the sweep wants, and takes a turn otherwise, if the gate lets the search go on. The children are read into lists of
/// the buffers, which come back unless memory runs out.
fn close_in<G: Game, B: Bounds<G>, T: Gate>(
    setup: &Setup<'_, G, T>,
    sweep: &Sweep,
    node: Node<G::State>,
    growth: &mut Growth,
    worker: &mut Worker,
    board: &mut B,
    buffers: &mut StageBuffers,
) -> Result<(), Stop>
    requires here { IsAtRow (G.model setup.now.game) setup.now.game node.state (Some node.row)
        (at_work (B.view board.old) worker.old) }
    requires held { IsFullHeld (G.model setup.now.game) node.state growth.old.held }
    requires children { AreChildRows (G.model setup.now.game) (B.view board.old) node.state growth.old.children }
    requires done { sweep.now.is_last ≡ true → AreAllDone (G.model setup.now.game) (B.view board.old) node.state }
    requires swept { AreFinished (G.model setup.now.game) sweep.now.is_last (B.view board.old) worker.old.swept }
    requires unmet { Contains worker.old.swept ((G.model setup.now.game).key node.state) → ⊥ }
    ensures swept { HasSwept (G.model setup.now.game) sweep.now.is_last node.state
        ((G.model setup.now.game).rank node.state + 1)
        (at_work (B.view board.old) worker.old) (at_work (B.view board.new) worker.new) }
    ensures ended { IsSweepEnd (G.model setup.now.game) node.state
        (IsSweepDone (G.model setup.now.game) sweep.now.is_last (B.view board.new) node.state)
        worker.old (at_work (B.view board.new) worker.new) result }
    ensures turned { OnOk result (sweep.now.is_last ≡ true
        → (worker.old.turns.spent + 1 ≤ worker.new.turns.spent)
        ⊎ IsWithin (G.model setup.now.game) (B.view board.new) node.state (pos 0)) }
{
    let g = setup.game;
    let s = node.state;
    let goal = sweep.goal_at(g.rank(s));
    let numbers = growth
        .held
        .read(g, s, &mut growth.children, board, buffers)?;
    growth.held.post_alone(g, node, goal, &numbers, board)?;
    if is_within(g, s, node.row, goal, board) {
        numbers.give_back(buffers);
        return Ok(());
    }
    worker.ask(setup);
    if worker.turns().left() == 0 {
        numbers.give_back(buffers);
        return Err(Stop::Spent);
    }
    take_turn_over(setup, node, &numbers, &mut growth.held, worker, board)?;
    numbers.give_back(buffers);
    worker.add_swept(g.key(s))?;
    Ok(())
}

/// Makes the sweep at the states after each pair of moves, up to the first that stops. The pairs come row by row, as on
/// a ring, on which the workers begin far apart.
#[cycle(sweep)]
fn sweep_children<G: Game, B: Bounds<G>, T: Gate>(
    setup: &Setup<'_, G, T>,
    sweep: &Sweep,
    s: G::State,
    children: &mut ChildRows,
    worker: &mut Worker,
    board: &mut B,
) -> Result<(), Stop>
    requires here { IsAtChildren (G.model setup.now.game) setup.now.game s children.old
        (at_work (B.view board.old) worker.old) }
    requires swept { AreFinished (G.model setup.now.game) sweep.now.is_last (B.view board.old) worker.old.swept }
    ensures children { AreChildRows (G.model setup.now.game) (B.view board.new) s children.new }
    ensures swept { HasSwept (G.model setup.now.game) sweep.now.is_last s ((G.model setup.now.game).rank s)
        (at_work (B.view board.old) worker.old) (at_work (B.view board.new) worker.new) }
    ensures ended { IsSweepEnd (G.model setup.now.game) s
        (sweep.now.is_last ≡ true → AreAllDone (G.model setup.now.game) (B.view board.new) s)
        worker.old (at_work (B.view board.new) worker.new) result }
{
    let cols = setup.game.moves(Side::Two, s);
    let pairs = setup.game.moves(Side::One, s) * cols;
    let first = first_pair(setup, pairs);
    for step in 0..pairs {
        let pair = (first % pairs + step) % pairs;
        let moves = (pair / cols, pair % cols);
        sweep_draws(setup, sweep, s, moves, children, worker, board)?;
    }
    Ok(())
}

/// The pair that a worker begins with: the workers share the ring of pairs.
fn first_pair<G: Game, T: Gate>(setup: &Setup<'_, G, T>, pairs: u32) -> u32 {
    let apart = (pairs / setup.workers.max(1)).max(1);
    setup.worker.saturating_mul(apart)
}

/// Makes the sweep at the states after a move of One and a move of Two.
#[cycle(sweep)]
fn sweep_draws<G: Game, B: Bounds<G>, T: Gate>(
    setup: &Setup<'_, G, T>,
    sweep: &Sweep,
    s: G::State,
    moves: (u32, u32),
    children: &mut ChildRows,
    worker: &mut Worker,
    board: &mut B,
) -> Result<(), Stop>
    requires here { IsAtChildren (G.model setup.now.game) setup.now.game s children.old
        (at_work (B.view board.old) worker.old) }
    requires one { moves.0 < (G.model setup.now.game).moves Side.One s }
    requires two { moves.1 < (G.model setup.now.game).moves Side.Two s }
    requires swept { AreFinished (G.model setup.now.game) sweep.now.is_last (B.view board.old) worker.old.swept }
    ensures children { AreChildRows (G.model setup.now.game) (B.view board.new) s children.new }
    ensures swept { HasSwept (G.model setup.now.game) sweep.now.is_last s ((G.model setup.now.game).rank s)
        (at_work (B.view board.old) worker.old) (at_work (B.view board.new) worker.new) }
    ensures ended { IsSweepEnd (G.model setup.now.game) s
        (sweep.now.is_last ≡ true → AreDone (G.model setup.now.game) (B.view board.new) s moves.0 moves.1)
        worker.old (at_work (B.view board.new) worker.new) result }
{
    let g = setup.game;
    for draw in 0..g.draws(s, moves.0, moves.1) {
        let row = children.claim(g, s, moves.0, moves.1, draw, board)?;
        let child = g.drawn(s, moves.0, moves.1, draw);
        sweep_child(setup, sweep, child, row, worker, board)?;
    }
    Ok(())
}

/// Makes the sweep at a state, unless it is an end, which has no row, or has enough for this sweep.
#[cycle(sweep)]
fn sweep_child<G: Game, B: Bounds<G>, T: Gate>(
    setup: &Setup<'_, G, T>,
    sweep: &Sweep,
    s: G::State,
    row: Option<Row>,
    worker: &mut Worker,
    board: &mut B,
) -> Result<(), Stop>
    requires here { IsAtRow (G.model setup.now.game) setup.now.game s row (at_work (B.view board.old) worker.old) }
    requires swept { AreFinished (G.model setup.now.game) sweep.now.is_last (B.view board.old) worker.old.swept }
    ensures swept { HasSwept (G.model setup.now.game) sweep.now.is_last s ((G.model setup.now.game).rank s + 1)
        (at_work (B.view board.old) worker.old) (at_work (B.view board.new) worker.new) }
    ensures ended { IsSweepEnd (G.model setup.now.game) s
        (IsSweepDone (G.model setup.now.game) sweep.now.is_last (B.view board.new) s)
        worker.old (at_work (B.view board.new) worker.new) result }
{
    let Some(row) = row else {
        return Ok(());
    };
    if is_enough(setup, sweep, s, row, worker, board)? {
        return Ok(());
    }
    sweep_state(setup, sweep, s, row, worker, board)
}

/// Whether the sweep has finished a state, or its gap is at most what the sweep wants of it, after serial searches where
/// these may help. With other workers on the board the last sweep leaves a state whose gap is small, whoever has made it
/// so.
fn is_enough<G: Game, B: Bounds<G>, T: Gate>(
    setup: &Setup<'_, G, T>,
    sweep: &Sweep,
    s: G::State,
    row: Row,
    worker: &mut Worker,
    board: &mut B,
) -> Result<bool, Stop>
    requires here { IsAtRow (G.model setup.now.game) setup.now.game s (Some row)
        (at_work (B.view board.old) worker.old) }
    requires swept { AreFinished (G.model setup.now.game) sweep.now.is_last (B.view board.old) worker.old.swept }
    ensures worked { IsWorked (G.model setup.now.game) s
        (at_work (B.view board.old) worker.old) (at_work (B.view board.new) worker.new) }
    ensures same { worker.new ≡ record worker.old { visits = worker.new.visits; searches = worker.new.searches } }
    ensures stopped { IfErr result (IsStop (G.model setup.now.game) s (at_work (B.view board.new) worker.new)
        (TakesOne worker.old worker.new)) }
    ensures unmet { IfOk result (λ is_enough. IsFalse is_enough
        → Contains worker.old.swept ((G.model setup.now.game).key s) → ⊥) }
    ensures last { sweep.now.is_last ≡ true → IfOk result (λ is_enough. IsTrue is_enough
        → IsDone (G.model setup.now.game) (B.view board.new) s) }
{
    let g = setup.game;
    let goal = wanted_gap(setup, sweep, s, board.total());
    if is_within(g, s, row, goal, board) {
        return Ok(true);
    }
    if worker.has_swept(g.key(s)) {
        return Ok(true);
    }
    if !worker.wants_bounds(g.rank(s), g.key(s)) {
        return Ok(false);
    }
    bound_state(setup, s, row, worker, board)?;
    let gap = gap_at(g, s, row, board);
    worker.note_bounds(g.key(s), gap == 0)?;
    Ok(gap <= goal)
}

/// The gap that the sweep wants at a state below the one that was asked for.
fn wanted_gap<G: Game, T: Gate>(
    setup: &Setup<'_, G, T>,
    sweep: &Sweep,
    s: G::State,
    total: u32,
) -> i64
    requires here { IsInner (G.model setup.now.game) s }
    requires low { LEAST_WEIGHT ≤ total }
    requires high { total ≤ MOST_WEIGHT }
    ensures least { pos 0 ≤ℤ result }
    ensures last { sweep.now.is_last ≡ true → IsLeftBelow (G.model setup.now.game) total s result }
{
    let has_others = setup.workers > 1;
    if has_others && sweep.is_last {
        linear_left_gap(setup.game, s, total)
    } else {
        sweep.goal_at(setup.game.rank(s))
    }
}
