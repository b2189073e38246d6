//! Restricted games that grow by best replies.

ghost use Rattle.std.specs.Prelude.{◌≡◌, ◌≤ℤ◌, ◌+◌, ◌≤◌, pos, false, Some, Err, IfErr, IfOk};
ghost use Rattle.matrix_game.specs.Budget.{left_of};
ghost use Rattle.restricted_game.specs.declared.held.StepFault.{StepFault};
ghost use Rattle.restricted_game.specs.Children.{AreChildRows, HasNoRows};
ghost use Rattle.restricted_game.specs.Held.{HoldsMore};
ghost use Rattle.restricted_game.specs.Nodes.{FitsState};
ghost use Rattle.restricted_game.specs.Gaps.{HasStepGap};
ghost use Rattle.restricted_game.specs.Stages.{HasStepGapOver, WereStageNumbers};
ghost use Rattle.oracle_search.specs.Workers.{at_work};
ghost use Rattle.oracle_search.specs.Searches.{IsAtRow, IsWorked, HasEnded, IsStop, HasTurn, TakesAskedTurn};
ghost use Rattle.oracle_search.specs.Searches.{IsInner, IsBoardFull, IsFirstHeld, TakesAtMost, growth_turns};
ghost use Rattle.oracle_search.specs.Sweeps.{IsFullHeld};

use crate::children::search_children;
use crate::ends::{SearchEnd, Stop};
use crate::gap::is_within_told;
use crate::gate::Gate;
use crate::worker::{Setup, Worker};
use bounds_board::{Bounds, Row};
use restricted_game::{
    ChildRows, Node, Restricted, StageBuffers, StageNumbers, StepEnd, StepFault,
};
use sim_game::{Game, NoMemory, Side};

/// The moves that a restricted game at a state holds, and the rows of the states after pairs of moves.
#[derive(Drop)]
pub(crate) struct Growth {
    pub(crate) held: Restricted,
    pub(crate) children: ChildRows,
}

impl Growth {
    /// One move of each side, which depends on the worker, and no row.
    fn new<G: Game, T: Gate>(setup: &Setup<'_, G, T>, s: G::State) -> Result<Growth, NoMemory>
        requires here { IsInner (G.model setup.now.game) s }
        ensures held { IfOk result (λ growth. IsFirstHeld (G.model setup.now.game) s growth.held) }
        ensures children { IfOk result (λ growth. HasNoRows (G.model setup.now.game) s growth.children) }
    {
        let rows = setup.game.moves(Side::One, s);
        let cols = setup.game.moves(Side::Two, s);
        let first = (setup.worker % rows, setup.worker % cols);
        Ok(Growth {
            held: Restricted::new(setup.alloc, rows, cols, first)?,
            children: ChildRows::new(setup.alloc, setup.game, s)?,
        })
    }

    /// All moves of both sides, in lists of the buffers, which it takes, and the rows that are known.
    pub(crate) fn full<G: Game>(
        g: G,
        s: G::State,
        children: ChildRows,
        buffers: &mut StageBuffers,
    ) -> Result<Growth, NoMemory>
        requires here { IsInner (G.model g) s }
        ensures held { IfOk result (λ growth. IsFullHeld (G.model g) s growth.held) }
        ensures children { IfOk result (λ growth. growth.children ≡ children) }
    {
        let rows = g.moves(Side::One, s);
        let cols = g.moves(Side::Two, s);
        let held = Restricted::full(rows, cols, buffers)?;
        Ok(Growth { held, children })
    }

    /// Gives back the lists of the moves and of the rows.
    pub(crate) fn give_back(self, buffers: &mut StageBuffers) {
        let Growth { held, children } = self;
        held.give_back(buffers);
        children.give_back(buffers);
    }
}

/// Plays a restricted game at a state, which begins with one move of each side that depends on the worker, until the
/// gap is at most the target, no reply is fresh, or the search stops.
#[cycle(search)]
pub(crate) fn grow<G: Game, B: Bounds<G>, T: Gate>(
    setup: &Setup<'_, G, T>,
    s: G::State,
    row: Row,
    target: i64,
    worker: &mut Worker,
    board: &mut B,
) -> Result<SearchEnd, Stop>
    requires here { IsAtRow (G.model setup.now.game) setup.now.game s (Some row)
        (at_work (B.view board.old) worker.old) }
    requires target { pos 0 ≤ℤ target }
    requires regret { worker.old.linear ≡ false }
    ensures worked { IsWorked (G.model setup.now.game) s
        (at_work (B.view board.old) worker.old) (at_work (B.view board.new) worker.new) }
    ensures ended { IfOk result (HasEnded (G.model setup.now.game) s target
        (at_work (B.view board.old) worker.old) (at_work (B.view board.new) worker.new)) }
    ensures stopped { IfErr result (IsStop (G.model setup.now.game) s (at_work (B.view board.new) worker.new)
        (TakesAtMost (growth_turns (G.model setup.now.game))
        ((G.model setup.now.game).rank s) ((G.model setup.now.game).rank s) worker.old worker.new)) }
    ensures turned { IfOk result (λ end. end ≡ SearchEnd.Settled
        → worker.old.turns.spent + 1 ≤ worker.new.turns.spent) }
{
    let mut growth = Growth::new(setup, s)?;
    'growth: loop {
        search_children(setup, s, &growth.held, &mut growth.children, worker, board)?;
        let end = take_turn(setup, s, row, &mut growth, worker, board)?;
        if is_within_told(setup, s, row, target, board) {
            return Ok(SearchEnd::Reached);
        }
        match end {
            StepEnd::Grown { .. } => {}
            StepEnd::Done { .. } => return Ok(SearchEnd::Settled),
        }
    }
}

/// A step of the restricted game, if the gate lets the search go on.
pub(crate) fn take_turn<G: Game, B: Bounds<G>, T: Gate>(
    setup: &Setup<'_, G, T>,
    s: G::State,
    row: Row,
    growth: &mut Growth,
    worker: &mut Worker,
    board: &mut B,
) -> Result<StepEnd, StepFault>
    requires here { IsAtRow (G.model setup.now.game) setup.now.game s (Some row)
        (at_work (B.view board.old) worker.old) }
    requires fits { FitsState (G.model setup.now.game) s growth.old.held }
    requires children { AreChildRows (G.model setup.now.game) (B.view board.old) s growth.old.children }
    ensures children { AreChildRows (G.model setup.now.game) (B.view board.new) s growth.new.children }
    ensures worked { IsWorked (G.model setup.now.game) s
        (at_work (B.view board.old) worker.old) (at_work (B.view board.new) worker.new) }
    ensures turn { TakesAskedTurn worker.old worker.new result }
    ensures gap { IfOk result (HasStepGap (G.model setup.now.game)
        (B.view board.old) (B.view board.new) s growth.old.held) }
    ensures held { HoldsMore growth.old.held growth.new.held result }
    ensures full { result ≡ Err StepFault.Full → IsBoardFull (G.model setup.now.game) s (B.view board.new) }
{
    worker.ask(setup);
    growth.held.step(
        setup.game,
        Node { state: s, row },
        &mut growth.children,
        board,
        &mut worker.turns,
        &mut worker.stages,
    )
}

/// A step over numbers that were read. A turn is left.
pub(crate) fn take_turn_over<G: Game, B: Bounds<G>, T: Gate>(
    setup: &Setup<'_, G, T>,
    node: Node<G::State>,
    numbers: &StageNumbers,
    held: &mut Restricted,
    worker: &mut Worker,
    board: &mut B,
) -> Result<StepEnd, NoMemory>
    requires here { IsAtRow (G.model setup.now.game) setup.now.game node.state (Some node.row)
        (at_work (B.view board.old) worker.old) }
    requires fits { FitsState (G.model setup.now.game) node.state held.old }
    requires read { WereStageNumbers (G.model setup.now.game) (B.view board.old) node.state held.old numbers.now }
    requires left { 1 ≤ left_of worker.old.turns }
    ensures worked { IsWorked (G.model setup.now.game) node.state
        (at_work (B.view board.old) worker.old) (at_work (B.view board.new) worker.new) }
    ensures same { worker.new ≡ record worker.old { turns = worker.new.turns } }
    ensures gap { IfOk result (HasStepGapOver (G.model setup.now.game)
        (B.view board.old) (B.view board.new) node.state held.old numbers.now) }
    ensures held { HoldsMore held.old held.new result }
    ensures turn { IfOk result (λ _. HasTurn worker.old.turns worker.new.turns) }
{
    held.step_over(
        setup.game,
        node,
        numbers,
        board,
        &mut worker.turns,
        &mut worker.stages,
    )
}
