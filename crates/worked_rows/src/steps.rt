ghost use Rattle.std.specs.Prelude.{◌≡◌, ◌<◌, ◌≤◌, ◌<ℤ◌};
ghost use Rattle.sim_game.specs.declared.Side.{Side};
ghost use Rattle.sim_game.specs.Sides.{opening_bound};
ghost use Rattle.bounds_board.specs.Views.{IsLater};
ghost use Rattle.sim_game.specs.Model.{Reachable};
ghost use Rattle.restricted_game.specs.Children.{AreChildRows};

use crate::games::{four_cards, two_cards};
use bounds_board::{BoardFault, Bounds, PlainBoard};
use matrix_game::{SolverKind, StageSolver, Turns};
use oracle_search::{MemoryLimits, OpenGate, SearchEnd, Setup, Worker, search};
use restricted_game::{ChildRows, Node, Restricted, StepEnd, StepFault};
use serial_ab::{SerialEnd, Visits, serial};
use sim_game::{Game, NoMemory, Side, opening_bound};
use std::alloc::Global;
use std::process::Abort;
use std::test::Fail;

// Bounds a state for both sides by serial searches over the whole range.
pub(crate) fn bound_state<G: Game, B: Bounds<G>>(
    alloc: Global,
    g: G,
    s: G::State,
    board: &mut B,
) -> Result<(SerialEnd, SerialEnd), BoardFault>
    requires game { (B.view board.old).game ≡ g }
    requires reachable { Reachable (G.model g) s }
    requires wide { opening_bound (G.model g) Side.One <ℤ opening_bound (G.model g) Side.Two }
    ensures later { IsLater (B.view board.old) (B.view board.new) }
{
    let window = (opening_bound(g, Side::One), opening_bound(g, Side::Two));
    let mut visits = Visits::new(1000);
    let lower = match serial(alloc, g, s, Side::One, window, &mut visits, board) {
        Ok(end) => end,
        Err(fault) => return Err(fault),
    };
    match serial(alloc, g, s, Side::Two, window, &mut visits, board) {
        Ok(upper) => Ok((lower, upper)),
        Err(fault) => Err(fault),
    }
}

// The state after a pair of moves.
pub(crate) fn after<G: Game>(g: G, s: G::State, one: u32, two: u32) -> G::State
    requires reachable { Reachable (G.model g) s }
    requires one { one < (G.model g).moves Side.One s }
    requires two { two < (G.model g).moves Side.Two s }
    ensures is { result ≡ (G.model g).drawn s one two 0 }
    ensures reachable { Reachable (G.model g) result }
    ensures lower { (G.model g).rank result < (G.model g).rank s }
{
    g.next(s, one, two)
}

// Bounds the states after the first pairs of moves of a game with two moves a side, from the first pair on, or from the
// last one backwards.
pub(crate) fn bound_pairs<G: Game, B: Bounds<G>>(
    rt: &impl Abort,
    alloc: Global,
    backwards: bool,
    board: &mut B,
)
    ensures { IsLater (B.view board.old) (B.view board.new) }
{
    let g = board.game();
    let root = g.root();
    assert!(rt; opening_bound(g, Side::One) < opening_bound(g, Side::Two));
    assert!(rt; g.moves(Side::One, root) == 2);
    assert!(rt; g.moves(Side::Two, root) == 2);
    for pair in 0..4 {
        let at: u32 = if backwards { 3 - pair } else { pair };
        let s = after(g, root, at / 2, at % 2);
        assert!(rt; bound_state(alloc, g, s, board).is_ok());
    }
}

// Makes a step at the root.
pub(crate) fn step_root<G: Game, B: Bounds<G>>(
    g: G,
    held: &mut Restricted,
    children: &mut ChildRows,
    board: &mut B,
    turns: &mut Turns,
    solver: &mut StageSolver,
) -> Result<StepEnd, StepFault>
    requires game { (B.view board.old).game ≡ g }
    requires children { AreChildRows (G.model g) (B.view board.old) (G.model g).root children.old }
    requires goes_on { 1 ≤ (G.model g).rank (G.model g).root }
    requires rows { held.old.most_rows ≡ (G.model g).moves Side.One (G.model g).root }
    requires cols { held.old.most_cols ≡ (G.model g).moves Side.Two (G.model g).root }
    ensures later { IsLater (B.view board.old) (B.view board.new) }
    ensures children { AreChildRows (G.model g) (B.view board.new) (G.model g).root children.new }
    ensures rows { held.new.most_rows ≡ held.old.most_rows }
    ensures cols { held.new.most_cols ≡ held.old.most_cols }
{
    let root = g.root();
    match board.claim(g.key(root)) {
        Ok(row) => {
            let node = Node { state: root, row };
            held.step(g, node, children, board, turns, solver)
        }
        Err(_) => Err(StepFault::Full),
    }
}

// Searches the root for a gap of nothing: how that ended, and how many turns it took.
pub(crate) fn search_root<G: Game, B: Bounds<G>>(
    alloc: Global,
    g: G,
    turns: u64,
    visits: u64,
    board: &mut B,
) -> Result<(SearchEnd, u64), NoMemory>
    requires game { (B.view board.old).game ≡ g }
    ensures later { IsLater (B.view board.old) (B.view board.new) }
{
    let setup = Setup {
        alloc,
        game: g,
        worker: 0,
        workers: 1,
        gate: &OpenGate,
    };
    let limits = MemoryLimits {
        searches: 1000,
        stages: SolverKind::Regret { kept: 1000 },
    };
    let mut worker = Worker::new(alloc, Turns::new(turns), Visits::new(visits), limits);
    match search(&setup, g.root(), 0, &mut worker, board) {
        Ok(end) => Ok((end, worker.turns().spent())),
        Err(_) => Err(NoMemory),
    }
}

// What the board has at the root.
pub(crate) fn root_bounds<G: Game, B: Bounds<G>>(
    rt: &impl Abort,
    g: G,
    board: &mut B,
) -> Option<(i64, i64)>
    requires game { (B.view board.old).game ≡ g }
    ensures later { IsLater (B.view board.old) (B.view board.new) }
{
    let root = g.root();
    assert!(rt; g.rank(root) >= 1);
    match board.claim(g.key(root)) {
        Ok(row) => {
            let found = board.read(row);
            Some((found.lower, found.upper))
        }
        Err(_) => None,
    }
}

// The third step of a game in which each side has two cards, after searches of the states after the first pairs of
// moves; and the moves that are held then.
fn third_step(
    rt: &impl Abort,
    alloc: Global,
    limit: u64,
) -> Result<(Result<StepEnd, StepFault>, Option<(i64, i64)>, Restricted), Fail> {
    let g = two_cards(rt);
    let root = g.root();
    assert!(rt; g.moves(Side::One, root) == 2);
    assert!(rt; g.moves(Side::Two, root) == 2);
    assert!(rt; g.rank(root) >= 1);
    let mut board = PlainBoard::new(alloc, g, 16, 65536)?;
    bound_pairs(rt, alloc, false, &mut board);
    let mut turns = Turns::new(limit);
    let mut held = Restricted::new(alloc, 2, 2, (0, 0))?;
    let mut children = ChildRows::new(alloc, g, root)?;
    let mut solver = StageSolver::new(SolverKind::Regret { kept: 10 });
    let first = step_root(
        g,
        &mut held,
        &mut children,
        &mut board,
        &mut turns,
        &mut solver,
    );
    let a_row = StepEnd::Grown {
        row: Some(1),
        col: None,
    };
    assert_eq!(rt; first, Ok(a_row));
    let second = step_root(
        g,
        &mut held,
        &mut children,
        &mut board,
        &mut turns,
        &mut solver,
    );
    let a_column = StepEnd::Grown {
        row: None,
        col: Some(1),
    };
    assert_eq!(rt; second, Ok(a_column));
    let third = step_root(
        g,
        &mut held,
        &mut children,
        &mut board,
        &mut turns,
        &mut solver,
    );
    let found = root_bounds(rt, g, &mut board);
    Ok((third, found, held))
}

#[test]
fn a_restricted_game_grows_to_the_whole(rt: HostRuntime) -> Result<(), Fail> {
    let (third, found, held) = third_step(&rt, rt.alloc(), 3)?;
    assert_eq!(rt;
        third,
        Ok(StepEnd::Done {
            lower: -500000,
            upper: -500000
        })
    );
    assert_eq!(rt; found, Some((-500000, -500000)));
    assert_eq!(rt; held.rows(), [0, 1].as_slice());
    assert_eq!(rt; held.cols(), [0, 1].as_slice());
    Ok(())
}

#[test]
fn a_step_without_a_turn_changes_nothing(rt: HostRuntime) -> Result<(), Fail> {
    let (third, found, held) = third_step(&rt, rt.alloc(), 2)?;
    assert_eq!(rt; third, Err(StepFault::Spent));
    assert_eq!(rt; found, Some((-1000000, 0)));
    assert_eq!(rt; held.rows(), [0, 1].as_slice());
    assert_eq!(rt; held.cols(), [0, 1].as_slice());
    Ok(())
}

#[test]
fn a_search_leaves_most_states_out(rt: HostRuntime) -> Result<(), Fail> {
    let g = four_cards(&rt);
    let mut board = PlainBoard::new(rt.alloc(), g, 48, 65536)?;
    let (end, _turns) = search_root(rt.alloc(), g, 1000, 0, &mut board)?;
    assert_eq!(rt; end, SearchEnd::Reached, "69 states are no ends");
    assert_eq!(rt; root_bounds(&rt, g, &mut board), Some((4000000, 4000000)));
    Ok(())
}
