use crate::chance::OneInThree;
use crate::steps::{bound_state, search_root, step_root};
use bounds_board::PlainBoard;
use matrix_game::{SolverKind, StageSolver, Turns};
use oracle_search::SearchEnd;
use restricted_game::{ChildRows, Restricted, StepEnd};
use serial_ab::SerialEnd;
use sim_game::{Game, Side, opening_bound, resolution};
use std::test::Fail;

#[test]
fn a_mean_is_rounded_for_each_side(rt: HostRuntime) -> Result<(), Fail> {
    let g = OneInThree;
    assert!(rt; opening_bound(g, Side::One) < opening_bound(g, Side::Two));
    let mut board = PlainBoard::new(rt.alloc(), g, 1, 8192)?;
    let (lower, upper) = bound_state(rt.alloc(), g, g.root(), &mut board)?;
    assert_eq!(rt; lower, SerialEnd::Exact { value: 333333 });
    assert_eq!(rt; upper, SerialEnd::Exact { value: 333334 });
    Ok(())
}

#[test]
fn a_step_rounds_for_each_side(rt: HostRuntime) -> Result<(), Fail> {
    let g = OneInThree;
    let mut board = PlainBoard::new(rt.alloc(), g, 1, 8192)?;
    let mut held = Restricted::new(rt.alloc(), 1, 1, (0, 0))?;
    let mut children = ChildRows::new(rt.alloc(), g, g.root())?;
    let end = step_root(
        g,
        &mut held,
        &mut children,
        &mut board,
        &mut Turns::new(1),
        &mut StageSolver::new(SolverKind::Regret { kept: 1 }),
    );
    let want = StepEnd::Done {
        lower: 333333,
        upper: 333334,
    };
    assert_eq!(rt; end, Ok(want));
    Ok(())
}

#[test]
fn a_search_settles_above_a_gap_of_nothing(rt: HostRuntime) -> Result<(), Fail> {
    let g = OneInThree;
    let mut board = PlainBoard::new(rt.alloc(), g, 1, 8192)?;
    let (end, turns) = search_root(rt.alloc(), g, 1, 1000, &mut board)?;
    assert_eq!(rt; end, SearchEnd::Settled);
    assert_eq!(rt; turns, 1);
    assert_eq!(rt; resolution(g, 8192), 15627);
    Ok(())
}
