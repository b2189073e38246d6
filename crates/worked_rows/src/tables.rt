//! Serial searches with a table of what was searched before.
ghost use Rattle.std.specs.Prelude.{◌≡◌, ◌≤◌, ◌<ℤ◌, [], min};
ghost use Rattle.sim_game.specs.declared.Side.{Side};
ghost use Rattle.sim_game.specs.Sides.{opening_bound};
ghost use Rattle.bounds_board.specs.Views.{IsLater};
ghost use Rattle.serial_ab.specs.Transpositions.{AreRemembered};

use crate::games::cards_to_four;
use bounds_board::{BoardFault, Bounds, PlainBoard};
use serial_ab::{
    NoInterrupt, SerialEnd, SerialTask, SerialWorker, TranspositionTable, Visits, serial_with,
};
use sim_game::{Game, Side, opening_bound};
use std::alloc::Global;
use std::test::Fail;

// Searches the root for a side over the whole range, with so many visits, and nothing stops it: how that ended, and the
// visits that it took.
fn search_root<G: Game, B: Bounds<G>>(
    alloc: Global,
    g: G,
    side: Side,
    limit: u64,
    worker: &mut SerialWorker,
    board: &mut B,
) -> Result<(SerialEnd, u64), BoardFault>
    requires game { (B.view board.old).game ≡ g }
    requires goes_on { 1 ≤ (G.model g).rank (G.model g).root }
    requires wide { opening_bound (G.model g) Side.One <ℤ opening_bound (G.model g) Side.Two }
    requires remembered { AreRemembered (G.model g) (B.view board.old) worker.old.table }
    ensures later { IsLater (B.view board.old) (B.view board.new) }
    ensures remembered { AreRemembered (G.model g) (B.view board.new) worker.new.table }
{
    let root = g.root();
    let window = (opening_bound(g, Side::One), opening_bound(g, Side::Two));
    worker.visits = Visits::new(limit);
    let row = match board.claim(g.key(root)) {
        Ok(row) => row,
        Err(_) => return Err(BoardFault::Full),
    };
    let task = SerialTask {
        alloc,
        game: g,
        side,
        interrupt: &NoInterrupt,
        may_stop: false,
    };
    match serial_with(&task, root, row, window, worker, board) {
        Ok(end) => Ok((end, worker.visits.spent(side))),
        Err(fault) => Err(fault),
    }
}

// A worker whose table may hold so many searches.
fn worker_with(alloc: Global, limit: usize) -> SerialWorker
    ensures { result.table ≡ record { limit = min limit 262144; stored = [] } }
{
    SerialWorker::new(alloc, Visits::new(0), TranspositionTable::new(alloc, limit))
}

#[test]
fn a_table_tells_what_was_searched(rt: HostRuntime) -> Result<(), Fail> {
    let g = cards_to_four(&rt);
    let alloc = rt.alloc();
    assert!(rt; g.rank(g.root()) >= 1);
    assert!(rt; opening_bound(g, Side::One) < opening_bound(g, Side::Two));
    let mut board = PlainBoard::new(alloc, g, 1024, 8192)?;
    let mut worker = worker_with(alloc, 1000);
    let (first, spent) = search_root(alloc, g, Side::One, 100000, &mut worker, &mut board)?;
    let kept = worker.table.len();
    assert!(rt;
        kept >= 2,
        "{kept} searches of states of three turns and more"
    );
    let again = search_root(alloc, g, Side::One, spent, &mut worker, &mut board)?;
    assert_eq!(rt; again, (first, spent));
    let few = spent.saturating_sub(1);
    let cut = search_root(alloc, g, Side::One, few, &mut worker, &mut board)?;
    assert_eq!(rt; cut, (SerialEnd::Cut, few));
    assert_eq!(rt; worker.table.len(), kept);
    Ok(())
}

#[test]
fn a_small_table_changes_no_answer(rt: HostRuntime) -> Result<(), Fail> {
    let g = cards_to_four(&rt);
    let alloc = rt.alloc();
    assert!(rt; g.rank(g.root()) >= 1);
    assert!(rt; opening_bound(g, Side::One) < opening_bound(g, Side::Two));
    let mut board = PlainBoard::new(alloc, g, 1024, 8192)?;
    let mut worker = worker_with(alloc, 1000);
    let want = search_root(alloc, g, Side::Two, 100000, &mut worker, &mut board)?;
    for limit in 0..2 {
        let mut board = PlainBoard::new(alloc, g, 1024, 8192)?;
        let mut worker = worker_with(alloc, limit);
        let found = search_root(alloc, g, Side::Two, 100000, &mut worker, &mut board)?;
        assert_eq!(rt; found, want);
        assert_eq!(rt; worker.table.len(), limit);
    }
    Ok(())
}
