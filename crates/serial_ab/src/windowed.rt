//! The serial search and how it ends.
ghost use Rattle.std.specs.Prelude.{◌≡◌, ◌≤◌, Some, false, IfSome};
ghost use Rattle.sim_game.specs.Model.{Reachable};
ghost use Rattle.sim_game.specs.Sides.{IsNoTighter, opening_bound};
ghost use Rattle.serial_ab.specs.Ends.{IsPlaced, IsPayoffWindow, worse_end, better_end};
ghost use Rattle.serial_ab.specs.Serials.{IsSerialEnd};
ghost use Rattle.serial_ab.specs.Parts.{IsSearchedAt};
ghost use Rattle.serial_ab.specs.Searches.{IsOpened};
ghost use Rattle.serial_ab.specs.Transpositions.{AreRemembered};

use crate::interrupt::{Interrupt, NoInterrupt};
use crate::search::search_state;
use crate::stop::SerialStop;
use crate::task::{SerialTask, SerialWorker, Window};
use crate::transpositions::{TABLE_LIMIT, TranspositionTable};
use crate::visits::Visits;
use bounds_board::{BoardFault, Bounds, Row};
use sim_game::{Game, Side};
use std::alloc::Global;
use std::mem;

/// What a serial search found: the value, a bound of it outside the window, or nothing, for want of visits or since it was
/// stopped.
#[derive(Clone, Copy, PartialEq, Eq, Debug, Drop)]
pub enum SerialEnd {
    Exact { value: i64 },
    AtLeast { value: i64 },
    AtMost { value: i64 },
    Cut,
}

/// Searches the game in which the side discloses each move first, and posts the steps that it proves. The window has
/// its lower end first, in millionths of a payoff. Without an answer where the board is full, or out of memory.
pub fn serial<G: Game, B: Bounds<G>>(
    alloc: Global,
    g: G,
    s: G::State,
    side: Side,
    window: (i64, i64),
    visits: &mut Visits,
    board: &mut B,
) -> Result<SerialEnd, BoardFault>
    requires game { (B.view board.old).game ≡ g }
    requires reachable { Reachable (G.model g) s }
    requires window { IsPayoffWindow (G.model g) window.0 window.1 }
    ensures ends { IsSerialEnd (G.model g) false side s window.0 window.1
        (B.view board.old) (B.view board.new) visits.old visits.new result }
{
    let table = TranspositionTable::new(alloc, TABLE_LIMIT);
    let mine = mem::replace(visits, Visits::new(0));
    let mut worker = SerialWorker::new(alloc, mine, table);
    let task = SerialTask {
        alloc,
        game: g,
        side,
        interrupt: &NoInterrupt,
        may_stop: false,
    };
    let end = search_window(&task, s, None, window, &mut worker, board);
    *visits = worker.visits;
    end
}

/// `serial` of a state that is no end and has this row, with what was searched before over the same board: the worker's
/// table, which takes what is searched now; and it may be stopped. What holds of `serial` holds of it, but
/// for why it was cut. That an answer of the table counts just the visits of the search that it stands for is only tested.
pub fn serial_with<G: Game, I: Interrupt, B: Bounds<G>>(
    task: &SerialTask<'_, G, I>,
    s: G::State,
    row: Row,
    window: (i64, i64),
    worker: &mut SerialWorker,
    board: &mut B,
) -> Result<SerialEnd, BoardFault>
    requires game { (B.view board.old).game ≡ task.now.game }
    requires remembered { AreRemembered (G.model task.now.game) (B.view board.old) worker.old.table }
    requires reachable { Reachable (G.model task.now.game) s }
    requires goes_on { 1 ≤ (G.model task.now.game).rank s }
    requires row { (B.view board.old).key_at row ≡ Some ((G.model task.now.game).key s) }
    requires opened { IsNoTighter task.now.side (opening_bound (G.model task.now.game) task.now.side)
        ((B.view board.old).seen task.now.side ((G.model task.now.game).key s)) }
    requires window { IsPayoffWindow (G.model task.now.game) window.0 window.1 }
    ensures remembered { AreRemembered (G.model task.now.game) (B.view board.new) worker.new.table }
    ensures same_limit { worker.new.table.limit ≡ worker.old.table.limit }
    ensures ends { IsSerialEnd (G.model task.now.game) task.now.may_stop task.now.side s window.0 window.1
        (B.view board.old) (B.view board.new) worker.old.visits worker.new.visits result }
{
    search_window(task, s, Some(row), window, worker, board)
}

/// Searches a state whose row may be known.
fn search_window<G: Game, I: Interrupt, B: Bounds<G>>(
    task: &SerialTask<'_, G, I>,
    s: G::State,
    known: Option<Row>,
    window: (i64, i64),
    worker: &mut SerialWorker,
    board: &mut B,
) -> Result<SerialEnd, BoardFault>
    requires here { IsSearchedAt (G.model task.now.game) task.now.game (B.view board.old) worker.old.table s }
    requires known { IfSome known (IsOpened (G.model task.now.game) task.now.side s (B.view board.old)) }
    requires window { IsPayoffWindow (G.model task.now.game) window.0 window.1 }
    ensures remembered { AreRemembered (G.model task.now.game) (B.view board.new) worker.new.table }
    ensures same_limit { worker.new.table.limit ≡ worker.old.table.limit }
    ensures ends { IsSerialEnd (G.model task.now.game) task.now.may_stop task.now.side s window.0 window.1
        (B.view board.old) (B.view board.new) worker.old.visits worker.new.visits result }
{
    let ends = Window {
        worse: worse(task.side, window.0, window.1),
        better: better(task.side, window.0, window.1),
    };
    match search_state(task, s, known, ends, worker, board) {
        Ok(value) => Ok(placed(window.0, window.1, value)),
        Err(SerialStop::Cut) => Ok(SerialEnd::Cut),
        Err(SerialStop::Full) => Err(BoardFault::Full),
        Err(SerialStop::NoMemory) => Err(BoardFault::NoMemory),
    }
}

fn worse(side: Side, low: i64, high: i64) -> i64
    ensures { result ≡ worse_end side low high }
{
    match side {
        Side::One => low,
        Side::Two => high,
    }
}

fn better(side: Side, low: i64, high: i64) -> i64
    ensures { result ≡ better_end side low high }
{
    match side {
        Side::One => high,
        Side::Two => low,
    }
}

/// Where the number lies against the window.
fn placed(low: i64, high: i64, value: i64) -> SerialEnd
    ensures { IsPlaced low high value result }
{
    if value >= high {
        SerialEnd::AtLeast { value }
    } else if value <= low {
        SerialEnd::AtMost { value }
    } else {
        SerialEnd::Exact { value }
    }
}
