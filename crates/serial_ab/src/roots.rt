//! The serial bounds of a whole game.
ghost use Rattle.std.specs.Prelude.{◌≡◌, ◌≤◌, IfOk};
ghost use Rattle.sums.specs.declared.TheConstants.{LEAST_WEIGHT, MOST_WEIGHT};
ghost use Rattle.sim_game.specs.declared.Side.TheVariants.{One, Two};
ghost use Rattle.sim_game.specs.declared.TheConstants.{MOST_ROWS};
ghost use Rattle.sim_game.specs.Model.{LeadsTo};
ghost use Rattle.sim_game.specs.Resolution.{IsFineWeight};
ghost use Rattle.plan_book.specs.Serial.{tree_size};
ghost use Rattle.bounds_board.specs.Views.{WasFull};
ghost use Rattle.serial_ab.specs.Counts.{left_on, IsCut, HasCounted};
ghost use Rattle.serial_ab.specs.Parts.{IsSearchedAt};
ghost use Rattle.serial_ab.specs.Searches.{EndsWith, IsSerialKept};
ghost use Rattle.serial_ab.specs.Transpositions.{AreRemembered};
ghost use Rattle.serial_ab.specs.Roots.{IsSearchable, IsRootValue, IsRootEnd};

use crate::interrupt::NoInterrupt;
use crate::search::search_state;
use crate::stop::SerialStop;
use crate::task::{SerialTask, SerialWorker, Window};
use crate::transpositions::{TABLE_LIMIT, TranspositionTable};
use crate::visits::Visits;
use bounds_board::{Bounds, PlainBoard};
use sim_game::{Game, NoMemory, Side, end_bound, opening_bound, state_bound};
use std::alloc::Global;
use std::mem;

/// What the serial searches of a root found, One's first.
#[derive(Clone, Copy, PartialEq, Eq, Debug, Drop)]
pub enum RootEnd {
    /// Both serial bounds, in millionths of a payoff.
    Found { lower: i64, upper: i64 },
    /// The search of the side came to a state with no visit left.
    Cut { side: Side },
    /// A search came to a state that has no row on the full board.
    Full,
}

/// The serial bounds of the root, by a search for One and one for Two over a plain board of 1 to `MOST_ROWS` rows. Where
/// the root is an end, or all that can be got from it is one number, there is no search and no visit. Without an answer
/// only for want of memory.
pub fn root_bounds<G: Game>(
    alloc: Global,
    g: G,
    rows: u32,
    total: u32,
    visits: &mut Visits,
) -> Result<RootEnd, NoMemory>
    requires rows_low { 1 ≤ rows }
    requires rows_high { rows ≤ MOST_ROWS }
    requires total_low { LEAST_WEIGHT ≤ total }
    requires total_fine { IsFineWeight (G.model g) total }
    requires total_high { total ≤ MOST_WEIGHT }
    ensures ends { IfOk result (IsRootEnd (G.model g) rows visits.old visits.new) }
    ensures counted { HasCounted visits.old visits.new }
{
    if g.rank(g.root()) == 0 {
        let value = end_bound(g, g.root());
        return Ok(RootEnd::Found {
            lower: value,
            upper: value,
        });
    }
    let low = state_bound(g, Side::One, g.root());
    if low == state_bound(g, Side::Two, g.root()) {
        return Ok(RootEnd::Found {
            lower: low,
            upper: low,
        });
    }
    match PlainBoard::new(alloc, g, rows, total) {
        Ok(mut board) => search_both(alloc, g, visits, &mut board),
        Err(_) => Err(NoMemory),
    }
}

/// Searches the root for One, then for Two.
fn search_both<G: Game, B: Bounds<G>>(
    alloc: Global,
    g: G,
    visits: &mut Visits,
    board: &mut B,
) -> Result<RootEnd, NoMemory>
    requires game { (B.view board.old).game ≡ g }
    requires searched { IsSearchable (G.model g) }
    ensures ends { IfOk result (IsRootEnd (G.model g) (B.view board.old).rows visits.old visits.new) }
    ensures counted { HasCounted visits.old visits.new }
{
    let table = TranspositionTable::new(alloc, TABLE_LIMIT);
    let mine = mem::replace(visits, Visits::new(0));
    let mut worker = SerialWorker::new(alloc, mine, table);
    let end = search_sides(g, &mut worker, board);
    *visits = worker.visits;
    end
}

/// Searches the root for One, then for Two, with one table.
fn search_sides<G: Game, B: Bounds<G>>(
    g: G,
    worker: &mut SerialWorker,
    board: &mut B,
) -> Result<RootEnd, NoMemory>
    requires here { IsSearchedAt (G.model g) g (B.view board.old) worker.old.table (G.model g).root }
    requires searched { IsSearchable (G.model g) }
    ensures ends { IfOk result (IsRootEnd (G.model g) (B.view board.old).rows worker.old.visits worker.new.visits) }
    ensures counted { HasCounted worker.old.visits worker.new.visits }
{
    match search_root(g, Side::One, worker, board) {
        Ok(lower) => match search_root(g, Side::Two, worker, board) {
            Ok(upper) => Ok(RootEnd::Found { lower, upper }),
            Err(SerialStop::Cut) => Ok(RootEnd::Cut { side: Side::Two }),
            Err(SerialStop::Full) => Ok(RootEnd::Full),
            Err(SerialStop::NoMemory) => Err(NoMemory),
        },
        Err(SerialStop::Cut) => Ok(RootEnd::Cut { side: Side::One }),
        Err(SerialStop::Full) => Ok(RootEnd::Full),
        Err(SerialStop::NoMemory) => Err(NoMemory),
    }
}

/// The serial bound of the root for a side.
fn search_root<G: Game, B: Bounds<G>>(
    g: G,
    side: Side,
    worker: &mut SerialWorker,
    board: &mut B,
) -> Result<i64, SerialStop>
    requires here { IsSearchedAt (G.model g) g (B.view board.old) worker.old.table (G.model g).root }
    requires searched { IsSearchable (G.model g) }
    ensures kept { IsSerialKept (G.model g) side (tree_size (G.model g) (G.model g).root)
        (B.view board.old) (B.view board.new) worker.old.visits worker.new.visits }
    ensures remembered { AreRemembered (G.model g) (B.view board.new) worker.new.table }
    ensures ends { EndsWith (IsRootValue (G.model g) side worker.old.visits worker.new.visits)
        (IsCut side (tree_size (G.model g) (G.model g).root) worker.old.visits worker.new.visits)
        ((1 ≤ left_on side worker.old.visits)
        × WasFull (G.model g) (B.view board.new) (LeadsTo (G.model g) (G.model g).root)) result }
{
    let range = Window {
        worse: opening_bound(g, side),
        better: opening_bound(g, side.other()),
    };
    let task = SerialTask {
        alloc: worker.alloc,
        game: g,
        side,
        interrupt: &NoInterrupt,
        may_stop: false,
    };
    search_state(&task, g.root(), None, range, worker, board)
}
