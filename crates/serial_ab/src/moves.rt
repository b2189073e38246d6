//! Steps by one move.
ghost use Rattle.std.specs.Prelude.{◌≡◌, ◌<◌, ◌≤◌, Some, OnOk, OnErr, IfOk};
ghost use Rattle.sim_game.specs.Sides.{IsNoTighter};
ghost use Rattle.plan_book.specs.Plans.{one_move};
ghost use Rattle.plan_book.specs.Books.{Grows};
ghost use Rattle.plan_book.specs.Entries.{IsPureEntry};
ghost use Rattle.bounds_board.specs.Views.{IsLater, known_bound};
ghost use Rattle.serial_ab.specs.Searches.{IsMoveStep};
ghost use Rattle.serial_ab.specs.Parts.{IsInnerState};

use crate::interrupt::Interrupt;
use crate::stop::SerialStop;
use crate::task::SerialTask;
use bounds_board::{Bounds, Row, known_bounds};
use plan_book::Entry;
use seq::Seq;
use sim_game::Game;
use std::alloc::Global;

/// All of the total on one move.
pub(crate) fn pure_weights(
    alloc: Global,
    total: u32,
    count: u32,
    place: u32,
) -> Result<Vec<u32>, SerialStop>
    requires { place < count }
    ensures ok { IfOk result (λ w. w.items ≡ one_move total count place) }
    ensures err { OnErr result (result ≡ Err SerialStop.NoMemory) }
{
    match Vec::from_elem(alloc, 0, count as usize) {
        Ok(mut weights) => {
            weights[place as usize] = total;
            Ok(weights)
        }
        Err(_) => Err(SerialStop::NoMemory),
    }
}

/// Posts the step by one move over the numbers at its children, where its bound is tighter than what is known of the state.
pub(crate) fn post_move<G: Game, I: Interrupt, B: Bounds<G>>(
    task: &SerialTask<'_, G, I>,
    s: G::State,
    row: Row,
    own: u32,
    bound: i64,
    board: &mut B,
) -> Result<(), SerialStop>
    requires here { IsInnerState (G.model task.now.game) task.now.game (B.view board.old) s }
    requires row { (B.view board.old).key_at row ≡ Some ((G.model task.now.game).key s) }
    requires step { IsMoveStep (G.model task.now.game) task.now.side s own (B.view board.old) bound }
    ensures later { IsLater (B.view board.old) (B.view board.new) }
    ensures posted { Grows (IsPureEntry (G.model task.now.game) (B.view board.old).total)
        (B.view board.old).entries (B.view board.new).entries }
    ensures seen { OnOk result (IsNoTighter task.now.side bound
        (known_bound (G.model task.now.game) (B.view board.new) task.now.side s)) }
    ensures err { OnErr result (result ≡ Err SerialStop.NoMemory) }
{
    let known = known_bounds(task.game, s, row, board).of(task.side);
    if !task.side.is_tighter(bound, known) {
        return Ok(());
    }
    let weights = pure_weights(
        task.alloc,
        board.total(),
        task.game.moves(task.side, s),
        own,
    )?;
    let e = Entry {
        key: task.game.key(s),
        side: task.side,
        bound,
        weights: Seq::from_vec(weights),
    };
    match board.post(row, e) {
        Ok(()) => Ok(()),
        Err(_) => Err(SerialStop::NoMemory),
    }
}
