//! The bounds of a state by pure plans.

ghost use Rattle.std.specs.Prelude.{◌≡◌, ◌⊎◌, ◌≤◌, ◌<ℤ◌, Some, Err, false, IsTrue, IfSome, IfOk};
ghost use Rattle.sim_game.specs.Sides.{other_side, IsNoTighter, opening_bound};
ghost use Rattle.sim_game.specs.declared.Side.{Side};
ghost use Rattle.plan_book.specs.Serial.{serial_bound, tree_size};
ghost use Rattle.bounds_board.specs.Views.{known_bound};
ghost use Rattle.serial_ab.specs.Counts.{left_on};
ghost use Rattle.oracle_search.specs.Workers.{at_work};
ghost use Rattle.oracle_search.specs.Searches.{IsAtRow, HasVisitsBelow, IsPureTight, IsWorked, IsBoardFull};
ghost use Rattle.oracle_search.specs.Searches.{IsAhead, number_in, IsFoundBelow, IsFoundAbove};

use crate::gate::Gate;
use crate::worker::{Setup, Worker};
use bounds_board::{BoardFault, Bounds, Enclosure, Row, known_bounds};
use serial_ab::{SerialEnd, SerialTask, serial_with};
use sim_game::{Game, Side, opening_bound};

/// Bounds the state for one side, by a serial search over the whole range of payoffs. The answer is the number that it
/// found, or none where it was cut, for want of visits or since the gate stopped it.
fn bound_side<G: Game, B: Bounds<G>, T: Gate>(
    setup: &Setup<'_, G, T>,
    s: G::State,
    row: Row,
    side: Side,
    worker: &mut Worker,
    board: &mut B,
) -> Result<Option<i64>, BoardFault>
    requires here { IsAtRow (G.model setup.now.game) setup.now.game s (Some row)
        (at_work (B.view board.old) worker.old) }
    requires wide { opening_bound (G.model setup.now.game) Side.One <ℤ opening_bound (G.model setup.now.game) Side.Two }
    ensures worked { IsWorked (G.model setup.now.game) s
        (at_work (B.view board.old) worker.old) (at_work (B.view board.new) worker.new) }
    ensures same { worker.new ≡ record worker.old { visits = worker.new.visits; searches = worker.new.searches } }
    ensures other { left_on (other_side side) worker.new.visits ≡ left_on (other_side side) worker.old.visits }
    ensures full { result ≡ Err BoardFault.Full → IsBoardFull (G.model setup.now.game) s (B.view board.new) }
    ensures found { IfOk result (λ n. IfSome n (λ x. x ≡ serial_bound (G.model setup.now.game) side s)) }
    ensures tight { worker.old.turns.may_stop ≡ false
        → tree_size (G.model setup.now.game) s ≤ left_on side worker.old.visits
        → IfOk result (λ _. IsNoTighter side (serial_bound (G.model setup.now.game) side s)
        (known_bound (G.model setup.now.game) (B.view board.new) side s)) }
{
    let g = setup.game;
    let range = (opening_bound(g, Side::One), opening_bound(g, Side::Two));
    let task = SerialTask {
        alloc: setup.alloc,
        game: g,
        side,
        interrupt: setup,
        may_stop: worker.turns.may_stop(),
    };
    let end = serial_with(&task, s, row, range, &mut worker.serial, board)?;
    Ok(number_in(end))
}

/// The number that a serial search found, unless it was cut.
fn number_in(end: SerialEnd) -> Option<i64>
    ensures { result ≡ number_in end }
{
    match end {
        SerialEnd::Exact { value } | SerialEnd::AtLeast { value } | SerialEnd::AtMost { value } => {
            Some(value)
        }
        SerialEnd::Cut => None,
    }
}

/// Whether these bounds are tighter than the numbers that the serial searches of both sides found.
fn is_ahead(enclosure: Enclosure, lower: Option<i64>, upper: Option<i64>) -> bool
    ensures { IsTrue result → IsFoundBelow lower enclosure.lower ⊎ IsFoundAbove upper enclosure.upper }
{
    match (lower, upper) {
        (Some(lower), Some(upper)) => enclosure.lower > lower || enclosure.upper < upper,
        _ => false,
    }
}

/// Bounds the state for One, and for Two where its bounds still differ. The answer is whether both searches found a
/// number and the board shows more than these: then another worker has searched the state.
pub(crate) fn bound_state<G: Game, B: Bounds<G>, T: Gate>(
    setup: &Setup<'_, G, T>,
    s: G::State,
    row: Row,
    worker: &mut Worker,
    board: &mut B,
) -> Result<bool, BoardFault>
    requires here { IsAtRow (G.model setup.now.game) setup.now.game s (Some row)
        (at_work (B.view board.old) worker.old) }
    requires wide { opening_bound (G.model setup.now.game) Side.One <ℤ opening_bound (G.model setup.now.game) Side.Two }
    ensures worked { IsWorked (G.model setup.now.game) s
        (at_work (B.view board.old) worker.old) (at_work (B.view board.new) worker.new) }
    ensures same { worker.new ≡ record worker.old { visits = worker.new.visits; searches = worker.new.searches } }
    ensures full { result ≡ Err BoardFault.Full → IsBoardFull (G.model setup.now.game) s (B.view board.new) }
    ensures ahead { IfOk result (λ is_ahead. IsTrue is_ahead → IsAhead (G.model setup.now.game) s (B.view board.new)) }
    ensures tight { HasVisitsBelow (G.model setup.now.game) s worker.old.turns worker.old.visits
        → IfOk result (λ _. IsPureTight (G.model setup.now.game) s (B.view board.new)) }
{
    let lower = bound_side(setup, s, row, Side::One, worker, board)?;
    let enclosure = known_bounds(setup.game, s, row, board);
    if enclosure.lower == enclosure.upper {
        return Ok(false);
    }
    let upper = bound_side(setup, s, row, Side::Two, worker, board)?;
    let last = known_bounds(setup.game, s, row, board);
    Ok(is_ahead(last, lower, upper))
}
