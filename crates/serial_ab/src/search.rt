//! The search: a state, its moves, a move, a pair of moves, its draws.
ghost use Rattle.std.specs.Prelude.{◌≡◌, ◌+◌, ◌*◌, ◌<◌, ◌≤◌, ℤ, ◌+ℤ◌, ◌-ℤ◌, unsigned_abs, Some, Err, true, IsTrue, IfSome, IfOk, OnOk, OnErr};
ghost use Rattle.sums.specs.declared.TheConstants.{MOST_BOUND, MOST_REWARD};
ghost use Rattle.sim_game.specs.declared.TheConstants.{MOST_TURNS};
ghost use Rattle.sim_game.specs.Model.{LeadsTo};
ghost use Rattle.sim_game.specs.Sides.{other_side, opening_bound, move_of_one, move_of_two, draws_of, IsTighter};
ghost use Rattle.plan_book.specs.Serial.{tree_size};
ghost use Rattle.serial_ab.specs.Counts.{spent_on, left_on, Counts, IsCut};
ghost use Rattle.serial_ab.specs.Values.{pair_nodes, move_nodes, inner_nodes};
ghost use Rattle.bounds_board.specs.Views.{IsLater, WasFull};
ghost use Rattle.serial_ab.specs.Parts.{IsSearchedAt, IsSearchedBelow, IsInnerState, IsPart};
ghost use Rattle.serial_ab.specs.Searches.{IsWindow, IsFound, IsOpened, IsMoveFound, IsPairFound};

use crate::interrupt::Interrupt;
use crate::moves::post_move;
use crate::stop::SerialStop;
use crate::task::{SerialTask, SerialWorker, Window};
use crate::transpositions::{Memo, Query};
use crate::visits::Visits;
use bounds_board::{Bounds, Row};
use sim_game::{CHANCE, Game, Side, end_bound, opening_bound, state_bound, turn_reward};

/// The least rank of a state whose search is stored. Below it a search is cheaper than a look-up.
const STORED_RANK: u32 = 3;

/// So many states are entered, some half a millisecond, before the interrupt is asked again.
const BETWEEN_ASKS: u32 = 4096;

/// The number of a state. Its row is claimed where it is not known. Most states are ends, and cost no call.
#[cycle(serial)]
#[inline(always)]
pub(crate) fn search_state<G: Game, I: Interrupt, B: Bounds<G>>(
    task: &SerialTask<'_, G, I>,
    s: G::State,
    known: Option<Row>,
    window: Window,
    worker: &mut SerialWorker,
    board: &mut B,
) -> Result<i64, SerialStop>
    requires here { IsSearchedAt (G.model task.now.game) task.now.game (B.view board.old) worker.old.table s }
    requires known { IfSome known (IsOpened (G.model task.now.game) task.now.side s (B.view board.old)) }
    requires window { IsWindow (G.model task.now.game) task.now.side s window.worse window.better }
    ensures ends { IsPart (G.model task.now.game) task.now.may_stop task.now.side s
        (tree_size (G.model task.now.game) s)
        (IsFound (G.model task.now.game) task.now.side s window.worse window.better (B.view board.new))
        (B.view board.old) (B.view board.new) worker.old worker.new result }
    ensures none_left { left_on task.now.side worker.old.visits ≡ 0 → result ≡ Err SerialStop.Cut }
    ensures entered { 1 ≤ left_on task.now.side worker.old.visits
        → spent_on task.now.side worker.old.visits + 1 ≤ spent_on task.now.side worker.new.visits }
    ensures below { 1 ≤ (G.model task.now.game).rank s
        → OnOk result (spent_on task.now.side worker.old.visits + 2 ≤ spent_on task.now.side worker.new.visits) }
{
    if worker.visits.left(task.side) == 0 {
        return Err(SerialStop::Cut);
    }
    worker.visits.spend(task.side);
    if is_stopped(task, &mut worker.unasked) {
        return Err(SerialStop::Cut);
    }
    if task.game.rank(s) == 0 {
        return Ok(end_bound(task.game, s));
    }
    match row_of(task, s, known, board) {
        Ok(row) => search_inner(task, s, row, window, worker, board),
        Err(stop) => Err(stop),
    }
}

/// Whether the search is stopped. The interrupt is asked now and then, at a state that is entered: `unasked` counts the
/// states since.
fn is_stopped<G: Game, I: Interrupt>(task: &SerialTask<'_, G, I>, unasked: &mut u32) -> bool
    ensures { IsTrue result → task.now.may_stop ≡ true }
{
    if *unasked < BETWEEN_ASKS {
        *unasked += 1;
        return false;
    }
    *unasked = 0;
    task.may_stop && task.interrupt.is_raised()
}

/// The number of a state that is no end. Where a search of it with the same window was stored, its number is the
/// answer, for the visits that it took.
#[cycle(serial)]
#[inline(never)]
fn search_inner<G: Game, I: Interrupt, B: Bounds<G>>(
    task: &SerialTask<'_, G, I>,
    s: G::State,
    row: Row,
    window: Window,
    worker: &mut SerialWorker,
    board: &mut B,
) -> Result<i64, SerialStop>
    requires here { IsSearchedBelow (G.model task.now.game) task.now.game (B.view board.old) worker.old.table s }
    requires row { IsOpened (G.model task.now.game) task.now.side s (B.view board.old) row }
    requires window { IsWindow (G.model task.now.game) task.now.side s window.worse window.better }
    ensures { IsPart (G.model task.now.game) task.now.may_stop task.now.side s
        (inner_nodes (G.model task.now.game) task.now.side s)
        (IsFound (G.model task.now.game) task.now.side s window.worse window.better (B.view board.new))
        (B.view board.old) (B.view board.new) worker.old worker.new result }
{
    if task.game.rank(s) < STORED_RANK {
        return search_moves(task, s, row, window, worker, board);
    }
    let query = Query {
        key: task.game.key(s),
        side: task.side,
        worse: window.worse,
        better: window.better,
    };
    match worker.table.probe(&query) {
        Some(memo) => recall(task.side, &memo, &mut worker.visits),
        None => {
            let before = worker.visits.spent(task.side);
            let number = search_moves(task, s, row, window, worker, board)?;
            let spent = worker.visits.spent(task.side) - before;
            worker.table.store(
                &query,
                &Memo {
                    number,
                    visits: spent,
                },
            );
            Ok(number)
        }
    }
}

/// The answer of a stored search: its number for its visits, or a cut where fewer are left.
fn recall(side: Side, memo: &Memo, visits: &mut Visits) -> Result<i64, SerialStop>
    ensures counts { Counts side memo.now.visits visits.old visits.new }
    ensures ok { IfOk result (λ x. x ≡ memo.now.number) }
    ensures spent { OnOk result (spent_on side visits.new ≡ spent_on side visits.old + memo.now.visits) }
    ensures cut { OnErr result (IsCut side memo.now.visits visits.old visits.new) }
    ensures err { OnErr result (result ≡ Err SerialStop.Cut) }
{
    if visits.spend_all(side, memo.visits) {
        Ok(memo.number)
    } else {
        Err(SerialStop::Cut)
    }
}

/// The row of a state that is no end: the known one, or one that is claimed.
fn row_of<G: Game, I: Interrupt, B: Bounds<G>>(
    task: &SerialTask<'_, G, I>,
    s: G::State,
    known: Option<Row>,
    board: &mut B,
) -> Result<Row, SerialStop>
    requires here { IsInnerState (G.model task.now.game) task.now.game (B.view board.old) s }
    requires known { IfSome known (IsOpened (G.model task.now.game) task.now.side s (B.view board.old)) }
    ensures later { IsLater (B.view board.old) (B.view board.new) }
    ensures entries { (B.view board.new).entries ≡ (B.view board.old).entries }
    ensures ok { IfOk result (IsOpened (G.model task.now.game) task.now.side s (B.view board.new)) }
    ensures err { OnErr result (result ≡ Err SerialStop.Full) }
    ensures full { OnErr result
        (WasFull (G.model task.now.game) (B.view board.new) (LeadsTo (G.model task.now.game) s)) }
{
    match known {
        Some(row) => Ok(row),
        None => match board.claim(task.game.key(s)) {
            Ok(row) => Ok(row),
            Err(_) => Err(SerialStop::Full),
        },
    }
}

/// The number of a state that is no end, by a search of its moves.
#[cycle(serial)]
fn search_moves<G: Game, I: Interrupt, B: Bounds<G>>(
    task: &SerialTask<'_, G, I>,
    s: G::State,
    row: Row,
    window: Window,
    worker: &mut SerialWorker,
    board: &mut B,
) -> Result<i64, SerialStop>
    requires here { IsSearchedBelow (G.model task.now.game) task.now.game (B.view board.old) worker.old.table s }
    requires row { IsOpened (G.model task.now.game) task.now.side s (B.view board.old) row }
    requires window { IsWindow (G.model task.now.game) task.now.side s window.worse window.better }
    ensures { IsPart (G.model task.now.game) task.now.may_stop task.now.side s
        (inner_nodes (G.model task.now.game) task.now.side s)
        (IsFound (G.model task.now.game) task.now.side s window.worse window.better (B.view board.new))
        (B.view board.old) (B.view board.new) worker.old worker.new result }
{
    // The bound of all values of the state, or the window's worse end where that is worse.
    let all = state_bound(task.game, task.side, s);
    let lowest = task.side.other().better(all, window.worse);
    let mut value = lowest;
    for own in 0..task.game.moves(task.side, s) {
        let above = Window {
            worse: task.side.better(value, window.worse),
            better: window.better,
        };
        let found = search_move(task, s, row, own, above, worker, board)?;
        value = task.side.better(value, found);
        if !task.side.is_tighter(window.better, value) {
            return Ok(value);
        }
    }
    Ok(value)
}

/// The number of an own move. The move is left where it can't be better than the window's worse end.
#[cycle(serial)]
fn search_move<G: Game, I: Interrupt, B: Bounds<G>>(
    task: &SerialTask<'_, G, I>,
    s: G::State,
    row: Row,
    own: u32,
    window: Window,
    worker: &mut SerialWorker,
    board: &mut B,
) -> Result<i64, SerialStop>
    requires here { IsSearchedBelow (G.model task.now.game) task.now.game (B.view board.old) worker.old.table s }
    requires own_move { own < (G.model task.now.game).moves task.now.side s }
    requires row { (B.view board.old).key_at row ≡ Some ((G.model task.now.game).key s) }
    requires window { IsWindow (G.model task.now.game) task.now.side s window.worse window.better }
    ensures { IsPart (G.model task.now.game) task.now.may_stop task.now.side s
        (move_nodes (G.model task.now.game) task.now.side s own)
        (IsMoveFound (G.model task.now.game) task.now.side s own window.worse window.better (B.view board.new))
        (B.view board.old) (B.view board.new) worker.old worker.new result }
{
    // The other side's bound of all values of the state, or the window's better end where that is better.
    let all = state_bound(task.game, task.side.other(), s);
    let highest = task.side.better(all, window.better);
    let mut least = highest;
    for reply in 0..task.game.moves(task.side.other(), s) {
        let below = Window {
            worse: window.worse,
            better: task.side.other().better(window.better, least),
        };
        let found = search_pair(task, s, own, reply, below, worker, board)?;
        least = task.side.other().better(least, found);
        if !task.side.is_tighter(least, window.worse) {
            return Ok(least);
        }
    }
    post_move(task, s, row, own, least, board)?;
    Ok(least)
}

/// The window at the state that a turn of this reward leads to.
fn window_after(window: Window, reward: i64) -> Window
    requires worse { unsigned_abs window.worse ≤ MOST_REWARD * (1 + MOST_TURNS) }
    requires better { unsigned_abs window.better ≤ MOST_REWARD * (1 + MOST_TURNS) }
    requires reward { unsigned_abs reward ≤ MOST_REWARD }
    ensures worse { result.worse ≡ window.worse -ℤ reward }
    ensures better { result.better ≡ window.better -ℤ reward }
{
    Window {
        worse: window.worse - reward,
        better: window.better - reward,
    }
}

/// The number of a turn: its reward, and the number of the state that follows.
fn with_reward(reward: i64, found: i64) -> i64
    requires reward { unsigned_abs reward ≤ MOST_REWARD }
    requires found { unsigned_abs found ≤ MOST_BOUND }
    ensures { result ≡ reward +ℤ found }
{
    reward + found
}

/// The number of an own move and a reply.
#[cycle(serial)]
fn search_pair<G: Game, I: Interrupt, B: Bounds<G>>(
    task: &SerialTask<'_, G, I>,
    s: G::State,
    own: u32,
    reply: u32,
    window: Window,
    worker: &mut SerialWorker,
    board: &mut B,
) -> Result<i64, SerialStop>
    requires here { IsSearchedBelow (G.model task.now.game) task.now.game (B.view board.old) worker.old.table s }
    requires own_move { own < (G.model task.now.game).moves task.now.side s }
    requires reply { reply < (G.model task.now.game).moves (other_side task.now.side) s }
    requires window { IsWindow (G.model task.now.game) task.now.side s window.worse window.better }
    ensures { IsPart (G.model task.now.game) task.now.may_stop task.now.side s
        (pair_nodes (G.model task.now.game) task.now.side s own reply)
        (IsPairFound (G.model task.now.game) task.now.side s own reply window.worse window.better (B.view board.new))
        (B.view board.old) (B.view board.new) worker.old worker.new result }
{
    let one = task.side.move_of_one(own, reply);
    let two = task.side.move_of_two(own, reply);
    let draws = task.game.draws(s, one, two);
    if draws != 1 {
        return search_draws(task, s, own, reply, draws, worker, board);
    }
    let child = task.game.drawn(s, one, two, 0);
    let reward = turn_reward(task.game, s, one, two, 0);
    let after = window_after(window, reward);
    let found = search_state(task, child, None, after, worker, board)?;
    Ok(with_reward(reward, found))
}

/// The number of an own move and a reply with several draws, each searched over the whole range.
#[cycle(serial)]
fn search_draws<G: Game, I: Interrupt, B: Bounds<G>>(
    task: &SerialTask<'_, G, I>,
    s: G::State,
    own: u32,
    reply: u32,
    draws: u32,
    worker: &mut SerialWorker,
    board: &mut B,
) -> Result<i64, SerialStop>
    requires here { IsSearchedBelow (G.model task.now.game) task.now.game (B.view board.old) worker.old.table s }
    requires own_move { own < (G.model task.now.game).moves task.now.side s }
    requires reply { reply < (G.model task.now.game).moves (other_side task.now.side) s }
    requires draws { draws ≡ draws_of (G.model task.now.game) task.now.side s own reply }
    requires wide { IsTighter task.now.side (opening_bound (G.model task.now.game) (other_side task.now.side))
        (opening_bound (G.model task.now.game) task.now.side) }
    ensures { (floor ceiling : ℤ) → IsPart (G.model task.now.game) task.now.may_stop task.now.side s
        (pair_nodes (G.model task.now.game) task.now.side s own reply)
        (IsPairFound (G.model task.now.game) task.now.side s own reply floor ceiling (B.view board.new))
        (B.view board.old) (B.view board.new) worker.old worker.new result }
{
    let range = Window {
        worse: opening_bound(task.game, task.side),
        better: opening_bound(task.game, task.side.other()),
    };
    let one = task.side.move_of_one(own, reply);
    let two = task.side.move_of_two(own, reply);
    let mut sum = 0;
    for d in 0..draws {
        let child = task.game.drawn(s, one, two, d);
        let found = search_state(task, child, None, range, worker, board)?;
        let number = with_reward(turn_reward(task.game, s, one, two, d), found);
        sum += task.game.chance(s, one, two, d) as i64 * number;
    }
    Ok(task.side.quotient(sum, CHANCE))
}
