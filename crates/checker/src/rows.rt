//! The checks of a sheet's rows.

ghost use Rattle.std.specs.Prelude.{IfOk, MatchBool, MatchOption};
ghost use Rattle.sim_game.specs.Model.{Reachable};
ghost use Rattle.sim_game.specs.Sides.{other_side};
ghost use Rattle.plan_book.specs.Sheets.{IsLawfulRow};
ghost use Rattle.certificate.specs.Ranges.{IsRowInRange};
ghost use Rattle.checker.specs.Faults.{IsReadable, HasWholeWeights, IsInside, HoldsBelow, IsReplyFault, IsSoundAt, IsFaultAt, IsRowFault, IsFirstFaultOrNone};
ghost use Rattle.checker.specs.Found.{IsStateOf};

use crate::places::{NUMBERS, Recent};
use crate::reach::find_states;
use crate::verdict::Why;
use crate::worth::worth;
use plan_book::{Sheet, SheetRow, is_whole};
use sim_game::{Game, NoMemory, Side, state_bound};
use std::alloc::Global;
use sums::weighted;

/// The first fault of the sheet's rows, in their order.
pub(crate) fn first_fault<G: Game>(
    alloc: Global,
    g: G,
    sheet: &Sheet,
) -> Result<Option<Why>, NoMemory>
    requires { IsReadable sheet.now }
    ensures { IfOk result (IsFirstFaultOrNone (G.model g) sheet.now) }
{
    let mut recent: Recent = [0; NUMBERS];
    let found = find_states(alloc, g, sheet, &mut recent)?;
    let rows = sheet.rows.as_slice();
    for place in 0..rows.len() {
        if let Some(why) = row_fault(g, sheet, &rows[place], found[place], &mut recent) {
            return Ok(Some(why));
        }
    }
    Ok(None)
}

/// What is wrong with a row of the sheet, where the rows reach its state, if they do.
fn row_fault<G: Game>(
    g: G,
    sheet: &Sheet,
    row: &SheetRow,
    state: Option<G::State>,
    recent: &mut Recent,
) -> Option<Why>
    requires readable { IsReadable sheet.now }
    requires in_range { IsRowInRange row.now }
    requires reached { IsStateOf (G.model g) sheet.now row.now.key state }
    ensures { MatchOption result (IsLawfulRow (G.model g) sheet.now.side sheet.now.total sheet.now.rows row.now)
        (IsRowFault (G.model g) sheet.now row.now) }
{
    let side = sheet.side;
    let key = row.key;
    match state {
        None => Some(Why::Idle { side, key }),
        Some(s) if g.rank(s) == 0 => Some(Why::Idle { side, key }),
        Some(s) => fault_at(g, sheet, row, s, recent),
    }
}

/// What is wrong with a row at its state.
fn fault_at<G: Game>(
    g: G,
    sheet: &Sheet,
    row: &SheetRow,
    s: G::State,
    recent: &mut Recent,
) -> Option<Why>
    requires readable { IsReadable sheet.now }
    requires in_range { IsRowInRange row.now }
    requires reachable { Reachable (G.model g) s }
    ensures { MatchOption result (IsSoundAt (G.model g) sheet.now row.now s)
        (IsFaultAt (G.model g) sheet.now row.now s) }
{
    let side = sheet.side;
    let key = row.key;
    if !is_whole(row.weights.as_slice(), g.moves(side, s), sheet.total) {
        return Some(Why::Weights { side, key });
    }
    if !is_inside(g, row, s) {
        return Some(Why::Outside { side, key });
    }
    reply_fault(g, sheet, row, s, recent)
}

/// Whether the row's bound is in the range of its state.
fn is_inside<G: Game>(g: G, row: &SheetRow, s: G::State) -> bool
    requires { Reachable (G.model g) s }
    ensures { MatchBool result (IsInside (G.model g) row.now s) (¬ IsInside (G.model g) row.now s) }
{
    state_bound(g, Side::One, s) <= row.bound && row.bound <= state_bound(g, Side::Two, s)
}

/// The first reply against which the row's weights are not worth its bound.
fn reply_fault<G: Game>(
    g: G,
    sheet: &Sheet,
    row: &SheetRow,
    s: G::State,
    recent: &mut Recent,
) -> Option<Why>
    requires readable { IsReadable sheet.now }
    requires in_range { IsRowInRange row.now }
    requires reachable { Reachable (G.model g) s }
    requires whole { HasWholeWeights (G.model g) sheet.now row.now s }
    ensures { let m = G.model g in
        MatchOption result (HoldsBelow m sheet.now row.now s (m.moves (other_side sheet.now.side) s))
        (IsReplyFault m sheet.now row.now s) }
{
    let side = sheet.side;
    let weights = row.weights.as_slice();
    let need = weighted(sheet.total, row.bound);
    for reply in 0..g.moves(side.other(), s) {
        let sum = worth(g, sheet, weights, s, reply, recent);
        if side.is_tighter(need, sum) {
            let key = row.key;
            return Some(Why::Bound {
                side,
                key,
                reply,
                sum,
                need,
            });
        }
    }
    None
}
