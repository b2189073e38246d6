//! The rows of the best entries that the best entries reach.

ghost use Rattle.std.specs.Prelude.{◌≡◌, ◌<◌, ◌&&◌, [], length, nat_eq, IfOk, OnOk, IfSome, option_and_then, slice_get};
ghost use Rattle.std.specs.HashMap.{get};
ghost use Rattle.plan_book.specs.Books.{ArePlaces, is_tighter, same_side, beats, best_row, row_of, IsBestSheet};
ghost use Rattle.plan_book.specs.Records.{entry_of};
ghost use Rattle.plan_book.specs.Gathered.{AreTaken, IsGathered};
ghost use Rattle.plan_book.specs.Sheets.{row_at, IsReached};

use crate::book::Book;
use crate::follow::children;
use crate::records::EntryRef;
use crate::{Sheet, SheetRow};
use seq::Seq;
use sim_game::{Game, NoMemory, Side};
use std::alloc::Global;
use std::collections::HashMap;

/// Whether a bound is tighter than another.
fn is_tighter(side: Side, bound: i64, other: i64) -> bool
    ensures { result ≡ is_tighter side bound other }
{
    match side {
        Side::One => bound > other,
        Side::Two => bound < other,
    }
}

/// Whether an entry is of the side and tighter than the one at the place of its key, if that has one.
fn is_better(side: Side, book: &Book, best: &HashMap<u64, usize>, e: &EntryRef<'_>) -> bool
    requires { IfSome (get nat_eq best.now e.now.key) (λ i. i < length book.now.entries) }
    ensures { result ≡ (same_side e.now.side side
        && beats side (entry_of e.now) (option_and_then (slice_get book.now.entries) (get nat_eq best.now e.now.key))) }
{
    match (e.side, side) {
        (Side::One, Side::One) | (Side::Two, Side::Two) => match best.get(&e.key) {
            Some(&i) => is_tighter(side, e.bound, book.entry_at(i).bound),
            None => true,
        },
        _ => false,
    }
}

/// The places of the best entries of a side, by key.
pub fn best_places(alloc: Global, book: &Book, side: Side) -> Result<HashMap<u64, usize>, NoMemory>
    ensures { IfOk result (λ places. ArePlaces side book.now.entries (get nat_eq places)) }
{
    let mut best: HashMap<u64, usize> = HashMap::new(alloc);
    for i in 0..book.len() {
        let e = book.entry_at(i);
        if is_better(side, book, &best, &e) {
            best.insert(e.key, i)?;
        }
    }
    Ok(best)
}

/// Takes the best entries that they reach from a state as rows, from the places that are left.
pub fn gather<G: Game>(
    alloc: Global,
    g: G,
    side: Side,
    book: &Book,
    left: &mut HashMap<u64, usize>,
    s: G::State,
    rows: &mut Vec<SheetRow>,
) -> Result<(), NoMemory>
    requires reached { IsReached (G.model g) side (best_row side book.now.entries) s }
    requires taken { AreTaken (G.model g) side book.now.entries (get nat_eq left.old) rows.old.items }
    ensures taken { OnOk result (AreTaken (G.model g) side book.now.entries (get nat_eq left.new) rows.new.items) }
    ensures gathered { OnOk result (IsGathered (G.model g) side (best_row side book.now.entries) s
        (row_at rows.old.items) (row_at rows.new.items)) }
{
    let Some(place) = left.remove(&g.key(s)) else {
        return Ok(());
    };
    let e = book.entry_at(place);
    rows.push(row_of(alloc, &e)?)?;
    let below = children(alloc, g, side, e.weights, s)?;
    for child in &below {
        gather(alloc, g, side, book, left, *child, rows)?;
    }
    Ok(())
}

/// An entry as a row.
fn row_of(alloc: Global, e: &EntryRef<'_>) -> Result<SheetRow, NoMemory>
    ensures { IfOk result (λ row. row ≡ row_of (entry_of e.now)) }
{
    let weights = Seq::from_vec(Vec::from_slice(alloc, e.weights)?);
    Ok(SheetRow {
        key: e.key,
        bound: e.bound,
        weights,
    })
}

/// The sheet of the best entries.
pub fn best_sheet<G: Game>(alloc: Global, g: G, side: Side, book: &Book) -> Result<Sheet, NoMemory>
    ensures side { IfOk result (λ sheet. sheet.side ≡ side) }
    ensures total { IfOk result (λ sheet. sheet.total ≡ book.now.total) }
    ensures best { IfOk result (λ sheet. IsBestSheet (G.model g) side book.now.entries sheet.rows) }
{
    let mut left = best_places(alloc, book, side)?;
    let mut rows = Vec::new(alloc);
    gather(alloc, g, side, book, &mut left, g.root(), &mut rows)?;
    rows.sort_unstable_by_key(|row| row.key);
    Ok(Sheet {
        side,
        total: book.total(),
        rows: Seq::from_vec(rows),
    })
}
