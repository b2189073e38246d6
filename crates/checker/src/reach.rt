//! The states that the rows of a sheet reach.

ghost use Rattle.std.specs.Prelude.{◌≡◌, ◌<◌, ◌+◌, length, map, None, All, IfOk};
ghost use Rattle.std.specs.List.Sorted.{IsStrictlyIncreasing};
ghost use Rattle.plan_book.specs.Sheets.{IsReached, row_at};
ghost use Rattle.checker.specs.Found.{AreStates, AreReached, IsFollowedAt, FindsMore, IsMarked, IsWalked};

use crate::places::{NUMBERS, Recent, find};
use plan_book::{Sheet, children};
use sim_game::{Game, NoMemory};
use std::alloc::Global;

/// The state of each row, where the rows reach it from the root. Ranks fall with each turn, so that the states of a
/// rank are all found once those of higher ranks are followed.
pub(crate) fn find_states<G: Game>(
    alloc: Global,
    g: G,
    sheet: &Sheet,
    recent: &mut Recent,
) -> Result<Vec<Option<G::State>>, NoMemory>
    requires { IsStrictlyIncreasing (map (λ r. r.key) sheet.now.rows) }
    ensures { IfOk result (λ found. AreReached (G.model g) sheet.now found.items) }
{
    let mut found = nothing::<G>(alloc, sheet.rows.len())?;
    let root = g.root();
    mark(g, sheet, root, &mut recent[0], &mut found);
    let top = g.rank(root);
    for fallen in 0..top {
        follow_rank(alloc, g, sheet, top - fallen, recent, &mut found)?;
    }
    Ok(found)
}

/// No state for any of so many rows.
fn nothing<G: Game>(alloc: Global, rows: usize) -> Result<Vec<Option<G::State>>, NoMemory>
    ensures len { IfOk result (λ found. length found.items ≡ rows) }
    ensures none { IfOk result (λ found. All (λ state. state ≡ None) found.items) }
{
    let found: Vec<Option<G::State>> = Vec::from_elem(alloc, None, rows)?;
    Ok(found)
}

/// Finds what follows the states of a rank.
fn follow_rank<G: Game>(
    alloc: Global,
    g: G,
    sheet: &Sheet,
    rank: u32,
    recent: &mut Recent,
    found: &mut Vec<Option<G::State>>,
) -> Result<(), NoMemory>
    requires rising { IsStrictlyIncreasing (map (λ r. r.key) sheet.now.rows) }
    requires walked { IsWalked (G.model g) sheet.now found.old.items (rank + 1) }
    ensures { IfOk result (λ _. IsWalked (G.model g) sheet.now found.new.items rank) }
{
    for place in 0..sheet.rows.len() {
        follow(alloc, g, sheet, rank, place, recent, found)?;
    }
    Ok(())
}

/// Finds what follows the state at a place, if it is of the rank.
fn follow<G: Game>(
    alloc: Global,
    g: G,
    sheet: &Sheet,
    rank: u32,
    place: usize,
    recent: &mut Recent,
    found: &mut Vec<Option<G::State>>,
) -> Result<(), NoMemory>
    requires rising { IsStrictlyIncreasing (map (λ r. r.key) sheet.now.rows) }
    requires within { place < length sheet.now.rows }
    requires states { AreStates (G.model g) sheet.now found.old.items }
    ensures later { IfOk result (λ _. FindsMore (G.model g) sheet.now found.old.items found.new.items) }
    ensures followed { IfOk result (λ _.
        IsFollowedAt (G.model g) sheet.now found.old.items found.new.items rank place) }
{
    let s = match found[place] {
        Some(s) => s,
        None => return Ok(()),
    };
    if g.rank(s) != rank {
        return Ok(());
    }
    let weights = sheet.rows.as_slice()[place].weights.as_slice();
    let children = children(alloc, g, sheet.side, weights, s)?;
    let below = children.as_slice();
    for number in 0..below.len() {
        mark(
            g,
            sheet,
            below[number],
            &mut recent[number % NUMBERS],
            found,
        );
    }
    Ok(())
}

/// Notes a state at the place of its row, if it has one.
fn mark<G: Game>(
    g: G,
    sheet: &Sheet,
    s: G::State,
    recent: &mut usize,
    found: &mut Vec<Option<G::State>>,
)
    requires rising { IsStrictlyIncreasing (map (λ r. r.key) sheet.now.rows) }
    requires reached { IsReached (G.model g) sheet.now.side (row_at sheet.now.rows) s }
    requires states { AreStates (G.model g) sheet.now found.old.items }
    ensures later { FindsMore (G.model g) sheet.now found.old.items found.new.items }
    ensures marked { IsMarked sheet.now.rows found.new.items ((G.model g).key s) }
{
    let place = match find(sheet.rows.as_slice(), g.key(s), recent) {
        Some(place) => place,
        None => return,
    };
    if found[place].is_none() {
        found[place] = Some(s);
    }
}
