//! The steps of a seat at the words of a board.
ghost use Rattle.std.specs.Prelude.{◌≡◌, ◌≢◌, ℕ, ◌<◌, Some, IfSome, IfNone};
ghost use Rattle.bounds_board.specs.Views.{IsInnerKey};
ghost use Rattle.shared_board.specs.Rule.{Has};
ghost use Rattle.shared_board.specs.Marks.{AreMarks};
ghost use Rattle.shared_board.specs.Plays.{reading, posting, HasMoreKeys, IsBound, IsLearnt, IsApart, IsAt, IsSized, MayClaim, MayPost};

use crate::marks::{Marks, mark_of_key};
use crate::rule::{Claim, Cut, Look, Raise, ReadLower, ReadUpper, Rules};
use crate::view::View;
use atomic_table::{Seat, Shared};
use bounds_board::row_behind;
use sim_game::{Game, Side};
use std::alloc::Global;

pub(crate) type SharedWords<G> = Shared<(), View<G>, (G, u32), Rules>;

pub(crate) type BoardSeat<G> = Seat<(), View<G>>;

/// Tries a row for a key. The word that was found tells the row's key; it is 0 where the row was free and has the key
/// now.
#[inline]
fn try_row<G: Game>(
    words: &SharedWords<G>,
    seat: &mut BoardSeat<G>,
    rows: u32,
    key: u64,
    row: u32,
) -> u64
    requires board { IsSized words.now.table_id words.now.key.1 rows }
    requires seat { IsAt words.now.table_id seat.old.table_id seat.old.me }
    requires row { (tried : ℕ) × MayClaim (G.model words.now.key.0) rows seat.old.me.0 row key tried }
    ensures seat { IsAt words.now.table_id seat.new.table_id seat.new.me × (seat.new.id ≡ seat.old.id) }
    ensures learnt { IsLearnt G.model seat.old.me.0 seat.new.me.0 row key result }
    ensures apart { IsApart seat.new.me.0.keys }
{
    let word = 3 * row as usize + 1;
    // A row keeps its key, so where there is one a load tells as much as an exchange, and is far cheaper.
    let held = words.load::<Look<G>>(seat, word);
    if held != 0 {
        return held;
    }
    words.compare_exchange::<Claim<G>>(seat, word, 0, key + 1)
}

/// How many rows a walk may pass before marks are kept.
const SHORT_WALK: u32 = 16;

/// Finds the row of a key, or claims one for it. Where a row's mark tells another key, it is passed without a step.
pub(crate) fn claim_row<G: Game>(
    alloc: Global,
    words: &SharedWords<G>,
    seat: &mut BoardSeat<G>,
    rows: u32,
    key: u64,
    marks: &mut Marks,
) -> Option<u32>
    requires board { IsSized words.now.table_id words.now.key.1 rows }
    requires seat { IsAt words.now.table_id seat.old.table_id seat.old.me }
    requires key { IsInnerKey (G.model words.now.key.0) key }
    requires marks { AreMarks seat.old.me.0.keys marks.old.by_row.items }
    ensures seat { IsAt words.now.table_id seat.new.table_id seat.new.me × (seat.new.id ≡ seat.old.id) }
    ensures keys { HasMoreKeys G.model rows seat.old.me.0 seat.new.me.0 }
    ensures some { IfSome result (λ r. (r < rows) × Has (r, key) seat.new.me.0.keys) }
    ensures none { IfNone result ((i : ℕ) → i < rows → (k : ℕ) × Has (i, k) seat.new.me.0.keys × (k ≢ key)) }
    ensures marks { AreMarks seat.new.me.0.keys marks.new.by_row.items }
{
    let mark = mark_of_key(key);
    let mut row = (key % rows as u64) as u32;
    for tried in 0..rows {
        if !marks.is_of_another(row, mark) {
            let found = try_row(words, seat, rows, key, row);
            if found == 0 || found == key + 1 {
                marks.note(row, key);
                return Some(row);
            }
            if tried == SHORT_WALK {
                marks.make_room(alloc, rows);
            }
            marks.note(row, found - 1);
        }
        row = row_behind(row, rows);
    }
    None
}

/// Loads the bound of a side in a row.
pub(crate) fn load_word<G: Game>(
    words: &SharedWords<G>,
    seat: &mut BoardSeat<G>,
    rows: u32,
    side: Side,
    row: u32,
) -> u64
    requires board { IsSized words.now.table_id words.now.key.1 rows }
    requires seat { IsAt words.now.table_id seat.old.table_id seat.old.me }
    requires row { row < rows }
    ensures seat { IsAt words.now.table_id seat.new.table_id seat.new.me × (seat.new.id ≡ seat.old.id) }
    ensures view { seat.new.me.0 ≡ reading side seat.old.me.0 row result }
    ensures apart { IsApart seat.old.me.0.keys }
    ensures told { (g : G) → seat.old.me.0.game ≡ Some g → IsBound G.model side seat.old.me.0 row result g }
{
    match side {
        Side::One => words.load::<ReadLower<G>>(seat, 3 * row as usize + 2),
        Side::Two => words.load::<ReadUpper<G>>(seat, 3 * row as usize + 3),
    }
}

/// Posts a bound for a side.
pub(crate) fn post_word<G: Game>(
    words: &SharedWords<G>,
    seat: &mut BoardSeat<G>,
    rows: u32,
    side: Side,
    row: u32,
    bound: u64,
)
    requires board { IsSized words.now.table_id words.now.key.1 rows }
    requires seat { IsAt words.now.table_id seat.old.table_id seat.old.me }
    requires post { MayPost (G.model words.now.key.0) rows side seat.old.me.0 row bound }
    ensures seat { IsAt words.now.table_id seat.new.table_id seat.new.me × (seat.new.id ≡ seat.old.id) }
    ensures view { (n : ℕ) × (seat.new.me.0 ≡ posting side seat.old.me.0 row bound n)
        × ((g : G) → seat.old.me.0.game ≡ Some g → IsBound G.model side seat.old.me.0 row n g) }
{
    match side {
        Side::One => words.fetch_max::<Raise<G>>(seat, 3 * row as usize + 2, bound),
        Side::Two => words.fetch_min::<Cut<G>>(seat, 3 * row as usize + 3, bound),
    };
}
