//! Marks of the keys in rows.
ghost use Rattle.std.specs.Prelude.{◌≡◌, ◌≢◌, ◌⊎◌, ◌↔◌, [], replicate, slice_index, slice_set, IsTrue};
ghost use Rattle.shared_board.specs.Marks.{mark_of};

use std::alloc::Global;

/// A mark for each row: 0, or that of the key which the row is known to have. So a walk passes rows of other keys with
/// no step at the board. There are no marks until a walk is long.
#[derive(Drop)]
pub(crate) struct Marks {
    pub by_row: Vec<u8>,
    pub may_grow: bool,
}

/// The mark of a key. The divisor is prime, so all fields of the key count.
#[inline]
pub(crate) fn mark_of_key(key: u64) -> u8
    ensures { result ≡ mark_of key }
{
    (key % 251) as u8 + 1
}

impl Marks {
    /// No marks. It takes no memory.
    pub(crate) fn new(alloc: Global) -> Marks
        ensures { result.by_row.items ≡ [] }
    {
        Marks {
            by_row: Vec::new(alloc),
            may_grow: true,
        }
    }

    /// Gives each row the mark 0, where there are no marks yet. Without memory there stay none, and it is not asked for
    /// again.
    pub(crate) fn make_room(&mut self, alloc: Global, rows: u32)
        ensures { (self.new.by_row.items ≡ self.old.by_row.items)
            ⊎ (self.old.by_row.items ≡ []) × (self.new.by_row.items ≡ replicate rows 0) }
    {
        if !self.may_grow || !self.by_row.is_empty() {
            return;
        }
        match Vec::from_elem(alloc, 0, rows as usize) {
            Ok(by_row) => self.by_row = by_row,
            Err(_) => self.may_grow = false,
        }
    }

    /// Whether the row is known to have a key of another mark.
    #[inline]
    pub(crate) fn is_of_another(&self, row: u32, mark: u8) -> bool
        ensures { IsTrue result
            ↔ ((slice_index self.now.by_row.items row ≢ 0) × (slice_index self.now.by_row.items row ≢ mark)) }
    {
        let row = row as usize;
        if row >= self.by_row.len() {
            return false;
        }
        let known = self.by_row[row];
        known != 0 && known != mark
    }

    /// Notes the mark of a row's key, where the rows have marks.
    #[inline]
    pub(crate) fn note(&mut self, row: u32, key: u64)
        ensures { self.new.by_row.items ≡ slice_set self.old.by_row.items row (mark_of key) }
    {
        let row = row as usize;
        if row < self.by_row.len() {
            self.by_row[row] = mark_of_key(key);
        }
    }
}
