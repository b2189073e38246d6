//! The records of a book's entries.

ghost use Rattle.std.specs.Prelude.{◌≡◌, ◌+◌, ◌≤◌, ◌++◌, All, length, map, vec_len, vec_capacity};
ghost use Rattle.plan_book.specs.Records.{record_behind};

use sim_game::Side;

/// An entry whose weights are so many in a list, from a place on.
#[derive(Clone, Copy)]
pub struct EntryRecord {
    pub key: u64,
    pub bound: i64,
    pub start: usize,
    pub count: u32,
    pub side: Side,
}

/// An entry of a book, which keeps the weights.
#[derive(Clone, Copy)]
pub struct EntryRef<'a> {
    pub key: u64,
    pub side: Side,
    pub bound: i64,
    pub weights: &'a [u32],
}

/// Appends records whose weights were appended from a place on.
pub fn append_records(records: &mut Vec<EntryRecord>, more: &[EntryRecord], start: usize)
    requires room { vec_len records.old + length more.now ≤ vec_capacity records.old }
    requires within { All (λ r. start + r.start ≤ 18446744073709551615) more.now }
    ensures { records.new.items ≡ records.old.items ++ map (record_behind start) more.now }
{
    for record in more {
        records.push_reserved(EntryRecord {
            key: record.key,
            bound: record.bound,
            start: start + record.start,
            count: record.count,
            side: record.side,
        });
    }
}
