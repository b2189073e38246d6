//! Books of entries.

ghost use Rattle.std.specs.Prelude.{◌≡◌, ◌+◌, ◌<◌, ◌≤◌, [], ◌∷◌, ◌++◌, length, slice_index_or, sum, OnOk, OnErr, IfOk, IfErr};
ghost use Rattle.sums.specs.declared.TheConstants.{MOST_MOVES, MOST_WEIGHT};
ghost use Rattle.plan_book.specs.Books.{IsClosed, IsBestSheet};
ghost use Rattle.plan_book.specs.Records.{entry_of};
ghost use Rattle.plan_book.specs.Sheets.{IsLawful};

use crate::gather::best_sheet;
use crate::records::{EntryRecord, EntryRef, append_records};
use crate::{Entry, Sheet};
use sim_game::{Game, NoMemory, Side};
use std::alloc::Global;
use std::marker::Model;
use sums::MOST_MOVES;

/// The entries that a search has posted, with weights of one total.
#[derive(Drop)]
pub struct Book {
    total: u32,
    records: Vec<EntryRecord>,
    /// The weights of all entries, in one list.
    weights: Vec<u32>,
}

impl Model for Book {
    ghost use Rattle.std.specs.Prelude.{◌-◌, vec_len, vec_capacity};
    ghost use Rattle.plan_book.specs.Books.{BookView};
    ghost use Rattle.plan_book.specs.Records.{entries_of, room_of, AreRecords};

    ghost Value = { BookView };

    ghost view = { λ b. record {
      total = b.total;
      entries = entries_of b.weights.items b.records.items;
      room = room_of (vec_capacity b.records - vec_len b.records) (vec_capacity b.weights - vec_len b.weights);
    } };

    ghost invariant = { λ b. AreRecords b.total b.weights.items b.records.items };
}

impl Book {
    /// An empty book.
    pub fn new(alloc: Global, total: u32) -> Book
        requires low { 1 ≤ total }
        requires high { total ≤ MOST_WEIGHT }
        ensures total { result.total ≡ total }
        ensures entries { result.entries ≡ [] }
    {
        Book {
            total,
            records: Vec::new(alloc),
            weights: Vec::new(alloc),
        }
    }

    /// The total of each entry's weights.
    pub fn total(&self) -> u32
        ensures { result ≡ self.now.total }
    {
        self.total
    }

    /// Makes the room at least so large. On a refusal the book is as before.
    pub fn reserve(&mut self, more: u32) -> Result<(), NoMemory>
        ensures total { self.new.total ≡ self.old.total }
        ensures entries { self.new.entries ≡ self.old.entries }
        ensures room { OnOk result (more ≤ self.new.room) }
    {
        self.records.reserve(more as usize)?;
        self.weights.reserve(more as usize * MOST_MOVES as usize)?;
        Ok(())
    }

    /// Adds an entry last, in the room that there is.
    pub fn push(&mut self, e: Entry)
        requires room { 1 ≤ self.old.room }
        requires few { length e.weights ≤ MOST_MOVES }
        requires weights { sum e.weights ≡ self.old.total }
        ensures total { self.new.total ≡ self.old.total }
        ensures entries { self.new.entries ≡ self.old.entries ++ e ∷ [] }
        ensures room { self.old.room ≤ self.new.room + 1 }
    {
        let weights = e.weights.as_slice();
        let record = EntryRecord {
            key: e.key,
            bound: e.bound,
            start: self.weights.len(),
            count: weights.len() as u32,
            side: e.side,
        };
        match self.weights.extend_from_slice(weights) {
            Ok(()) => {}
            Err(_full) => unreachable!(),
        }
        self.records.push_reserved(record);
    }

    /// Appends all entries of the other book, or hands it back for want of memory. An empty book takes over the other's
    /// memory.
    pub fn join(&mut self, other: Book) -> Result<(), Book>
        requires { other.total ≡ self.old.total }
        ensures total { self.new.total ≡ self.old.total }
        ensures ok { OnOk result (self.new.entries ≡ self.old.entries ++ other.entries) }
        ensures err { OnErr result (self.new.entries ≡ self.old.entries) }
        ensures handed_back { IfErr result (λ book. book ≡ other) }
    {
        if self.records.is_empty() {
            *self = other;
            return Ok(());
        }
        let Ok(()) = self.records.reserve(other.records.len()) else {
            return Err(other);
        };
        let start = self.weights.len();
        let Ok(()) = self.weights.extend_from_slice(other.weights.as_slice()) else {
            return Err(other);
        };
        append_records(&mut self.records, other.records.as_slice(), start);
        Ok(())
    }
}

impl Book {
    /// How many entries there are.
    pub(crate) fn len(&self) -> usize
        ensures { result ≡ length self.now.entries }
    {
        self.records.len()
    }

    /// The entry at a place.
    pub(crate) fn entry_at(&self, place: usize) -> EntryRef<'_>
        requires { place < length self.now.entries }
        ensures { entry_of result ≡ slice_index_or self.now.entries place (entry_of result) }
    {
        let record = self.records[place];
        let end = record.start + record.count as usize;
        EntryRef {
            key: record.key,
            side: record.side,
            bound: record.bound,
            weights: &self.weights[record.start..end],
        }
    }

    /// The sheet of a side's best entries: for each key the first of the tightest bound, kept for the root and for
    /// each state that a kept row reaches by an own move of positive weight.
    pub fn sheet<G: Game>(&self, g: G, side: Side) -> Result<Sheet, NoMemory>
        requires closed { IsClosed (G.model g) self.now.total self.now.entries }
        ensures side { IfOk result (λ sheet. sheet.side ≡ side) }
        ensures total { IfOk result (λ sheet. sheet.total ≡ self.now.total) }
        ensures best { IfOk result (λ sheet. IsBestSheet (G.model g) side self.now.entries sheet.rows) }
        ensures lawful { IfOk result (IsLawful (G.model g)) }
    {
        let alloc = *self.records.allocator();
        best_sheet(alloc, g, side, self)
    }
}
