//! The board of one thread.
ghost use Rattle.std.specs.Prelude.{◌≡◌, ℕ, ◌≤◌, [], All, Contains, IfOk, length, nat_eq};
ghost use Rattle.sums.specs.declared.TheConstants.{LEAST_WEIGHT, MOST_WEIGHT};
ghost use Rattle.sim_game.specs.declared.TheConstants.{MOST_ROWS};
ghost use Rattle.sim_game.specs.Resolution.{IsFineWeight};
ghost use Rattle.bounds_board.specs.Plain.{plain_view};

use crate::bounds::{Bounds, Enclosure, Full};
use crate::row::Row;
use crate::slots::{ProbeEnd, Slot, probe, tighten};
use plan_book::{Book, Entry};
use sim_game::{Game, NoMemory, Side, opening_bound};
use std::alloc::Global;
use std::marker::Model;

/// A board for one thread: its bounds are the best ones that were posted.
#[derive(Drop)]
pub struct PlainBoard<G: Game> {
    game: G,
    /// One a row that there may be: 0 while it is free, else 1 plus the number of a row.
    heads: Vec<u32>,
    /// The rows, in order of claim.
    slots: Vec<Slot>,
    book: Book,
}

impl<G: Game> Model for PlainBoard<G> {
    ghost use Rattle.std.specs.Prelude.{◌≤◌, length, vec_capacity};
    ghost use Rattle.bounds_board.specs.Slots.{keys_of};
    ghost use Rattle.bounds_board.specs.Plain.{IsPlain, PlainValue};

    ghost Value = { PlainValue G };

    ghost view = { λ b. record {
      game = b.game;
      rows = length b.heads.items;
      keys = keys_of b.slots.items;
      total = b.book.total;
      entries = b.book.entries;
    } };

    ghost invariant = { λ b. IsPlain (G.model b.game) b.heads.items b.slots.items b.book.total b.book.entries
        × (length b.heads.items ≤ vec_capacity b.slots) };
}

impl<G: Game> PlainBoard<G> {
    ghost use Rattle.std.specs.List.{IsDistinct};
    ghost use Rattle.plan_book.specs.Books.{IsClosed};

    /// A board of free rows. It takes the memory of all of them, but writes only the heads: a slot is written when it
    /// is claimed.
    pub fn new(alloc: Global, game: G, rows: u32, total: u32) -> Result<PlainBoard<G>, NoMemory>
        requires rows_low { 1 ≤ rows }
        requires rows_high { rows ≤ MOST_ROWS }
        requires total_low { LEAST_WEIGHT ≤ total }
        requires total_fine { IsFineWeight (G.model game) total }
        requires total_high { total ≤ MOST_WEIGHT }
        ensures game { IfOk result (λ b. b.game ≡ game) }
        ensures rows { IfOk result (λ b. b.rows ≡ rows) }
        ensures keys { IfOk result (λ b. b.keys ≡ []) }
        ensures total { IfOk result (λ b. b.total ≡ total) }
        ensures entries { IfOk result (λ b. b.entries ≡ []) }
    {
        let heads = Vec::from_elem(alloc, 0, rows as usize)?;
        let slots = Vec::with_capacity(alloc, rows as usize)?;
        Ok(PlainBoard {
            game,
            heads,
            slots,
            book: Book::new(alloc, total),
        })
    }

    /// All that was posted.
    pub fn into_book(self) -> Book
        ensures total { result.total ≡ self.total }
        ensures entries { result.entries ≡ self.entries }
        ensures closed { IsClosed (G.model self.game) result.total result.entries }

        // Each entry's key has a row, and no two rows have one key.
        ensures held { All (λ e. Contains self.keys e.key) result.entries }
        ensures apart { IsDistinct nat_eq self.keys }
        ensures few { length self.keys ≤ self.rows }
    {
        self.book
    }
}

impl<G: Game> Bounds<G> for PlainBoard<G> {
    ghost Name = { Unit {0} };

    ghost view = { plain_view G.model };

    fn game(&self) -> G {
        self.game
    }

    fn knows_inner_keys(&self) {
        let _slots = self.slots.len();
    }

    fn total(&self) -> u32 {
        self.book.total()
    }

    fn claim(&mut self, key: u64) -> Result<Row, Full> {
        match probe(self.heads.as_slice(), self.slots.as_slice(), key) {
            ProbeEnd::Row(row) => Ok(Row::new(row)),
            ProbeEnd::Free(head) => {
                let row = self.slots.len() as u32;
                let lower = opening_bound(self.game, Side::One);
                let upper = opening_bound(self.game, Side::Two);
                self.slots.push_reserved(Slot { key, lower, upper });
                self.heads[head as usize] = row + 1;
                Ok(Row::new(row))
            }
            ProbeEnd::Full => Err(Full),
        }
    }

    fn read(&mut self, row: Row) -> Enclosure {
        let slot = self.slots[row.place() as usize];
        Enclosure {
            lower: slot.lower,
            upper: slot.upper,
        }
    }

    fn post(&mut self, row: Row, e: Entry) -> Result<(), NoMemory> {
        self.book.reserve(1)?;
        let place = row.place() as usize;
        let slot = tighten(self.slots[place], e.side, e.bound);
        self.slots[place] = slot;
        self.book.push(e);
        Ok(())
    }
}
