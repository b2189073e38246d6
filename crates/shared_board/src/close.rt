//! The end of a board.
ghost use Rattle.std.specs.Prelude.{◌≡◌, ℕ, ◌+◌, ◌*◌, ◌<◌, ◌≤◌, true, [], length, vec_capacity, IfOk, OnOk, IfErr};
ghost use Rattle.std.specs.Mem.Slots.{slots_items, slots_len, IsFull};
ghost use Rattle.sim_game.specs.declared.Side.{Side};
ghost use Rattle.sim_game.specs.declared.TheConstants.{MOST_ROWS};
ghost use Rattle.plan_book.specs.Books.{IsClosed};
ghost use Rattle.shared_board.specs.Words.{bound_in_row};
ghost use Rattle.shared_board.specs.Values.{IsPassOf};
ghost use Rattle.shared_board.specs.Closing.{kept_rows, AreKeptRows, IsRefusal};

use crate::board::Board;
use crate::pass::{BarePass, Pass};
use crate::words::bound_of_word;
use atomic_table::Closed as ClosedWords;
use plan_book::Book;
use seq::Seq;
use sim_game::Game;
use std::alloc::Global;

/// A claimed row of a board that is closed: its key, and its bounds in millionths of a payoff.
#[derive(Clone, Copy, PartialEq, Eq, Debug, Drop)]
pub struct Kept {
    pub key: u64,
    pub lower: i64,
    pub upper: i64,
}

/// The book of all that was posted, and the claimed rows in order.
#[derive(Drop)]
pub struct Closed {
    pub book: Book,
    pub kept: Seq<Kept>,
}

/// The board and the pass come back.
#[derive(Drop)]
pub enum CloseError<G: Game> {
    /// Not every ticket that was issued is held.
    MissingPass {
        drawn: u32,
        held: u32,
        board: Board<G>,
        pass: Pass<G>,
    },
    NoMemory {
        board: Board<G>,
        pass: Pass<G>,
    },
}

/// The claimed rows among so many, in order.
fn keep_rows(words: &ClosedWords<(), Global>, rows: u32, kept: &mut Vec<Kept>)
    requires words { IsFull words.now.words × (slots_len words.now.words ≡ 3 * rows + 1) × (rows ≤ MOST_ROWS) }
    requires bounds { (side : Side) (i : ℕ) → i < rows
        → bound_in_row (slots_items words.now.words) side i ≤ 8000000000 }
    requires kept { (kept.old.items ≡ []) × (rows ≤ vec_capacity kept.old) }
    ensures { kept.new.items ≡ kept_rows (slots_items words.now.words) rows }
{
    for row in 0..rows {
        let at = 3 * row as usize;
        let key = words.word(at + 1);
        if key > 0 {
            let lower = bound_of_word(words.word(at + 2));
            let upper = bound_of_word(words.word(at + 3));
            let Ok(()) = kept.push(Kept {
                key: key - 1,
                lower,
                upper,
            }) else {
                unreachable!()
            };
        }
    }
}

impl<G: Game> Board<G> {
    /// The claimed rows, and the book of a pass that holds each ticket issued: `MissingPass` exactly where one is
    /// missing.
    pub fn close(self, pass: Pass<G>) -> Result<Closed, CloseError<G>>
        requires ours { IsPassOf self pass }
        requires lead { pass.view.lead ≡ true }
        ensures whole { OnOk result (length pass.view.tickets ≡ pass.view.issued) }
        ensures total { IfOk result (λ c. c.book.total ≡ pass.total) }
        ensures entries { IfOk result (λ c. c.book.entries ≡ pass.entries) }
        ensures closed { OnOk result (IsClosed (G.model self.game) pass.total pass.entries) }
        ensures kept { IfOk result (λ c. AreKeptRows (G.model self.game) self.rows pass.view pass.entries c.kept) }
        ensures err { IfErr result (IsRefusal self pass) }
    {
        if pass.bare.held < pass.bare.issued {
            let drawn = pass.bare.issued;
            let held = pass.bare.held;
            return Err(CloseError::MissingPass {
                drawn,
                held,
                board: self,
                pass,
            });
        }
        let Ok(mut kept) = Vec::with_capacity(self.alloc, self.rows as usize) else {
            return Err(CloseError::NoMemory { board: self, pass });
        };
        let Board {
            words,
            game: _,
            rows,
            total: _,
            alloc: _,
        } = self;
        let Pass {
            bare: BarePass {
                seat,
                book,
                lead: _,
                issued: _,
                held: _,
            },
        } = pass;
        let closed = words.close_with(seat);
        keep_rows(&closed, rows, &mut kept);
        closed.free();
        Ok(Closed {
            book,
            kept: Seq::from_vec(kept),
        })
    }
}
