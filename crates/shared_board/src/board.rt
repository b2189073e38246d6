//! The board that threads share.
ghost use Rattle.std.specs.Prelude.{◌≡◌, ◌<◌, ◌≤◌, true, [], ◌++◌, IfOk, IfErr, OnOk, OnErr};
ghost use Rattle.sums.specs.declared.TheConstants.{LEAST_WEIGHT, MOST_WEIGHT};
ghost use Rattle.sim_game.specs.declared.Side.TheVariants.{One, Two};
ghost use Rattle.sim_game.specs.declared.TheConstants.{MOST_ROWS};
ghost use Rattle.sim_game.specs.Resolution.{IsFineWeight};
ghost use Rattle.shared_board.specs.Words.{opening_word};
ghost use Rattle.shared_board.specs.Rule.{first_view};
ghost use Rattle.shared_board.specs.Passes.{KnowsNoLess};
ghost use Rattle.shared_board.specs.Values.{IsPassOf};
ghost use Rattle.shared_board.specs.Plays.{issuing, issued_view, joined};

use crate::pass::{BarePass, Pass};
use crate::rule::{Gather, Issue, Rules};
use crate::view::View;
use crate::words::{blank_words, word_of_bound};
use atomic_table::Table;
use plan_book::Book;
use sim_game::{Game, NoMemory, Side, opening_bound};
use std::alloc::Global;
use std::marker::Model;

pub(crate) type BoardTable<G> = Table<(), View<G>, (G, u32), Rules, Global>;

/// A board of bounds that threads share without a lock.
#[derive(Drop)]
pub struct Board<G: Game> {
    pub(crate) words: BoardTable<G>,
    pub(crate) game: G,
    pub(crate) rows: u32,
    pub(crate) total: u32,
    pub(crate) alloc: Global,
}

impl<G: Game> Model for Board<G> {
    ghost use Rattle.std.specs.Prelude.{◌≡◌, ◌+◌, ◌*◌, ◌≤◌};
    ghost use Rattle.sums.specs.declared.TheConstants.{LEAST_WEIGHT, MOST_WEIGHT};
    ghost use Rattle.sim_game.specs.declared.TheConstants.{MOST_ROWS};
    ghost use Rattle.sim_game.specs.Resolution.{IsFineWeight};
    ghost use Rattle.shared_board.specs.Values.{BoardValue};

    ghost Value = { BoardValue G };

    ghost view = { λ b. record { name = b.words.shared.table_id; game = b.game; rows = b.rows; total = b.total } };

    ghost invariant = { λ b. (b.words.shared.key ≡ (b.game, b.rows)) × (b.words.shared.table_id.words ≡ 3 * b.rows + 1)
        × (1 ≤ b.rows) × (b.rows ≤ MOST_ROWS) × (b.words.shared.table_id.slots ≡ 0) × (LEAST_WEIGHT ≤ b.total)
        × (b.total ≤ MOST_WEIGHT) × IsFineWeight (G.model b.game) b.total };
}

/// 65535 tickets of the board were issued.
#[derive(Clone, Copy, PartialEq, Eq, Debug)]
pub struct TooMany;

/// There was no memory for the books. The other pass comes back.
#[derive(Drop)]
pub struct JoinError<G: Game> {
    pub other: Pass<G>,
}

const MOST_TICKETS: u32 = 65535;

impl<G: Game> Board<G> {
    /// A board of 1 to `MOST_ROWS` free rows, and the pass of its lead.
    pub fn create(
        alloc: Global,
        game: G,
        rows: u32,
        total: u32,
    ) -> Result<(Board<G>, Pass<G>), NoMemory>
        requires rows { (1 ≤ rows) × (rows ≤ MOST_ROWS) }
        requires total_low { LEAST_WEIGHT ≤ total }
        requires total_fine { IsFineWeight (G.model game) total }
        requires total_high { total ≤ MOST_WEIGHT }
        ensures game { IfOk result (λ r. r.0.game ≡ game) }
        ensures rows { IfOk result (λ r. r.0.rows ≡ rows) }
        ensures total { IfOk result (λ r. r.0.total ≡ total) }
        ensures ours { IfOk result (λ r. IsPassOf r.0 r.1) }
        ensures entries { IfOk result (λ r. r.1.entries ≡ []) }
        ensures view { IfOk result (λ r. r.1.view ≡ first_view game rows (opening_word (G.model game) One)
            (opening_word (G.model game) Two)) }
    {
        let low = word_of_bound(opening_bound(game, Side::One));
        let high = word_of_bound(opening_bound(game, Side::Two));
        let opening = blank_words(alloc, rows, low, high)?;
        let (words, seat) = Table::of_words(alloc, opening.as_slice(), &(game, rows))?;
        let board = Board {
            words,
            game,
            rows,
            total,
            alloc,
        };
        let bare = BarePass {
            seat,
            book: Book::new(alloc, total),
            lead: true,
            issued: 1,
            held: 1,
        };
        Ok((board, Pass { bare }))
    }

    /// A new pass, which has seen all that the lead's pass has. It takes no memory.
    pub fn split(&self, pass: &mut Pass<G>) -> Result<Pass<G>, TooMany>
        requires ours { IsPassOf self.now pass.old }
        requires lead { pass.old.view.lead ≡ true }
        ensures few { OnOk result (pass.old.view.issued < 65535) }
        ensures pass { OnOk result (pass.new ≡ record pass.old { view = issuing pass.old.view }) }
        ensures ours { IfOk result (λ new. IsPassOf self.now new) }
        ensures view { IfOk result (λ new. new.view ≡ issued_view pass.old.view) }
        ensures entries { IfOk result (λ new. new.entries ≡ []) }
        ensures mine { OnOk result (KnowsNoLess (G.model self.now.game) pass.old.view pass.new.view) }
        ensures theirs { IfOk result (λ new. KnowsNoLess (G.model self.now.game) pass.old.view new.view) }
        ensures err { OnErr result ((pass.new ≡ pass.old) × (pass.old.view.issued ≡ 65535)) }
    {
        if pass.bare.issued >= MOST_TICKETS {
            return Err(TooMany);
        }
        let seat = self.words.shared.split_seat::<Issue>(&mut pass.bare.seat);
        pass.bare.issued += 1;
        let bare = BarePass {
            seat,
            book: Book::new(self.alloc, self.total),
            lead: false,
            issued: 0,
            held: 1,
        };
        Ok(Pass { bare })
    }

    /// The first pass takes in the other one: its tickets, its book and what it has seen.
    pub fn join(&self, pass: &mut Pass<G>, other: Pass<G>) -> Result<(), JoinError<G>>
        requires ours { IsPassOf self.now pass.old }
        requires theirs { IsPassOf self.now other }
        ensures name { pass.new.name ≡ pass.old.name }
        ensures total { pass.new.total ≡ pass.old.total }
        ensures view { OnOk result (pass.new.view ≡ joined pass.old.view other.view) }
        ensures entries { OnOk result (pass.new.entries ≡ pass.old.entries ++ other.entries) }
        ensures mine { OnOk result (KnowsNoLess (G.model self.now.game) pass.old.view pass.new.view) }
        ensures theirs { OnOk result (KnowsNoLess (G.model self.now.game) other.view pass.new.view) }
        ensures err { IfErr result (λ e. (pass.new ≡ pass.old) × (e.other ≡ other)) }
    {
        let Pass {
            bare: BarePass {
                seat,
                book,
                lead,
                issued,
                held,
            },
        } = other;
        if let Err(book) = pass.bare.book.join(book) {
            let bare = BarePass {
                seat,
                book,
                lead,
                issued,
                held,
            };
            return Err(JoinError {
                other: Pass { bare },
            });
        }
        self.words
            .shared
            .join_seat::<Gather>(&mut pass.bare.seat, seat);
        pass.bare.lead = pass.bare.lead || lead;
        pass.bare.issued = pass.bare.issued.max(issued);
        pass.bare.held = pass.bare.held.saturating_add(held);
        Ok(())
    }
}
