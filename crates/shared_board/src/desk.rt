//! A pass at its board.
ghost use Rattle.std.specs.Prelude.{◌≡◌, ◌≢◌, ◌++◌, ◌∷◌, [], ℕ, ◌<◌, ◌≤◌, Some, IsSome, List, length, IfOk, OnOk, OnErr};
ghost use Rattle.sim_game.specs.declared.Side.{Side};
ghost use Rattle.sim_game.specs.declared.Side.TheVariants.{One, Two};
ghost use Rattle.sim_game.specs.Model.{Reachable};
ghost use Rattle.sim_game.specs.Sides.{IsNoTighter, opening_bound};
ghost use Rattle.bounds_board.specs.Views.{IsInnerKey, IsFull, IsPostable, IsLater, IsRead, IsEnclosure};
ghost use Rattle.shared_board.specs.Words.{word_of, as_bound, IsLooser};
ghost use Rattle.shared_board.specs.Rule.{Has, seen, seen_at};
ghost use Rattle.shared_board.specs.Plays.{more_keys, reading, posting, IsApart, AllNamed};
ghost use Rattle.shared_board.specs.Passes.{IsUnseen, IsBoundAnswer};
ghost use Rattle.shared_board.specs.Values.{IsPassOf, viewing, entering, desk_view, DeskName};

use crate::board::Board;
use crate::known::KnownRows;
use crate::marks::Marks;
use crate::pass::Pass;
use crate::steps::{claim_row, load_word, post_word};
use crate::words::{bound_of_word, word_of_bound};
use bounds_board::{Bounds, Enclosure, Full, Row};
use plan_book::Entry;
use sim_game::{Game, NoMemory, Side};
use std::marker::Model;

/// A pass at its board, through which a thread claims, reads and posts.
#[derive(Drop)]
pub struct Desk<'a, G: Game> {
    board: &'a Board<G>,
    pass: Pass<G>,
    known: KnownRows,
    marks: Marks,
}

impl<'a, G: Game> Model for Desk<'a, G> {
    ghost use Rattle.shared_board.specs.Values.{DeskValue, IsPassOf};
    ghost use Rattle.shared_board.specs.Known.{AreKnown};
    ghost use Rattle.shared_board.specs.Marks.{AreMarks};

    ghost Value = { DeskValue G };

    ghost view = { λ d. record { board = d.board.now; pass = d.pass } };

    ghost invariant = { λ d. IsPassOf d.board.now d.pass × AreKnown d.pass.view.keys d.known.places.items
        × AreMarks d.pass.view.keys d.marks.by_row.items };
}

impl<'a, G: Game> Desk<'a, G> {
    /// The pass at its board. It takes no memory.
    pub fn new(board: &'a Board<G>, pass: Pass<G>) -> Desk<'a, G>
        requires { IsPassOf board.now pass }
        ensures board { result.board ≡ board.now }
        ensures pass { result.pass ≡ pass }
    {
        Desk {
            board,
            pass,
            known: KnownRows::new(board.alloc, board.rows),
            marks: Marks::new(board.alloc),
        }
    }

    /// The pass, which is still of the board.
    pub fn into_pass(self) -> Pass<G>
        ensures pass { result ≡ self.entry.pass }
        ensures ours { IsPassOf self.entry.board result }
    {
        let Desk {
            board: _,
            pass,
            known: _,
            marks: _,
        } = self;
        pass
    }

    /// The row of a key, claimed for it if need be.
    fn claim_key(&mut self, key: u64) -> Result<Row, Full>
        requires { IsInnerKey (G.model self.old.board.game) key }
        ensures view { (ks : List (ℕ × ℕ)) × (self.new ≡ viewing self.old (more_keys ks self.old.pass.view))
            × (length ks ≤ self.old.board.rows) }
        ensures ok { IfOk result (λ row. Has (row, key) self.new.pass.view.keys) }
        ensures apart { IsApart self.new.pass.view.keys }
        ensures err { OnErr result (((i : ℕ) → i < self.old.board.rows
            → (k : ℕ) × Has (i, k) self.new.pass.view.keys × (k ≢ key))
            × AllNamed (G.model self.old.board.game) self.new.pass.view.keys
            × ((side : Side) (i : ℕ) → IsUnseen (G.model self.old.board.game) self.old.pass.view side i)) }
    {
        if let Some(row) = self.known.find(key) {
            return Ok(Row::new(row));
        }
        let board = self.board;
        let pass = &mut self.pass;
        match claim_row(
            board.alloc,
            &board.words.shared,
            &mut pass.bare.seat,
            board.rows,
            key,
            &mut self.marks,
        ) {
            Some(row) => {
                self.known.keep(board.alloc, key, row);
                Ok(Row::new(row))
            }
            None => Err(Full),
        }
    }

    /// The bounds of a row, by a load of each.
    fn read_row(&mut self, row: Row) -> Enclosure
        requires { (k : ℕ) × Has (row, k) self.old.pass.view.keys }
        ensures view { (a b : ℕ) × (self.new ≡ viewing self.old
            (reading Two (reading One self.old.pass.view row a) row b))
            × (result.lower ≡ as_bound a) × (result.upper ≡ as_bound b) }
        ensures lower { IsBoundAnswer (G.model self.old.board.game) One self.old.pass.view row result.lower }
        ensures upper { IsBoundAnswer (G.model self.old.board.game) Two self.old.pass.view row result.upper }
        ensures shaped { (side : Side) → (row < self.old.board.rows)
            × (length (seen side self.old.pass.view) ≡ self.old.board.rows) }
        ensures apart { IsApart self.old.pass.view.keys }
    {
        let board = self.board;
        let pass = &mut self.pass;
        let words = &board.words.shared;
        let place = row.place();
        let lower = load_word(words, &mut pass.bare.seat, board.rows, Side::One, place);
        let upper = load_word(words, &mut pass.bare.seat, board.rows, Side::Two, place);
        Enclosure {
            lower: bound_of_word(lower),
            upper: bound_of_word(upper),
        }
    }

    /// Raises the lower or cuts the upper bound of a row by one atomic step, and keeps the entry.
    fn post_entry(&mut self, row: Row, e: Entry) -> Result<(), NoMemory>
        requires known { Has (row, e.key) self.old.pass.view.keys }
        requires lawful { IsPostable (G.model self.old.board.game) (desk_view G.model self.old) e }
        ensures ok { OnOk result ((n : ℕ) × (self.new ≡ entering self.old
            (posting e.side self.old.pass.view row (word_of e.bound) n) e)
            × IsLooser e.side (seen_at (G.model self.old.board.game) e.side self.old.pass.view row) n
            × (row < self.old.board.rows) × (length (seen e.side self.old.pass.view) ≡ self.old.board.rows)) }
        ensures err { OnErr result (self.new ≡ self.old) }
    {
        let board = self.board;
        let pass = &mut self.pass;
        pass.bare.book.reserve(1)?;
        let bound = word_of_bound(e.bound);
        post_word(
            &board.words.shared,
            &mut pass.bare.seat,
            board.rows,
            e.side,
            row.place(),
            bound,
        );
        pass.bare.book.push(e);
        Ok(())
    }
}

// A method's clauses here stand in place of the trait's, which are repeated, with what the call does to the desk. They
// follow from the clauses of the functions above, which open the desk.
impl<'a, G: Game> Bounds<G> for Desk<'a, G> {
    ghost Name = { DeskName };

    ghost view = { desk_view G.model };

    fn game(&self) -> G {
        let board = self.board;
        board.game
    }

    fn knows_inner_keys(&self) {
        let pass = &self.pass;
        let _held = pass.bare.held;
    }

    fn total(&self) -> u32 {
        let board = self.board;
        board.total
    }

    /// The row that has the key, claimed if need be, by at most one try a row. It never fails for want of memory, and
    /// the pass learns no more than keys of rows.
    fn claim(&mut self, key: u64) -> Result<Row, Full>
        requires { IsInnerKey (G.model self.old.board.game) key }
        ensures later { IsLater (desk_view G.model self.old) (desk_view G.model self.new) }
        ensures entries { self.new.pass.entries ≡ self.old.pass.entries }
        ensures ok { IfOk result (λ row. (desk_view G.model self.new).key_at row ≡ Some key) }
        ensures alone { IfOk result (λ row. (other : ℕ)
            → (desk_view G.model self.new).key_at other ≡ Some key → other ≡ row) }
        ensures opened { OnOk result ((side : Side) → IsNoTighter side
            (opening_bound (G.model self.old.board.game) side) ((desk_view G.model self.new).seen side key)) }
        ensures unseen { OnErr result ((side : Side) (other : ℕ)
            → (desk_view G.model self.new).seen side other ≡ (desk_view G.model self.old).seen side other) }
        ensures full { OnErr result (IsFull (G.model self.old.board.game) (desk_view G.model self.new) key) }
        ensures learns { (ks : List (ℕ × ℕ)) × (self.new ≡ viewing self.old (more_keys ks self.old.pass.view))
            × (length ks ≤ self.old.board.rows) }
    {
        self.claim_key(key)
    }

    /// The bounds of a row, by a load of each of its two words.
    fn read(&mut self, row: Row) -> Enclosure
        requires { IsSome ((desk_view G.model self.old).key_at row) }
        ensures later { IsLater (desk_view G.model self.old) (desk_view G.model self.new) }
        ensures entries { self.new.pass.entries ≡ self.old.pass.entries }
        ensures seen { (key : ℕ) → (desk_view G.model self.old).key_at row ≡ Some key
            → IsRead (desk_view G.model self.new) result.lower result.upper key }
        ensures backed { (s : G.State) → Reachable (G.model self.old.board.game) s
            → (desk_view G.model self.old).key_at row ≡ Some ((G.model self.old.board.game).key s)
            → IsEnclosure (G.model self.old.board.game) result.lower result.upper s }
        ensures loaded { (a b : ℕ) × (self.new ≡ viewing self.old
            (reading Two (reading One self.old.pass.view row a) row b))
            × (result.lower ≡ as_bound a) × (result.upper ≡ as_bound b) }
    {
        self.read_row(row)
    }

    /// Raises the lower or cuts the upper bound of the row by one atomic step, and keeps the entry. Without memory
    /// it makes no step.
    fn post(&mut self, row: Row, e: Entry) -> Result<(), NoMemory>
        requires row { (desk_view G.model self.old).key_at row ≡ Some e.key }
        requires entry { IsPostable (G.model self.old.board.game) (desk_view G.model self.old) e }
        ensures later { IsLater (desk_view G.model self.old) (desk_view G.model self.new) }
        ensures ok { OnOk result (self.new.pass.entries ≡ self.old.pass.entries ++ e ∷ []) }
        ensures seen { OnOk result (IsNoTighter e.side e.bound ((desk_view G.model self.new).seen e.side e.key)) }
        ensures err { OnErr result (desk_view G.model self.new ≡ desk_view G.model self.old) }
        ensures posted { OnOk result ((n : ℕ)
            × (self.new ≡ entering self.old (posting e.side self.old.pass.view row (word_of e.bound) n) e)) }
        ensures refused { OnErr result (self.new ≡ self.old) }
    {
        self.post_entry(row, e)
    }
}
