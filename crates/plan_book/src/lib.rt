//! Plans for games of simultaneous moves, the bounds that they guarantee, and the books that they are made from.
#![tactic(auto)]

ghost use Rattle.std.specs.Prelude.{◌≡◌, ◌≤◌, ℤ, ◌≤ℤ◌};
ghost use Rattle.sim_game.specs.Model.{Reachable};
ghost use Rattle.plan_book.specs.Backed.{IsBacked};
ghost use Rattle.plan_book.specs.Expected.{Guarantees};
ghost use Rattle.plan_book.specs.Plans.{Plan};
ghost use Rattle.plan_book.specs.Serial.{serial_bound};
ghost use Rattle.plan_book.specs.Sheets.{IsLawful, bound_at, plan_of, root_bound};

mod book;
mod bounds;
mod chance_free;
mod crossing;
mod follow;
mod gather;
mod records;
mod weights;

pub use book::Book;
pub use bounds::{bound_of, place_of};
pub use chance_free::chance_free_games;
pub use crossing::crosses;
pub use follow::{children, weight_of};
use seq::Seq;
use sim_game::{Game, Side};
pub use weights::{is_whole, weights_of};

/// A bound of a side at the state of a key, in millionths of a payoff, with the weights of the own moves that prove it
/// over numbers at the children.
#[derive(Drop)]
pub struct Entry {
    pub key: u64,
    pub side: Side,
    pub bound: i64,
    /// One weight for each own move.
    pub weights: Seq<u32>,
}

/// A state's key, the bound there in millionths of a payoff, and the weights of the own moves.
#[derive(Drop)]
pub struct SheetRow {
    pub key: u64,
    pub bound: i64,
    pub weights: Seq<u32>,
}

/// A plan of a side with the bound that it guarantees in each of its states, in rising order of keys.
#[derive(Drop)]
pub struct Sheet {
    pub side: Side,
    /// What the weights of each row sum to.
    pub total: u32,
    pub rows: Seq<SheetRow>,
}

/// A lawful sheet guarantees its bound at the root against every plan of the other side.
pub fn sheet_guarantees<G: Game>(_g: &G, _sheet: &Sheet)
    requires lawful { IsLawful (G.model _g.now) _sheet.now }
    requires some { 1 ≤ _sheet.now.total }
    ensures { let m = G.model _g.now in
        Guarantees m _sheet.now.side (plan_of _sheet.now) (root_bound m _sheet.now) }
{}

/// What a plan of One guarantees is at most what a plan of Two guarantees.
pub fn guarantees_meet<G: Game>(_g: &G)
    ensures { let m = G.model _g.now in
        (one two : Plan) (lower upper : ℤ)
        → Guarantees m Side.One one lower → Guarantees m Side.Two two upper → lower ≤ℤ upper }
{}

/// A backed bound of One is at most a backed bound of Two.
pub fn backed_meet<G: Game>(_g: &G, _s: G::State)
    requires { Reachable (G.model _g.now) _s }
    ensures { let m = G.model _g.now in
        (lower upper : ℤ) → IsBacked m Side.One _s lower → IsBacked m Side.Two _s upper → lower ≤ℤ upper }
{}

/// The serial bound of a side is backed.
pub fn serial_backed<G: Game>(_g: &G, _side: Side, _s: G::State)
    requires { Reachable (G.model _g.now) _s }
    ensures { IsBacked (G.model _g.now) _side _s (serial_bound (G.model _g.now) _side _s) }
{}

/// Each bound of a lawful sheet is backed.
pub fn sheet_backed<G: Game>(_g: &G, _sheet: &Sheet, _s: G::State)
    requires lawful { IsLawful (G.model _g.now) _sheet.now }
    requires reachable { Reachable (G.model _g.now) _s }
    ensures { let m = G.model _g.now in
        IsBacked m _sheet.now.side _s (bound_at m _sheet.now.side _sheet.now.rows _s) }
{}
