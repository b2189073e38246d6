//! Games that two sheets play against each other, by given words or by those of a seed.
#![tactic(auto)]

ghost use Rattle.std.specs.Prelude.{◌≡◌, ℕ, ◌<◌, ◌≤◌, ℤ, []};
ghost use Rattle.sums.specs.Sums.{count_below};
ghost use Rattle.sim_game.specs.Model.{whole_chance};
ghost use Rattle.plan_book.specs.Expected.{expected};
ghost use Rattle.plan_book.specs.Plans.{Plan};
ghost use Rattle.referee.specs.declared.Totals.{Totals};
ghost use Rattle.referee.specs.Picks.{IsFirstAbove, first_above};
ghost use Rattle.referee.specs.Tallies.{AreTotals};
ghost use Rattle.referee.specs.WordSums.{sum_words};
ghost use Rattle.referee.specs.Transcripts.{IsGamePlayed, IsPlayable, payoff_by};

mod game;
mod many;
mod picks;
mod stream;

pub use game::play;
pub use many::tally;
use plan_book::Sheet;
use seq::Seq;
use sim_game::{Game, Side};
use thiserror::Error;

/// A turn of a game: the moves and the draw, each numbered from 0, with the key of the state in which it was made.
#[derive(Clone, Copy, PartialEq, Eq, Debug)]
pub struct PlayedTurn {
    pub key: u64,
    /// One's move.
    pub one: u32,
    /// Two's move.
    pub two: u32,
    pub draw: u32,
}

/// A game from the root to the first end.
#[derive(Drop)]
pub struct Record {
    pub turns: Seq<PlayedTurn>,
    /// What One gets: a whole payoff of the game, and no millionths.
    pub payoff: i32,
}

/// Why a game was not played.
#[derive(Clone, Copy, PartialEq, Eq, Debug, Error)]
pub enum RefereeError {
    #[error("there are fewer than {need} words")]
    WordsShort {
        /// Three for each rank of the root, at most 189.
        need: u32,
    },
    #[error("there is no memory")]
    NoMemory,
}

/// What One gets in several games, in whole payoffs.
#[derive(Clone, Copy, PartialEq, Eq, Debug)]
pub struct Totals {
    /// How many games there are.
    pub games: u32,
    pub sum: i64,
    pub least: i32,
    pub most: i32,
}

/// Games have at most one list of totals.
pub fn one_tally()
    ensures { (games : ℕ) (payoff : ℕ → ℤ) (a b : Totals)
        → AreTotals games payoff a → AreTotals games payoff b → a ≡ b }
{}

/// A word below the sum of the weights picks the first number whose cumulated weight, its own included, exceeds it.
pub fn picks_first()
    ensures { (n x : ℕ) (weight : ℕ → ℕ) → x < count_below n weight → IsFirstAbove n weight x (first_above n weight x) }
{}

/// Over all lists of three words for each rank of the root, the first of each three below One's total, the second below
/// Two's and the third below 360360, the payoffs of the transcripts sum to what the plans lead to over the whole tree.
pub fn payoffs_sum<G: Game>(_g: &G)
    ensures { let m = G.model _g.now in
        (one two : Plan) → 1 ≤ one.total → 1 ≤ two.total
        → sum_words one.total two.total whole_chance (m.rank m.root) (payoff_by m one two)
        ≡ expected m one two (m.rank m.root) m.root [] }
{}
