//! What was found, without the book: the plans of the best entries, and their bounds.

ghost use Rattle.std.specs.Prelude.{◌≡◌, IfOk};
ghost use Rattle.fields.specs.Ranges.{IsAskInRange};
ghost use Rattle.lazy_workers.specs.Findings.{IsFoundFor};
ghost use Rattle.lazy_workers.specs.Searched.{IsSearched};

use crate::budgets::Begun;
use fields::Ask;
use matrix_game::Turns;
use plan_book::{Book, Sheet, bound_of};
use seq::Seq;
use shared_board::Kept;
use sim_game::{Game, NoMemory, Side, resolution};

/// A plan of each player and the bound that it guarantees, in millionths of a payoff; and what the search leaves.
#[derive(Drop)]
pub struct Found {
    pub lower: i64,
    pub upper: i64,
    /// The gap is certain to be at most this, or at most what was asked, where turns and rows suffice.
    pub resolution: i64,
    pub one: Sheet,
    pub two: Sheet,
    /// The turns of each worker.
    pub turns: Seq<Turns>,
    /// The bounds of the states that the board had rows for, by row.
    pub kept: Seq<Kept>,
    /// Whether the search of some worker ended at a full board.
    pub was_full: bool,
}

/// What all workers together have put on the board.
#[derive(Drop)]
pub(crate) struct Gathered {
    pub book: Book,
    pub kept: Seq<Kept>,
    pub turns: Seq<Turns>,
    pub was_full: bool,
}

/// The plans of the best entries of the book. What the budgets began with stands in the contract alone.
pub(crate) fn found_in<G: Game>(
    g: G,
    ask: &Ask,
    gathered: Gathered,
    begun: Begun,
) -> Result<Found, NoMemory>
    requires ask { IsAskInRange ask.now }
    requires total { gathered.book.total ≡ ask.now.weight }
    requires searched { IsSearched (G.model g) ask.now begun
        gathered.book.entries gathered.kept gathered.turns gathered.was_full }
    ensures { IfOk result (IsFoundFor (G.model g) ask.now begun) }
{
    let one = gathered.book.sheet(g, Side::One)?;
    let two = gathered.book.sheet(g, Side::Two)?;
    let lower = bound_of(g, &one, g.root());
    let upper = bound_of(g, &two, g.root());
    let resolution = resolution(g, ask.weight);
    Ok(Found {
        lower,
        upper,
        resolution,
        one,
        two,
        turns: gathered.turns,
        kept: gathered.kept,
        was_full: gathered.was_full,
    })
}
