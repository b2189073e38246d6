//! What a thread knows of a board, and what it has posted.
ghost use Rattle.std.specs.Prelude.{◌≡◌};
ghost use Rattle.shared_board.specs.Bare.{pass_of, IsSoundPass};

use crate::view::View;
use atomic_table::Seat;
use plan_book::Book;
use sim_game::Game;
use std::marker::Model;

/// What a thread knows of a board, and the entries that it has posted.
#[derive(Drop)]
pub struct Pass<G: Game> {
    pub(crate) bare: BarePass<G>,
}

impl<G: Game> Model for Pass<G> {
    ghost use Rattle.shared_board.specs.Bare.{pass_of, IsSoundPass};
    ghost use Rattle.shared_board.specs.Values.{PassValue};

    ghost Value = { PassValue G };

    ghost view = { λ p. pass_of p.bare };

    ghost invariant = { λ p. IsSoundPass G.model p.bare };
}

/// A pass without what its type says of it, which its clauses say. A closure in generic code may take and return it.
#[derive(Drop)]
pub struct BarePass<G> {
    pub seat: Seat<(), View<G>>,
    pub book: Book,
    pub lead: bool,
    pub issued: u32,
    /// How many tickets it holds, and no more than the greatest number of the type.
    pub held: u32,
}

impl<G: Game> Pass<G> {
    /// Whether it is the board's lead, which alone may split and close.
    pub fn lead(&self) -> bool
        ensures { result ≡ self.now.view.lead }
    {
        self.bare.lead
    }

    /// The pass as its fields alone.
    pub fn into_bare(self) -> BarePass<G>
        ensures same { pass_of result ≡ self }
        ensures sound { IsSoundPass G.model result }
    {
        let Pass { bare } = self;
        bare
    }

    /// The pass of these fields.
    pub fn from_bare(bare: BarePass<G>) -> Pass<G>
        requires { IsSoundPass G.model bare }
        ensures { result ≡ pass_of bare }
    {
        Pass { bare }
    }
}
