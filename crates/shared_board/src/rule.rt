//! The rule of a board's words, and what each step tells.
use crate::view::View;
use atomic_table::{Join, Play, Split, TableRule};
use sim_game::Game;
use std::marker::PhantomData;

/// The rule. Its key is the game and the number of rows.
pub struct Rules;

impl<G: Game> TableRule<(), View<G>, (G, u32)> for Rules {
    ghost use Rattle.sim_game.specs.declared.Side.TheVariants.{One, Two};
    ghost use Rattle.shared_board.specs.Words.{opening_word};
    ghost use Rattle.shared_board.specs.Rule.{IsConsistent, first_view};

    ghost holds = { λ key. IsConsistent (G.model key.0) key.0 key.1 };

    ghost first = { λ key. first_view key.0 key.1 (opening_word (G.model key.0) One)
        (opening_word (G.model key.0) Two) };
}

pub struct Claim<G> {
    game: PhantomData<G>,
}

impl<G: Game> Play<(), View<G>> for Claim<G> {
    ghost use Rattle.shared_board.specs.Plays.{claimed};

    ghost then = { claimed G.model };
}

pub struct Look<G> {
    game: PhantomData<G>,
}

impl<G: Game> Play<(), View<G>> for Look<G> {
    ghost use Rattle.shared_board.specs.Plays.{looked};

    ghost then = { looked G.model };
}

pub struct ReadLower<G> {
    game: PhantomData<G>,
}

impl<G: Game> Play<(), View<G>> for ReadLower<G> {
    ghost use Rattle.sim_game.specs.declared.Side.TheVariants.{One};
    ghost use Rattle.shared_board.specs.Plays.{loaded};

    ghost then = { loaded G.model One };
}

pub struct ReadUpper<G> {
    game: PhantomData<G>,
}

impl<G: Game> Play<(), View<G>> for ReadUpper<G> {
    ghost use Rattle.sim_game.specs.declared.Side.TheVariants.{Two};
    ghost use Rattle.shared_board.specs.Plays.{loaded};

    ghost then = { loaded G.model Two };
}

pub struct Raise<G> {
    game: PhantomData<G>,
}

impl<G: Game> Play<(), View<G>> for Raise<G> {
    ghost use Rattle.sim_game.specs.declared.Side.TheVariants.{One};
    ghost use Rattle.shared_board.specs.Plays.{met};

    ghost then = { met G.model One };
}

pub struct Cut<G> {
    game: PhantomData<G>,
}

impl<G: Game> Play<(), View<G>> for Cut<G> {
    ghost use Rattle.sim_game.specs.declared.Side.TheVariants.{Two};
    ghost use Rattle.shared_board.specs.Plays.{met};

    ghost then = { met G.model Two };
}

/// The lead issues a ticket for a new seat.
pub struct Issue;

impl<G> Split<View<G>> for Issue {
    ghost use Rattle.shared_board.specs.Plays.{issuing, issued_view};

    ghost left = { issuing };

    ghost right = { issued_view };
}

/// A seat takes in all that another has.
pub struct Gather;

impl<G> Join<View<G>> for Gather {
    ghost use Rattle.shared_board.specs.Rule.{spent_view};
    ghost use Rattle.shared_board.specs.Plays.{joined};

    ghost both = { joined };

    ghost spent = { spent_view };
}
