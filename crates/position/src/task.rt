//! A position that has a game, and what is asked of the search.

ghost use Rattle.position.specs.HasGame.{HasGame, HasGame-prop, HasTotalsOf-prop, IsFineTotal-prop};
ghost use Rattle.position.specs.Games.{HasTotalsOf, IsFineTotal};

use crate::{AnyGame, game_of};
use fields::{Ask, PositionText};
use seq::Seq;

/// A position that breaks no rule of its game, and what is asked of the search: weights fine enough for the game.
#[derive(Debug, Drop)]
pub struct Task {
    pub text: PositionText,
    /// What the game keeps beside the text.
    pub totals: Seq<i32>,
    pub ask: Ask,
    pub ghost has_game: { HasGame text } by { HasGame-prop text },
    pub ghost totals_are: { HasTotalsOf text totals } by { HasTotalsOf-prop text totals },
    pub ghost fine: { IsFineTotal text ask.weight } by { IsFineTotal-prop text ask.weight },
}

impl Task {
    ghost use Rattle.position.specs.Games.{IsGameOf, IsFineFor};

    /// The game of the position, which borrows from the task. The weight that is asked for is fine enough for it.
    pub fn game(&self) -> AnyGame
        ensures is { IsGameOf self.now.text result }
        ensures fine { IsFineFor result self.now.ask.weight }
    {
        game_of(&self.text, &self.totals)
    }
}
