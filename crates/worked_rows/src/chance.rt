//! A game of chance alone.

ghost use Rattle.sim_game.specs.Numbers.{by_key, numbered_by_key};
ghost use Rattle.std.specs.Prelude.{◌^◌};
ghost use Rattle.worked_rows.specs.Chance.{one_in_three, one_in_three_is_game};

use sim_game::{Game, Side};

/// The root, and the ends after its three draws.
#[derive(Clone, Copy, PartialEq, Eq, Debug)]
pub enum Place {
    Root,
    First,
    Second,
    Third,
}

/// A game of one turn in which each side has one move. Of three draws of one weight the first pays 1 to One, and the
/// others pay nothing.
#[derive(Clone, Copy, PartialEq, Eq, Debug)]
pub struct OneInThree;

impl Game for OneInThree {
    type State = Place;

    ghost model = { λ game. one_in_three };

    ghost numbering = { λ game. by_key one_in_three (2 ^ 63) };

    fn root(&self) -> Place {
        Place::Root
    }

    fn moves(&self, _side: Side, s: Place) -> u32 {
        self.rank(s)
    }

    fn next(&self, _s: Place, _a: u32, _b: u32) -> Place {
        Place::First
    }

    fn payoff(&self, s: Place) -> i32 {
        match s {
            Place::First => 1,
            Place::Root | Place::Second | Place::Third => 0,
        }
    }

    fn reward(&self, _s: Place, _a: u32, _b: u32, _d: u32) -> i32 {
        0
    }

    fn least(&self, _s: Place) -> i32 {
        0
    }

    fn most(&self, _s: Place) -> i32 {
        1
    }

    fn rank(&self, s: Place) -> u32 {
        match s {
            Place::Root => 1,
            Place::First | Place::Second | Place::Third => 0,
        }
    }

    fn key(&self, s: Place) -> u64 {
        match s {
            Place::Root => 0,
            Place::First => 1,
            Place::Second => 2,
            Place::Third => 3,
        }
    }

    fn most_states(&self) -> u64 {
        1 << 63
    }

    fn place(&self, s: Place) -> u64 {
        self.key(s)
    }

    fn low(&self) -> i32 {
        0
    }

    fn high(&self) -> i32 {
        1
    }

    fn width(&self) -> u32 {
        1
    }

    fn label(&self, _side: Side, _s: Place, _i: u32) -> u8 {
        0
    }

    fn chance_free(&self) -> bool {
        false
    }

    fn draws(&self, _s: Place, _a: u32, _b: u32) -> u32 {
        3
    }

    fn chance(&self, _s: Place, _a: u32, _b: u32, _d: u32) -> u32 {
        120120
    }

    fn drawn(&self, _s: Place, _a: u32, _b: u32, d: u32) -> Place {
        match d {
            0 => Place::First,
            1 => Place::Second,
            _ => Place::Third,
        }
    }

    ghost lawful = { λ game. one_in_three_is_game };

    ghost numbered = { λ game.
        numbered_by_key one_in_three one_in_three_is_game (2 ^ 63) one_in_three_is_game.key_high };
}
