//! The fields of a position and of what is asked of a search, and their values.
#![tactic(auto)]

mod ask;
mod field;
mod positions;

pub use ask::{ASK, ASKED, Ask, LEAST, NARROW_ASK, SearchMethod, StageMethod};
pub use field::{Absent, AskRow, Choices, Field, FieldKind, FieldRow, Value, Word};
pub use goofspiel::Pay;
pub use positions::{
    GAMES, GameKind, NARROW_COINS, NARROW_MOVES, NARROW_TURNS, PositionText, Shown,
    narrow_positions_fit,
};
