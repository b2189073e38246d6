//! A solver's report and its text.
#![tactic(auto)]

mod error;
mod lines;
mod lists;
mod numbers;
mod parts;
mod positions;
mod reading;
mod report;
mod rows;
mod values;
mod version;
mod writing;

pub use error::TextError;
pub use fields::{
    ASK, ASKED, Absent, Ask, AskRow, Choices, Field, FieldKind, FieldRow, GameKind, LEAST, Pay,
    PositionText, StageMethod, Value, Word,
};
pub use numbers::natural;
pub use reading::{
    NamedReport, lower_versions_are_their_own, read, read_named, reading_undoes_writing,
    texts_are_short,
};
pub use report::{Outcome, Report};
pub use sim_game::Limits;
pub use version::limits_of;
pub use writing::write;
