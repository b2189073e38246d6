//! Positions read from bytes.
#![tactic(auto)]

mod error;
mod games;
mod object;
mod reading;
mod states;
mod task;

pub use devices::{
    Failed, MemorySink, MemorySource, PlainSink, PlainSource, ReadError, Sink, Source, StdSink,
    StdSource, read_all, write_all,
};
pub use fields::Field;
pub use games::{
    AnyGame, GameVisitor, InputError, LEAST_WIDE_WEIGHT, build, game_of, narrow_rules_ask_more,
    position_has_one_game, totals,
};
pub use reading::{MOST_BYTES, MOST_TABLE_BYTES, position};
pub use task::Task;
