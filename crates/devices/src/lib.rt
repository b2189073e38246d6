//! Sources and sinks of bytes.
#![tactic(auto)]

mod memory_sink;
mod memory_source;
mod pieces;
mod plain;
mod sink;
mod source;
mod standard;

pub use memory_sink::MemorySink;
pub use memory_source::MemorySource;
pub use plain::{PlainSink, PlainSource};
pub use sink::{Sink, write_all};
pub use source::{Failed, ReadError, Source, limit_for, read_all, read_within};
pub use standard::{StdSink, StdSource};
