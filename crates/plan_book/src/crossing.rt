//! Entries and books may go from one thread to another.
use crate::Entry;
use crate::book::Book;

fn may_be_sent<T: Send>() {}

/// An entry and a book may be sent.
pub fn crosses() {
    may_be_sent::<Entry>();
    may_be_sent::<Book>();
}
