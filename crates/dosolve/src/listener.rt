//! What listens to a search: it tells of its progress, and stops it at its limit.

use crate::limit::Limit;
use crate::progress::Progress;
use oracle_search::{Gate, Signal};
use std::alloc::Global;
use std::env::Env;
use std::fs::Files;
use std::time::Clock;

#[derive(Drop)]
pub(crate) struct Listener<'a, R> {
    progress: Progress<'a, R>,
    limit: Limit<'a, R>,
}

impl<'a, R: Clock + Env + Files + Eprint + Alloc<A = Global>> Listener<'a, R> {
    pub(crate) fn new(progress: Progress<'a, R>, limit: Limit<'a, R>) -> Listener<'a, R> {
        Listener { progress, limit }
    }

    /// Whether it may stop a search.
    pub(crate) fn may_stop(&self) -> bool {
        self.limit.is_set()
    }
}

impl<R: Clock + Env + Files + Eprint + Alloc<A = Global>> Gate for Listener<'_, R> {
    fn at_turn(&self, worker: u32, turn: u64) {
        self.progress.at_turn(worker, turn);
    }

    fn signal(&self) -> Signal {
        if self.limit.is_over() {
            Signal::Stop
        } else {
            Signal::GoOn
        }
    }

    fn at_bounds(&self, worker: u32, lower: i64, upper: i64) {
        self.progress.at_bounds(worker, lower, upper);
    }

    fn at_listed(&self) {
        self.progress.at_listed();
    }

    fn at_valued(&self) {
        self.progress.at_valued();
    }

    fn at_planned(&self) {
        self.progress.at_planned();
    }
}
