//! When a search is told to stop: after a time, or once a file is there.

ghost use Rattle.std.specs.Prelude.{◌≡◌, ◌≤◌, ◌+◌, ◌-◌, ◌*◌, ◌/◌, ◌↔◌, min, IsTrue};

use std::alloc::Global;
use std::env::{Env, VarError};
use std::fs::Files;
use std::sync::atomic::{AtomicBool, AtomicU64, Ordering};
use std::time::{Clock, Instant};
use std::{env, fs};

/// Of a whole number of seconds, from 1 on.
const SECONDS: &str = "DOSOLVE_SECONDS";
/// Of the path of a file.
const FILE: &str = "DOSOLVE_STOP";

/// How long it is until the file is looked for again, in milliseconds.
const BETWEEN_LOOKS: u64 = 100;

/// The most of a time that is kept for what follows a search, in milliseconds.
const MOST_KEPT: u64 = 5000;

/// Is over once nearly so many seconds have passed since it was made, or once the file is there, as the environment says;
/// and never again not.
#[derive(Drop)]
pub(crate) struct Limit<'a, R> {
    rt: &'a R,
    /// `None` where nothing ends it.
    start: Option<Instant>,
    /// When it ends, in milliseconds since the start; `None` where no time does.
    end: Option<u64>,
    file: Option<String>,
    /// When the file is to be looked for, in milliseconds since the start.
    next_look: AtomicU64,
    has_ended: AtomicBool,
}

impl<'a, R: Clock + Env + Files + Eprint + Alloc<A = Global>> Limit<'a, R> {
    pub(crate) fn new(rt: &'a R) -> Limit<'a, R> {
        let end = milliseconds(rt).map(search_time);
        let file = env::var(rt, FILE).ok();
        let start = if end.is_some() || file.is_some() {
            Instant::now(rt).ok()
        } else {
            None
        };
        Limit {
            rt,
            start,
            end,
            file,
            next_look: AtomicU64::new(0),
            has_ended: AtomicBool::new(false),
        }
    }

    /// Whether it can be over at all.
    pub(crate) fn is_set(&self) -> bool {
        self.start.is_some()
    }

    pub(crate) fn is_over(&self) -> bool {
        match self.start {
            Some(start) => self.is_over_since(start),
            None => false,
        }
    }

    // A frame of its own: a look takes room on the stack, and the search is recursive.
    #[inline(never)]
    fn is_over_since(&self, start: Instant) -> bool {
        if self.has_ended.load(Ordering::SeqCst) {
            return true;
        }
        let Ok(elapsed) = start.elapsed(self.rt) else {
            return false;
        };
        let now = u64::try_from(elapsed.as_millis()).unwrap_or(u64::MAX);
        let has_ended = match self.end {
            Some(end) if is_reached(end, now) => true,
            _ => self.finds_file(now),
        };
        if has_ended {
            self.has_ended.store(true, Ordering::SeqCst);
        }
        has_ended
    }

    /// Whether the file is there, where it is time to look. A file that cannot be looked for is not.
    fn finds_file(&self, now: u64) -> bool {
        let Some(file) = &self.file else {
            return false;
        };
        if !is_reached(self.next_look.load(Ordering::SeqCst), now) {
            return false;
        }
        self.next_look.store(next_look(now), Ordering::SeqCst);
        fs::exists(self.rt, file).unwrap_or(false)
    }
}

/// The time that the environment gives a search, in milliseconds. What is no whole number of seconds from 1 on is told on
/// standard error, and passed over.
fn milliseconds<R: Env + Eprint + Alloc<A = Global>>(rt: &R) -> Option<u64> {
    let text = match env::var(rt, SECONDS) {
        Ok(text) => text,
        Err(VarError::NotPresent) => return None,
        Err(_) => return passed_over(rt),
    };
    match text.parse::<u64>() {
        Ok(seconds) if seconds >= 1 => Some(milliseconds_of(seconds)),
        _ => passed_over(rt),
    }
}

fn passed_over<R: Eprint>(rt: &R) -> Option<u64> {
    let _ = rt.eprintln(
        "DOSOLVE_SECONDS is no whole number of seconds from 1 on: no limit of time",
    );
    None
}

/// So many seconds in milliseconds, as many as fit.
fn milliseconds_of(seconds: u64) -> u64
    ensures { result ≡ min (seconds * 1000) 18446744073709551615 }
{
    seconds.saturating_mul(1000)
}

/// How long is searched in a time, both in milliseconds: a tenth of it, and no more than five seconds, is kept for the
/// report.
fn search_time(all: u64) -> u64
    ensures { result ≡ all - min (all / 10) 5000 }
{
    all - (all / 10).min(MOST_KEPT)
}

/// Whether it is so late, both in milliseconds.
fn is_reached(end: u64, now: u64) -> bool
    ensures { IsTrue result ↔ (end ≤ now) }
{
    now >= end
}

/// When a file that was looked for now is to be looked for again.
fn next_look(now: u64) -> u64
    ensures { result ≡ min (now + 100) 18446744073709551615 }
{
    now.saturating_add(BETWEEN_LOOKS)
}
