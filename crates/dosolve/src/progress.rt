//! What a long search tells on standard error while it goes on.

ghost use Rattle.std.specs.Prelude.{◌≡◌, ◌+◌, ◌/◌, ◌≤◌, ◌↔◌, ◌≤ℤ◌, ◌-ℤ◌, IsTrue, Some, ◌++◌, codes, decimal, unsigned_abs};
ghost use Rattle.std.specs.Fmt.{signed_decimal};

use std::env::{Env, FillError};
use std::sync::atomic::{AtomicI64, AtomicU64, Ordering};
use std::time::{Clock, Instant};
use std::{array, fmt};

/// The most workers of a search.
const WORKERS: usize = 16;
/// How many states an induction does between two looks at the time.
const BETWEEN_LOOKS: u64 = 64;

/// The last bounds that a worker has told of, in millionths of a payoff. None are known while the upper is the lesser.
#[derive(Drop)]
struct LastBounds {
    lower: AtomicI64,
    upper: AtomicI64,
}

impl LastBounds {
    fn unknown() -> LastBounds {
        LastBounds {
            lower: AtomicI64::new(0),
            upper: AtomicI64::new(-1),
        }
    }
}

/// How many states an induction has listed and valued, and how many rows of plans it has made; each may be one more, which
/// is under way.
#[derive(Drop)]
struct Counts {
    listed: AtomicU64,
    valued: AtomicU64,
    planned: AtomicU64,
    /// When they were told last, in milliseconds since the start.
    told: AtomicU64,
}

/// Tells each worker's spent turns and the seconds since it was made, with the bounds at the root once these are known,
/// and how many states an induction has done, each at most once a second, and only where the environment has
/// `DOSOLVE_PROGRESS`.
#[derive(Drop)]
pub(crate) struct Progress<'a, R> {
    rt: &'a R,
    /// `None` where nothing is to be told.
    start: Option<Instant>,
    /// When each worker has told last, in milliseconds since the start; 0 where it has not.
    told: [AtomicU64; WORKERS],
    bounds: [LastBounds; WORKERS],
    induction: Counts,
}

impl<'a, R: Clock + Env + Eprint> Progress<'a, R> {
    pub(crate) fn new(rt: &'a R) -> Progress<'a, R> {
        Progress {
            rt,
            start: if is_asked(rt) {
                Instant::now(rt).ok()
            } else {
                None
            },
            told: array::from_fn(|_| AtomicU64::new(0)),
            bounds: array::from_fn(|_| LastBounds::unknown()),
            induction: Counts {
                listed: AtomicU64::new(0),
                valued: AtomicU64::new(0),
                planned: AtomicU64::new(0),
                told: AtomicU64::new(0),
            },
        }
    }

    // A frame of its own: the text of a line is made on the stack, and the search is recursive.
    #[inline(never)]
    fn tell(&self, start: Instant, worker: u32, turns: u64) {
        let Some(told) = self.told.get(worker as usize) else {
            return;
        };
        let Ok(elapsed) = start.elapsed(self.rt) else {
            return;
        };
        let now = u64::try_from(elapsed.as_millis()).unwrap_or(u64::MAX);
        if is_due(told.load(Ordering::SeqCst), now) {
            told.store(now, Ordering::SeqCst);
            self.write(worker, ProgressLine::at(worker, turns, now));
        }
    }

    // As `tell`.
    #[inline(never)]
    fn tell_counts(&self, start: Instant) {
        let Ok(elapsed) = start.elapsed(self.rt) else {
            return;
        };
        let now = u64::try_from(elapsed.as_millis()).unwrap_or(u64::MAX);
        let counts = &self.induction;
        let last = counts.told.load(Ordering::SeqCst);
        // Of threads that come at once one tells.
        let is_mine = is_due(last, now)
            && counts
                .told
                .compare_exchange(last, now, Ordering::SeqCst, Ordering::SeqCst)
                .is_ok();
        if is_mine {
            let _ = self.rt.eprintln(InductionLine {
                listed: counts.listed.load(Ordering::SeqCst),
                valued: counts.valued.load(Ordering::SeqCst),
                planned: counts.planned.load(Ordering::SeqCst),
                seconds: seconds_of(now),
            });
        }
    }

    /// One more, and now and then a look at the time, which costs some hundredths of the work at a state.
    fn count(&self, counter: &AtomicU64) {
        let Some(start) = self.start else {
            return;
        };
        if counter.fetch_add(1, Ordering::SeqCst) % BETWEEN_LOOKS == 0 {
            self.tell_counts(start);
        }
    }

    /// A search goes on whether its progress can be written or not.
    fn write(&self, worker: u32, line: ProgressLine) {
        let Some(bounds) = self.bounds.get(worker as usize) else {
            return;
        };
        let lower = bounds.lower.load(Ordering::SeqCst);
        let upper = bounds.upper.load(Ordering::SeqCst);
        let _ = if upper < lower {
            self.rt.eprintln(line)
        } else {
            self.rt.eprintln(BoundedLine::new(line, lower, upper))
        };
    }
}

impl<R: Clock + Env + Eprint> Progress<'_, R> {
    pub(crate) fn at_turn(&self, worker: u32, turn: u64) {
        if let Some(start) = self.start {
            self.tell(start, worker, turn);
        }
    }

    pub(crate) fn at_bounds(&self, worker: u32, lower: i64, upper: i64) {
        if let Some(bounds) = self.bounds.get(worker as usize) {
            bounds.lower.store(lower, Ordering::SeqCst);
            bounds.upper.store(upper, Ordering::SeqCst);
        }
    }

    pub(crate) fn at_listed(&self) {
        self.count(&self.induction.listed);
    }

    pub(crate) fn at_valued(&self) {
        self.count(&self.induction.valued);
    }

    pub(crate) fn at_planned(&self) {
        self.count(&self.induction.planned);
    }
}

/// What is told of a worker: the turns that it has spent, and the seconds since the start.
#[derive(Drop)]
struct ProgressLine {
    worker: u32,
    turns: u64,
    seconds: u64,
}

impl ProgressLine {
    /// What is told at a time, in milliseconds since the start.
    fn at(worker: u32, turns: u64, now: u64) -> ProgressLine
        ensures { result ≡ record { worker = worker; turns = turns; seconds = now / 1000 } }
    {
        ProgressLine {
            worker,
            turns,
            seconds: seconds_of(now),
        }
    }
}

/// The whole seconds in so many milliseconds.
fn seconds_of(milliseconds: u64) -> u64
    ensures { result ≡ milliseconds / 1000 }
{
    milliseconds / 1000
}

impl fmt::Display for ProgressLine {
    ghost output = { λ l. Some (codes "worker " ++ decimal l.worker ++ codes " turns " ++ decimal l.turns
        ++ codes " seconds " ++ decimal l.seconds) };

    fn fmt<W: fmt::Write>(&self, f: &mut fmt::Formatter<W>) -> fmt::Result {
        let ProgressLine {
            worker,
            turns,
            seconds,
        } = self;
        write!(f, "worker {worker} turns {turns} seconds {seconds}")
    }
}

/// The same with the bounds at the root, in millionths of a payoff, and how far these are apart.
#[derive(Drop)]
struct BoundedLine {
    line: ProgressLine,
    lower: i64,
    upper: i64,
    gap: u64,
}

impl BoundedLine {
    fn new(line: ProgressLine, lower: i64, upper: i64) -> BoundedLine
        requires { lower ≤ℤ upper }
        ensures { result ≡ record {
          line = line;
          lower = lower;
          upper = upper;
          gap = unsigned_abs (upper -ℤ lower);
        } }
    {
        BoundedLine {
            line,
            lower,
            upper,
            gap: upper.abs_diff(lower),
        }
    }
}

impl fmt::Display for BoundedLine {
    ghost output = { λ l. Some (codes "worker " ++ decimal l.line.worker ++ codes " turns " ++ decimal l.line.turns
        ++ codes " seconds " ++ decimal l.line.seconds ++ codes " lower " ++ signed_decimal l.lower
        ++ codes " upper " ++ signed_decimal l.upper ++ codes " gap " ++ decimal l.gap) };

    fn fmt<W: fmt::Write>(&self, f: &mut fmt::Formatter<W>) -> fmt::Result {
        let BoundedLine {
            line,
            lower,
            upper,
            gap,
        } = self;
        write!(f, "{line} lower {lower} upper {upper} gap {gap}")
    }
}

/// What is told of an induction: the states that it has listed and valued, the rows of plans that it has made, and the
/// seconds since the start.
#[derive(Drop)]
struct InductionLine {
    listed: u64,
    valued: u64,
    planned: u64,
    seconds: u64,
}

impl fmt::Display for InductionLine {
    ghost output = { λ l. Some (codes "induction listed " ++ decimal l.listed ++ codes " valued " ++ decimal l.valued
        ++ codes " planned " ++ decimal l.planned ++ codes " seconds " ++ decimal l.seconds) };

    fn fmt<W: fmt::Write>(&self, f: &mut fmt::Formatter<W>) -> fmt::Result {
        let InductionLine {
            listed,
            valued,
            planned,
            seconds,
        } = self;
        write!(
            f,
            "induction listed {listed} valued {valued} planned {planned} seconds {seconds}"
        )
    }
}

/// Whether the variable is set, whatever its value. It takes no memory.
fn is_asked<R: Env>(rt: &R) -> bool {
    !matches!(
        rt.var("DOSOLVE_PROGRESS", &mut [0]),
        Err(FillError::NotPresent)
    )
}

/// Whether a worker that has told last at the first time may tell again at the second, both in milliseconds.
fn is_due(last: u64, now: u64) -> bool
    ensures { IsTrue result ↔ (last + 1000 ≤ now) }
{
    now.saturating_sub(last) >= 1000
}
