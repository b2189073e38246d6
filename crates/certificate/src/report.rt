//! What a search answers.

ghost use Rattle.std.specs.Prelude.{◌≡◌, ◌≤ℤ◌, ◌<ℤ◌, All, MatchBool};
ghost use Rattle.certificate.specs.Outcomes.{gap_of, IsWide, IsAllowed};

use fields::PositionText;
use plan_book::Sheet;
use seq::Seq;

/// How a search ended.
#[derive(Clone, Copy, Debug, PartialEq, Eq)]
pub enum Outcome {
    /// The gap is at most the one asked.
    Closed,
    /// The gap is wider than asked, and at most the resolution.
    Settled,
    /// Every worker's turns are spent.
    Spent,
    /// The board was full.
    Full,
    /// The search was told to stop.
    Stopped,
}

/// Two bounds of a game's value, the sheets that guarantee them, and how they were found. Bounds, gaps and the
/// resolution are in millionths of a payoff.
#[derive(Drop)]
pub struct Report {
    pub position: PositionText,
    /// What the weights of each sheet's rows sum to.
    pub weight: u32,
    /// How many stages each worker might solve.
    pub turns: u64,
    /// The gap asked.
    pub asked: i64,
    /// The gap that a search with this weight reaches.
    pub resolution: i64,
    pub outcome: Outcome,
    pub lower: i64,
    pub upper: i64,
    /// How many stages each worker solved.
    pub spent: Seq<u64>,
    pub one: Sheet,
    pub two: Sheet,
}

impl Report {
    /// Whether the outcome is one that the numbers allow.
    pub fn is_allowed(&self) -> bool
        ensures { MatchBool result (IsAllowed self.now) (¬ IsAllowed self.now) }
    {
        match self.outcome {
            Outcome::Closed => !self.is_wider(&self.asked),
            Outcome::Settled => self.is_wider(&self.asked) && !self.is_wider(&self.resolution),
            Outcome::Spent => self.is_wide() && are_all(self.spent.as_slice(), self.turns),
            Outcome::Full => self.is_wide(),
            Outcome::Stopped => self.is_wide(),
        }
    }

    /// Whether the gap is wider than another.
    fn is_wider(&self, gap: &i64) -> bool
        ensures { MatchBool result (gap.now <ℤ gap_of self.now) (gap_of self.now ≤ℤ gap.now) }
    {
        self.gap() > i128::from(*gap)
    }

    fn gap(&self) -> i128
        ensures { result ≡ gap_of self.now }
    {
        i128::from(self.upper) - i128::from(self.lower)
    }

    /// Whether the gap is wider than asked and than the resolution.
    fn is_wide(&self) -> bool
        ensures { MatchBool result (IsWide self.now) (¬ IsWide self.now) }
    {
        self.is_wider(&self.asked) && self.is_wider(&self.resolution)
    }
}

/// Whether each count is this number.
fn are_all(counts: &[u64], number: u64) -> bool
    ensures { MatchBool result (All (λ n. n ≡ number) counts.now) (¬ All (λ n. n ≡ number) counts.now) }
{
    counts.iter().all(|count| *count == number)
}
