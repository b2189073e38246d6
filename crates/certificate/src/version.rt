//! The version of a report, and how much reports of a version can hold.

ghost use Rattle.std.specs.Prelude.{◌≡◌, ◌+◌};
ghost use Rattle.certificate.specs.Versions.{has_game, is_older, has_outcome, limits_of, most_rows, most_moves, is_long, needs_newest, version_of};

use crate::{Outcome, Report};
use fields::GameKind;
use plan_book::Sheet;
use sim_game::Limits;

/// The newest version of reports; the first is 1.
pub(crate) const NEWEST_VERSION: u32 = 3;

pub(crate) fn has_game(version: u32, game: GameKind) -> bool
    ensures { result ≡ has_game version game }
{
    game.version() == version || version == NEWEST_VERSION
}

/// Whether the versions before the newest have the outcome.
fn is_older(outcome: Outcome) -> bool
    ensures { result ≡ is_older outcome }
{
    match outcome {
        Outcome::Closed | Outcome::Settled | Outcome::Spent | Outcome::Full => true,
        Outcome::Stopped => false,
    }
}

pub(crate) fn has_outcome(version: u32, outcome: Outcome) -> bool
    ensures { result ≡ has_outcome version outcome }
{
    is_older(outcome) || version == NEWEST_VERSION
}

/// The limits of reports of the version: wide from 3 on.
pub fn limits_of(version: u32) -> Limits
    ensures { result ≡ limits_of version }
{
    if version == NEWEST_VERSION {
        Limits::Wide
    } else {
        Limits::Narrow
    }
}

/// The most rows of a sheet.
pub(crate) fn most_rows(limits: Limits) -> u64
    ensures { result ≡ most_rows limits }
{
    match limits {
        Limits::Narrow => 1_048_576,
        Limits::Wide => 16_777_216,
    }
}

/// The most fields of a row: its key, its bound and its weights.
pub(crate) fn most_row_fields(limits: Limits) -> usize
    ensures { result ≡ 2 + most_moves limits }
{
    match limits {
        Limits::Narrow => 34,
        Limits::Wide => 66,
    }
}

fn is_long(sheet: &Sheet) -> bool
    ensures { result ≡ is_long sheet.now }
{
    sheet.rows.len() > 1_048_576
}

impl Report {
    /// The version of the report. That of its game, from 1 on, unless the report needs the newest: if the position or
    /// a sheet is beyond the narrow limits, or the search was told to stop.
    pub fn version(&self) -> u32
        ensures { result ≡ version_of self.now }
    {
        if self.needs_newest() {
            NEWEST_VERSION
        } else {
            self.position.game().version()
        }
    }

    fn needs_newest(&self) -> bool
        ensures { result ≡ needs_newest self.now }
    {
        !self.position.is_narrow()
            || is_long(&self.one)
            || is_long(&self.two)
            || !is_older(self.outcome)
    }
}
