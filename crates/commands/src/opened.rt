//! A report that was read, and the rows of its plans.

ghost use Rattle.std.specs.Prelude.{◌≡◌, ◌≢◌, Some, None, Ok, Err, MatchOption, MatchResult};
ghost use Rattle.plan_book.specs.Sheets.{row_at};
ghost use Rattle.certificate.specs.Ranges.{IsInRange};
ghost use Rattle.commands.specs.Checks.{report_in};
ghost use Rattle.commands.specs.Measured.{sheet_of};

use crate::check::{ReportedGame, most_report, report_in};
use crate::measure::sheet_of;
use crate::reports::ReportFault;
use certificate::{Report, TextError};
use plan_book::{SheetRow, place_of};
use sim_game::Side;
use std::alloc::Global;

/// The report of bytes of any number, where its position has a game; or what is wrong first.
#[tactic(auto, unfolding(crate::specs::Checks::report_in))]
pub fn open(alloc: Global, bytes: &[u8]) -> Result<ReportedGame, ReportFault>
    ensures { MatchResult result
        (λ found. (report_in bytes.now ≡ Ok found.report) × IsInRange found.report)
        (λ fault. fault ≢ ReportFault.Text TextError.NoMemory → report_in bytes.now ≡ Err fault) }
{
    if bytes.len() as u64 > most_report(bytes) {
        return Err(ReportFault::TooLong);
    }
    report_in(alloc, bytes)
}

/// The row of the plan of a side at a key.
pub fn row_of<'a>(report: &'a Report, side: Side, key: u64) -> Option<&'a SheetRow>
    requires { IsInRange report.now }
    ensures { let rows = (sheet_of side report.now).rows in
        MatchOption result (row_at rows key ≡ None) (λ r. row_at rows key ≡ Some r.now) }
{
    let rows = sheet_of(report, side).rows.as_slice();
    match place_of(rows, key) {
        Some(place) => Some(&rows[place]),
        None => None,
    }
}
