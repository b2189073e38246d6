//! The report that a text spells.

ghost use Rattle.std.specs.Prelude.{◌≡◌, ◌≤◌, ◌+◌, ◌*◌, ℕ, true, List, length, Ok, IfOk};
ghost use Rattle.certificate.specs.declared.report.Report.{Report};
ghost use Rattle.fields.specs.Positions.{is_small};
ghost use Rattle.fields.specs.Ranges.{IsPositionInRange};
ghost use Rattle.certificate.specs.Ranges.{IsInRange};
ghost use Rattle.certificate.specs.Texts.{report_text};
ghost use Rattle.certificate.specs.Unread.{Unread};
ghost use Rattle.certificate.specs.Versions.{version_of};
ghost use Rattle.certificate.specs.Reading.{Gives, outcome_of, outcome_in, outcome, outcome_line, spent_line, end_line, version_line, head, terms, findings, sheets, report, named_report, read_report};

use crate::lines::{Line, Lines};
use crate::version::{NEWEST_VERSION, has_outcome, limits_of};
use crate::{Outcome, Report, TextError};
use plan_book::{Sheet, SheetRow};
use seq::Seq;
use sim_game::{Limits, Side};
use std::alloc::Global;

/// The outcome whose word it is.
#[tactic(auto, unfolding(crate::specs::Reading::outcome_of))]
fn outcome_of(word: &[u8]) -> Option<Outcome>
    ensures { result ≡ outcome_of word.now }
{
    if word == b"closed".as_slice() {
        Some(Outcome::Closed)
    } else if word == b"settled".as_slice() {
        Some(Outcome::Settled)
    } else if word == b"spent".as_slice() {
        Some(Outcome::Spent)
    } else if word == b"full".as_slice() {
        Some(Outcome::Full)
    } else if word == b"stopped".as_slice() {
        Some(Outcome::Stopped)
    } else {
        None
    }
}

/// The outcome of the word, if the version has it.
#[tactic(auto, unfolding(crate::specs::Reading::outcome_in))]
fn outcome_in_version(word: &[u8], version: u32) -> Option<Outcome>
    ensures { result ≡ outcome_in version word.now }
{
    let outcome = outcome_of(word)?;
    if has_outcome(version, outcome) {
        Some(outcome)
    } else {
        None
    }
}

impl Line<'_> {
    #[tactic(auto, unfolding(crate::specs::Reading::outcome))]
    fn outcome(&mut self, version: u32) -> Result<Outcome, TextError>
        ensures { Gives (λ o. (o, self.new)) result (outcome version self.old) }
    {
        let number = self.number();
        let word = self.field()?;
        outcome_in_version(word, version).ok_or(TextError::Line { number })
    }
}

impl Lines<'_> {
    #[tactic(auto, unfolding(crate::specs::Reading::outcome_line))]
    fn outcome(&mut self, version: u32) -> Result<Outcome, TextError>
        ensures { Gives (λ o. (o, self.new)) result (outcome_line version self.old) }
    {
        let mut line = self.line(2, 2)?;
        line.expect(b"outcome")?;
        line.outcome(version)
    }

    #[tactic(auto, unfolding(crate::specs::Reading::spent_line))]
    fn spent(&mut self, alloc: Global) -> Result<Seq<u64>, TextError>
        ensures { Gives (λ ns. (ns, self.new)) result (spent_line self.old) }
    {
        let mut line = self.line(2, 17)?;
        line.expect(b"spent")?;
        line.turns(alloc)
    }

    #[tactic(auto, unfolding(crate::specs::Reading::end_line))]
    fn end(&mut self) -> Result<(), TextError>
        ensures { Gives (λ u. (u, self.new)) result (end_line self.old) }
    {
        let mut line = self.line(1, 1)?;
        line.expect(b"end")
    }

    #[tactic(auto, unfolding(crate::specs::Reading::version_line))]
    fn version(&mut self) -> Result<u32, TextError>
        ensures { Gives (λ v. (v, self.new)) result (version_line self.old) }
    {
        let mut line = self.line(3, 3)?;
        line.expect(b"dosolve")?;
        line.expect(b"report")?;
        let version = line.natural(1, NEWEST_VERSION as u64)?;
        Ok(version as u32)
    }

    /// The version, of which the first line tells.
    #[tactic(auto, unfolding(crate::specs::Reading::head))]
    fn head(&mut self) -> Result<u32, TextError>
        ensures { Gives (λ v. (v, self.new)) result (head self.old) }
    {
        match self.version() {
            Ok(version) => Ok(version),
            Err(TextError::NoMemory) => Err(TextError::NoMemory),
            Err(_) => Err(TextError::Head),
        }
    }

    /// The weight, the turns, the gap asked and the resolution.
    #[tactic(auto, unfolding(crate::specs::Reading::terms))]
    fn terms(&mut self) -> Result<(u32, u64, i64, i64), TextError>
        ensures { Gives (λ x. (x, self.new)) result (terms self.old) }
    {
        let weight = self.natural(b"weight", 8192, 1_048_576)?;
        let turns = self.natural(b"turns", 0, 1_099_511_627_776)?;
        let asked = self.integer(b"asked", 0, 8_000_000_000)?;
        let resolution = self.integer(b"resolution", 0, 99_999_999_999)?;
        Ok((weight as u32, turns, asked, resolution))
    }

    /// The outcome, the bounds and the turns spent, in a report of the version.
    #[tactic(auto, unfolding(crate::specs::Reading::findings))]
    fn findings(
        &mut self,
        alloc: Global,
        version: u32,
    ) -> Result<(Outcome, i64, i64, Seq<u64>), TextError>
        ensures { Gives (λ x. (x, self.new)) result (findings version self.old) }
    {
        let outcome = self.outcome(version)?;
        let lower = self.integer(b"lower", -4_000_000_000, 4_000_000_000)?;
        let upper = self.integer(b"upper", -4_000_000_000, 4_000_000_000)?;
        let spent = self.spent(alloc)?;
        Ok((outcome, lower, upper, spent))
    }

    /// The rows of both sheets, and the last line.
    #[tactic(auto, unfolding(crate::specs::Reading::sheets))]
    fn sheets(
        &mut self,
        alloc: Global,
        limits: Limits,
    ) -> Result<(Seq<SheetRow>, Seq<SheetRow>), TextError>
        ensures { Gives (λ x. (x, self.new)) result (sheets limits self.old) }
    {
        let one = self.sheet(alloc, limits, b"one")?;
        let two = self.sheet(alloc, limits, b"two")?;
        self.end()?;
        Ok((one, two))
    }

    /// The lines behind the first, in a report of the version.
    #[tactic(auto, unfolding(crate::specs::Reading::report))]
    fn report(&mut self, alloc: Global, version: u32) -> Result<Report, TextError>
        ensures { Gives (λ r. (r, self.new)) result (report version self.old) }
    {
        let position = self.game(alloc, version)?;
        let (weight, turns, asked, resolution) = self.terms()?;
        let (outcome, lower, upper, spent) = self.findings(alloc, version)?;
        let (one, two) = self.sheets(alloc, limits_of(version))?;
        Ok(Report {
            position,
            weight,
            turns,
            asked,
            resolution,
            outcome,
            lower,
            upper,
            spent,
            one: Sheet {
                side: Side::One,
                total: weight,
                rows: one,
            },
            two: Sheet {
                side: Side::Two,
                total: weight,
                rows: two,
            },
        })
    }
}

/// A report, and the version that its text names, which need not be its own.
#[derive(Drop)]
pub struct NamedReport {
    pub version: u32,
    pub report: Report,
}

/// The version that the text names, and the report that it spells under it, or the first fault. Lines are tried in order,
/// each for its end, its form, its numbers and its place.
#[tactic(auto, unfolding(crate::specs::Reading::named_report))]
pub fn read_named(alloc: Global, text: &[u8]) -> Result<NamedReport, TextError>
    ensures exact { Gives (λ x. (x.version, x.report)) result (named_report text.now) }
    ensures position { IfOk result (λ x. IsPositionInRange x.report.position) }
    // Under its own version it is a report in range.
    ensures own { IfOk result (λ x. version_of x.report ≡ x.version → IsInRange x.report) }
{
    let mut lines = Lines::new(text);
    let version = lines.head()?;
    let report = lines.report(alloc, version)?;
    if !lines.is_over() {
        return Err(TextError::Tail);
    }
    Ok(NamedReport { version, report })
}

/// The report that the text spells, or its first fault. A version that is not the report's own is found last, as a fault
/// of the first line.
#[tactic(auto, unfolding(crate::specs::Reading::read_report))]
pub fn read(alloc: Global, text: &[u8]) -> Result<Report, TextError>
    ensures exact { Gives (λ r. r) result (read_report text.now) }
    // What is read is a report in range, and the text is the one that it has.
    ensures in_range { IfOk result IsInRange }
    ensures text { IfOk result (λ r. text.now ≡ report_text r) }
{
    let NamedReport { version, report } = read_named(alloc, text)?;
    if report.version() != version {
        return Err(TextError::Head);
    }
    Ok(report)
}

/// Reading and writing undo each other.
pub fn reading_undoes_writing()
    ensures again { (r : Report) → IsInRange r → read_report (report_text r) ≡ Ok r }
    ensures only { (bytes : List ℕ) (r : Report) → read_report bytes ≡ Ok r
        → (bytes ≡ report_text r) × IsInRange r }
{}

/// Below version 3 what is read has the version that its text names, unless the narrow rules refuse its position. So no
/// text is refused for its version alone.
pub fn lower_versions_are_their_own()
    ensures { (version : ℕ) (u : Unread) (x : Report × Unread) → version ≤ 2
        → report version u ≡ Ok x → is_small x.0.position ≡ true → version_of x.0 ≡ version }
{}

/// How long the text of a report can be, in bytes: in all, and below version 3.
pub fn texts_are_short()
    ensures by_rows { (r : Report) → IsInRange r
        → length (report_text r) ≤ 2900001037 + (length r.one.rows + length r.two.rows) * 555 }
    ensures narrow { (r : Report) → IsInRange r → version_of r ≤ 2 → length (report_text r) ≤ 1073741824 }
{}
