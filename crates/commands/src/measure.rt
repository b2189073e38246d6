//! The answer to the bytes of a report, the plan of one side of which is measured.

ghost use Rattle.std.specs.Prelude.{◌≡◌, ◌≤◌, length, IfOk, OnOk};
ghost use Rattle.text.specs.Texts.{Adds};
ghost use Rattle.certificate.specs.Ranges.{IsInRange};
ghost use Rattle.position.specs.Games.{OfGame};
ghost use Rattle.commands.specs.Checks.{most_report};
ghost use Rattle.commands.specs.Measured.{IsExploited, IsMeasured, full_text, measured_text, most_states, sheet_of, worth_words};

use crate::check::{ReportedGame, faulty, report_in};
use crate::run::{Answer, written};
use certificate::{Limits, Report, limits_of};
use exploit::{WorstCase, WorstError, Worth, is_worst, worst};
use plan_book::Sheet;
use position::GameVisitor;
use sim_game::{Game, NoMemory, Side};
use std::alloc::Global;
use text::Text;

/// To how many states that are no ends a sheet of the report may come, by its version.
fn most_states(report: &Report) -> u32
    ensures { result ≡ most_states report.now }
{
    match limits_of(report.version()) {
        Limits::Narrow => 1_048_576,
        Limits::Wide => 16_777_216,
    }
}

/// Finds the worst case of the plan of a side.
#[derive(Drop)]
struct Measurer<'a> {
    alloc: Global,
    report: &'a Report,
    side: Side,
}

impl<'a> GameVisitor for Measurer<'a> {
    type Answer = Result<WorstCase, WorstError>;

    ghost can_visit = { λ v _. IsInRange v.report.now };

    ghost says = { λ v _ m answer. IsMeasured m (sheet_of v.side v.report.now) (most_states v.report.now) answer };

    fn visit<G: Game + Send + Sync>(self, game: G) -> Result<WorstCase, WorstError>
    where
        G::State: Send + Sync,
    {
        let sheet = sheet_of(self.report, self.side);
        is_worst(&game, sheet);
        worst(self.alloc, game, sheet, most_states(self.report))
    }
}

/// The sheet of a side.
pub fn sheet_of<'a>(report: &'a Report, side: Side) -> &'a Sheet
    ensures { result.now ≡ sheet_of side report.now }
{
    match side {
        Side::One => &report.one,
        Side::Two => &report.two,
    }
}

/// The worst case of the plan of a side of a report, which need not be lawful, where it comes to at most 1048576 states
/// that are no ends, under version 3 to 16777216.
pub fn worst_of(alloc: Global, found: &ReportedGame, side: Side) -> Result<WorstCase, WorstError>
    requires { IsInRange found.now.report }
    ensures { let r = found.now.report in
        OfGame r.position (λ S m. IsMeasured m (sheet_of side r) (most_states r) result) }
{
    found.game().accept(Measurer {
        alloc,
        report: &found.report,
        side,
    })
}

/// The answer to the bytes of a report, which are not too many.
pub(crate) fn exploited(alloc: Global, side: Side, bytes: &[u8]) -> Result<Answer, NoMemory>
    requires { length bytes.now ≤ most_report bytes.now }
    ensures { IfOk result (λ a. IsExploited side bytes.now a.status a.text) }
{
    match report_in(alloc, bytes) {
        Ok(found) => match worst_of(alloc, &found, side) {
            Ok(case) => measured(alloc, side, case.worth),
            Err(WorstError::TooMany { .. }) => full(alloc),
            Err(WorstError::NoMemory) => Err(NoMemory),
        },
        Err(fault) => faulty(alloc, fault),
    }
}

fn full(alloc: Global) -> Result<Answer, NoMemory>
    ensures { IfOk result (λ a. (a.status ≡ 5) × (a.text ≡ full_text)) }
{
    let mut text = Text::new(alloc);
    text.word(b"states full\n")?;
    Ok(written(5, text))
}

fn measured(alloc: Global, side: Side, worth: Worth) -> Result<Answer, NoMemory>
    ensures { IfOk result (λ a. (a.status ≡ 0) × (a.text ≡ measured_text side worth)) }
{
    let mut text = Text::new(alloc);
    text.word_side(b"exploit ", side)?;
    add_worth(&mut text, worth)?;
    text.word(b"\n")?;
    Ok(written(0, text))
}

fn add_worth(text: &mut Text, worth: Worth) -> Result<(), NoMemory>
    ensures { OnOk result (Adds text.old text.new (worth_words worth)) }
{
    match worth {
        Worth::Exact { sum, base, power } => {
            text.word_number(b" exact ", &sum)?;
            text.next(&base)?;
            text.next(&power)
        }
        Worth::Between { low, high } => {
            text.word_number(b" between ", &low)?;
            text.next(&high)
        }
    }
}
