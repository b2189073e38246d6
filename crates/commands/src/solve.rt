//! The answer to the bytes of a position that is to be solved.

ghost use Rattle.std.specs.Prelude.{◌≡◌, Ok, IfErr, IfOk};
ghost use Rattle.fields.specs.Ranges.{IsAskInRange, IsPositionInRange};
ghost use Rattle.certificate.specs.Ranges.{IsInRange};
ghost use Rattle.certificate.specs.Reading.{read_report};
ghost use Rattle.certificate.specs.Texts.{report_text};
ghost use Rattle.position.specs.Games.{OfGame};
ghost use Rattle.position.specs.Objects.{Fails};
ghost use Rattle.position.specs.Position.{position_of};
ghost use Rattle.solution.specs.Solutions.{IsSolution};
ghost use Rattle.commands.specs.Alone.{IsFoundReport};
ghost use Rattle.commands.specs.Finding.{IsFinder};
ghost use Rattle.commands.specs.Runs.{status_of, IsSolved};

use crate::run::{Answer, refused};
use certificate::{Ask, Outcome, Report, write};
use lazy_workers::Found;
use position::{AnyGame, InputError, Task, position};
use seq::Seq;
use sim_game::NoMemory;
use solution::report_of;
use std::alloc::Global;

/// The report of a search of what a task asks, which may be stopped or not.
fn search_task<F: FnOnce(AnyGame, Ask) -> Result<Found, NoMemory>>(
    alloc: Global,
    find: F,
    may_stop: bool,
    task: Task,
) -> Result<Report, NoMemory>
    requires find { IsFinder may_stop (F.pre find) (F.post find) }
    requires text { IsPositionInRange task.text }
    requires ask { IsAskInRange task.ask }
    ensures found { IfOk result (λ r. OfGame task.text (λ S m. IsSolution m task.text task.ask may_stop r)) }
    ensures in_range { IfOk result IsInRange }
{
    let found = find(task.game(), task.ask)?;
    let solved = report_of(alloc, found, task.text, &task.ask)?;
    Ok(solved.report)
}

/// The report of a search of the position of the bytes, or the first refusal.
pub(crate) fn search_with<F: FnOnce(AnyGame, Ask) -> Result<Found, NoMemory>>(
    alloc: Global,
    find: F,
    may_stop: bool,
    bytes: &[u8],
) -> Result<Report, InputError>
    requires find { IsFinder may_stop (F.pre find) (F.post find) }
    ensures found { IfOk result (IsFoundReport may_stop bytes.now) }
    ensures in_range { IfOk result IsInRange }
    ensures fault { IfErr result (λ e. Fails e (position_of bytes.now)) }
{
    match position(alloc, bytes) {
        Ok(task) => match search_task(alloc, find, may_stop, task) {
            Ok(report) => Ok(report),
            Err(_) => Err(InputError::NoMemory),
        },
        Err(error) => Err(error),
    }
}

/// The answer to the bytes of a position: the text of the report of a search, or a refusal.
pub(crate) fn solved<F: FnOnce(AnyGame, Ask) -> Result<Found, NoMemory>>(
    alloc: Global,
    find: F,
    may_stop: bool,
    bytes: &[u8],
) -> Result<Answer, NoMemory>
    requires { IsFinder may_stop (F.pre find) (F.post find) }
    ensures { IfOk result (λ a. IsSolved may_stop bytes.now a.status a.text) }
{
    match search_with(alloc, find, may_stop, bytes) {
        Ok(report) => reported(alloc, &report),
        Err(error) => refused(alloc, error),
    }
}

fn reported(alloc: Global, report: &Report) -> Result<Answer, NoMemory>
    requires { IsInRange report.now }
    ensures { IfOk result (λ a. (a.status ≡ status_of report.now.outcome) × (a.text ≡ report_text report.now)
        × (read_report (report_text report.now) ≡ Ok report.now)) }
{
    let text = write(alloc, report)?;
    Ok(Answer {
        status: status_of(report.outcome),
        text: Seq::from_vec(text),
    })
}

/// The status of a report with the outcome.
pub fn status_of(outcome: Outcome) -> u8
    ensures { result ≡ status_of outcome }
{
    match outcome {
        Outcome::Closed => 0,
        Outcome::Settled => 3,
        Outcome::Spent | Outcome::Stopped => 4,
        Outcome::Full => 5,
    }
}
