//! The answer to the bytes of a report.

ghost use Rattle.std.specs.Prelude.{◌≡◌, ◌≢◌, ◌≤◌, ℕ, List, length, IfOk, MatchResult};
ghost use Rattle.std.specs.declared.result.Result.TheVariants.{Ok, Err};
ghost use Rattle.std.specs.Io.KnownBytes.{Consumes, IsAtEnd};
ghost use Rattle.devices.specs.Causes.{Rose, IsCalm};
ghost use Rattle.devices.specs.Taken.{TakesPast, TakesWithin};
ghost use Rattle.certificate.specs.Ranges.{IsInRange};
ghost use Rattle.checker.specs.Verdicts.{IsVerdict};
ghost use Rattle.position.specs.Games.{IsGameOf, HasTotalsOf};
ghost use Rattle.position.specs.HasGame.{HasGame, HasGame-prop, HasTotalsOf-prop};
ghost use Rattle.commands.specs.Reports.{accepted_text, fault_text};
ghost use Rattle.commands.specs.Checks.{most_report, report_in, IsChecked};

use crate::reports::{ReportFault, accepted_text, words};
use crate::run::{Answer, written};
use certificate::{NamedReport, Report, TextError, limits_of, read_named};
use checker::{Verdict, check};
use devices::{ReadError, Source, limit_for, read_within};
use position::{AnyGame, GameVisitor, build, game_of, totals};
use seq::Seq;
use sim_game::{Game, NoMemory};
use std::alloc::Global;
use text::Text;

/// How many bytes a report may have.
const MOST_REPORT: u64 = 1_073_741_824;

/// How many a report of version 3 may have.
const MOST_NEWEST: u64 = 4_294_967_296;

/// The first line of a report of version 3.
const NEWEST_HEAD: &[u8] = b"dosolve report 3\n";

/// How many bytes a report may have, by its first line.
pub(crate) fn most_report(bytes: &[u8]) -> u64
    ensures { result ≡ most_report bytes.now }
{
    limit_for(MOST_REPORT, NEWEST_HEAD, MOST_NEWEST, bytes)
}

/// All bytes of a source up to its end, if there are no more than a report may have.
pub(crate) fn read_report<S: Source>(alloc: Global, source: &mut S) -> Result<Vec<u8>, ReadError>
    ensures ok { IfOk result (λ v. Consumes (S.state source.old).left (S.state source.new).left v.items
        × IsAtEnd (S.state source.new).left) }
    ensures within { IfOk result (λ v. length v.items ≤ most_report v.items) }
    ensures too_long { result ≡ Err ReadError.TooLong
        → TakesPast most_report (S.state source.old).left (S.state source.new).left }
    ensures others { result ≢ Err ReadError.TooLong
        → TakesWithin most_report (S.state source.old).left (S.state source.new).left }
    ensures failed { result ≡ Err ReadError.Failed → Rose (S.state source.old).faults (S.state source.new).faults }
    ensures calm { result ≢ Err ReadError.Failed → IsCalm (S.state source.old).faults (S.state source.new).faults }
{
    read_within(alloc, source, MOST_REPORT, NEWEST_HEAD, MOST_NEWEST)
}

/// A report whose position breaks no rule of its game.
#[derive(Drop)]
pub struct ReportedGame {
    pub report: Report,
    /// What the game keeps beside the report's position.
    totals: Seq<i32>,
    ghost has_game: { HasGame report.position } by { HasGame-prop report.position },
    ghost totals_are: { HasTotalsOf report.position totals } by { HasTotalsOf-prop report.position totals },
}

impl ReportedGame {
    /// The game of the report's position, which borrows from its text.
    pub fn game(&self) -> AnyGame
        ensures { IsGameOf self.now.report.position result }
    {
        game_of(&self.report.position, &self.totals)
    }
}

/// The report of the bytes, which are not too many, where its position has a game within the limits of its version; or
/// what is wrong first.
#[tactic(auto, using(crate::proofs::CheckLemmas::built_of), unfolding(crate::specs::Checks::report_in))]
pub(crate) fn report_in(alloc: Global, bytes: &[u8]) -> Result<ReportedGame, ReportFault>
    requires { length bytes.now ≤ most_report bytes.now }
    ensures { MatchResult result
        (λ found. (report_in bytes.now ≡ Ok found.report) × IsInRange found.report)
        (λ fault. fault ≢ ReportFault.Text TextError.NoMemory → report_in bytes.now ≡ Err fault) }
{
    let NamedReport { version, report } = match read_named(alloc, bytes) {
        Ok(named) => named,
        Err(error) => return Err(ReportFault::Text(error)),
    };
    let totals = match totals(alloc, &report.position) {
        Ok(totals) => totals,
        Err(_) => return Err(ReportFault::Text(TextError::NoMemory)),
    };
    if let Err(error) = build(limits_of(version), &report.position, &totals) {
        return Err(ReportFault::Position(error));
    }
    if report.version() != version {
        return Err(ReportFault::Text(TextError::Head));
    }
    Ok(ReportedGame { report, totals })
}

/// Has the checker judge a report.
#[derive(Drop)]
struct Judge<'a> {
    alloc: Global,
    report: &'a Report,
}

impl<'a> GameVisitor for Judge<'a> {
    type Answer = Result<Verdict, NoMemory>;

    ghost can_visit = { λ v _. IsInRange v.report.now };

    ghost says = { λ v _ m answer. IfOk answer (IsVerdict m v.report.now) };

    fn visit<G: Game + Send + Sync>(self, game: G) -> Result<Verdict, NoMemory>
    where
        G::State: Send + Sync,
    {
        check(self.alloc, game, self.report)
    }
}

/// The answer to the bytes of a report, which are not too many.
pub(crate) fn checked(alloc: Global, bytes: &[u8]) -> Result<Answer, NoMemory>
    requires { length bytes.now ≤ most_report bytes.now }
    ensures { IfOk result (λ a. IsChecked bytes.now a.status a.text) }
{
    match report_in(alloc, bytes) {
        Ok(found) => judged(alloc, &found.report, found.game()),
        Err(fault) => faulty(alloc, fault),
    }
}

/// The answer to a report whose game this is.
fn judged(alloc: Global, report: &Report, game: AnyGame) -> Result<Answer, NoMemory>
    requires range { IsInRange report.now }
    requires built { IsGameOf report.now.position game }
    ensures { IfOk result (λ a. (bytes : List ℕ) → report_in bytes ≡ Ok report.now
        → IsChecked bytes a.status a.text) }
{
    match game.accept(Judge { alloc, report }) {
        Ok(Verdict::Accepted) => accepted(alloc, report),
        Ok(Verdict::Refused(why)) => faulty(alloc, ReportFault::Refused(why)),
        Err(_) => Err(NoMemory),
    }
}

fn accepted(alloc: Global, report: &Report) -> Result<Answer, NoMemory>
    ensures { IfOk result (λ a. (a.status ≡ 0) × (a.text ≡ accepted_text report.now)) }
{
    let text = accepted_text(alloc, report)?;
    Ok(Answer {
        status: 0,
        text: Seq::from_vec(text),
    })
}

/// The answer to the bytes of a report that has a fault.
pub(crate) fn faulty(alloc: Global, fault: ReportFault) -> Result<Answer, NoMemory>
    ensures { IfOk result (λ a. (a.status ≡ 9) × (a.text ≡ fault_text fault)
        × (fault ≢ ReportFault.Text TextError.NoMemory)) }
{
    if fault == ReportFault::Text(TextError::NoMemory) {
        return Err(NoMemory);
    }
    let mut text = Text::new(alloc);
    words(&mut text, fault)?;
    text.word(b"\n")?;
    Ok(written(9, text))
}
