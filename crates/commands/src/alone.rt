//! Answers to bytes in memory, made by the caller alone: no thread is started, and no device is used.

ghost use Rattle.std.specs.Prelude.{◌+◌, false, take, IfErr, IfOk};
ghost use Rattle.fields.specs.Ranges.{IsAskInRange};
ghost use Rattle.certificate.specs.Ranges.{IsInRange};
ghost use Rattle.lazy_workers.specs.Findings.{IsFoundGame};
ghost use Rattle.position.specs.Games.{OfSame, IsFineFor};
ghost use Rattle.position.specs.Objects.{Fails};
ghost use Rattle.position.specs.Position.{position_of};
ghost use Rattle.commands.specs.Alone.{CanRun, IsFoundReport, input_of};
ghost use Rattle.commands.specs.Finding.{IsFinder};
ghost use Rattle.commands.specs.Words.{HasFewGames};
ghost use Rattle.commands.specs.Runs.{IsAnswer, IsAnswerTo, limit_of};

use crate::finding::find_any_alone;
use crate::run::{Answer, answer_to, limit_of, too_long, usage};
use crate::sample::sampled;
use crate::solve::search_with;
use crate::words::{Command, ReadingCommand};
use certificate::{Ask, Report};
use lazy_workers::Found;
use position::{AnyGame, InputError};
use sim_game::NoMemory;
use std::alloc::Global;

/// The answer to the words of a command, as `run` writes it. Of the bytes it takes at most one more than the command reads.
pub fn answer(alloc: Global, command: Option<Command>, bytes: &[u8]) -> Result<Answer, NoMemory>
    requires { CanRun command }
    ensures { IfOk result (λ a. IsAnswer false command (input_of command bytes.now) a.status a.text) }
{
    let find = |game: AnyGame, ask: Ask| -> Result<Found, NoMemory>
        requires { IsAskInRange ask × IsFineFor game ask.weight }
        ensures { OfSame game.entry (λ S m. IfOk result (IsFoundGame m ask false)) }
    { find_any_alone(alloc, game, &ask) };
    match command {
        None => usage(alloc),
        Some(Command::Sample(number)) => sampled(alloc, find, number),
        Some(Command::Reading(command)) => answer_all(alloc, find, command, bytes),
    }
}

/// The answer to bytes of any number.
#[tactic(auto, using(crate::proofs::AloneLemmas::long_input, crate::proofs::AloneLemmas::short_input))]
fn answer_all<F: FnOnce(AnyGame, Ask) -> Result<Found, NoMemory>>(
    alloc: Global,
    find: F,
    command: ReadingCommand,
    bytes: &[u8],
) -> Result<Answer, NoMemory>
    requires find { IsFinder false (F.pre find) (F.post find) }
    requires few { HasFewGames command }
    ensures { IfOk result (λ a.
        IsAnswerTo false command (take (limit_of command bytes.now + 1) bytes.now) a.status a.text) }
{
    if bytes.len() as u64 > limit_of(command, bytes) {
        too_long(alloc, command)
    } else {
        answer_to(alloc, find, false, command, bytes)
    }
}

/// The report of a search of the position of the bytes, or the first refusal.
pub fn search(alloc: Global, bytes: &[u8]) -> Result<Report, InputError>
    ensures found { IfOk result (IsFoundReport false bytes.now) }
    ensures in_range { IfOk result IsInRange }
    ensures fault { IfErr result (λ e. Fails e (position_of bytes.now)) }
{
    let find = |game: AnyGame, ask: Ask| -> Result<Found, NoMemory>
        requires { IsAskInRange ask × IsFineFor game ask.weight }
        ensures { OfSame game.entry (λ S m. IfOk result (IsFoundGame m ask false)) }
    { find_any_alone(alloc, game, &ask) };
    search_with(alloc, find, false, bytes)
}
