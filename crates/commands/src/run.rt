//! A run of the program.

ghost use Rattle.std.specs.Prelude.{◌≡◌, ◌≢◌, ◌≤◌, ◌+◌, ℕ, Bool, false, List, length, map, string_bytes, IfOk, Err};
ghost use Rattle.std.specs.Io.KnownBytes.{Consumes, IsAtEnd};
ghost use Rattle.devices.specs.Causes.{Rose, IsCalm};
ghost use Rattle.devices.specs.Taken.{TakesPast, TakesWithin};
ghost use Rattle.fields.specs.Ranges.{IsAskInRange};
ghost use Rattle.lazy_workers.specs.Findings.{IsFoundGame};
ghost use Rattle.position.specs.Games.{OfSame, IsFineFor};
ghost use Rattle.commands.specs.Finding.{IsFinder};
ghost use Rattle.commands.specs.Words.{HasFewGames, command_of};
ghost use Rattle.commands.specs.Texts.{usage_text, input_text};
ghost use Rattle.commands.specs.Runs.{IsAnswerTo, limit_of, IsRun, IsWritten};

use crate::bounds::bounded;
use crate::check::{checked, faulty, most_report, read_report};
use crate::finding::find_any;
use crate::measure::exploited;
use crate::play::played;
use crate::reports::ReportFault;
use crate::sample::sampled;
use crate::solve::solved;
use crate::words::{Command, ReadingCommand, command_of};
use certificate::Ask;
use lazy_workers::Found;
use oracle_search::Gate;
use position::{
    AnyGame, InputError, MOST_TABLE_BYTES, ReadError, Sink, Source, read_all, write_all,
};
use seq::Seq;
use sim_game::NoMemory;
use std::alloc::Global;
use std::thread::Threads;
use text::Text;

/// What is answered: the status of the program, and its whole text.
#[derive(Drop)]
pub struct Answer {
    pub status: u8,
    pub text: Seq<u8>,
}

/// The answer that has the text.
pub(crate) fn written(status: u8, text: Text) -> Answer
    ensures status { result.status ≡ status }
    ensures text { result.text ≡ text }
{
    Answer {
        status,
        text: Seq::from_vec(text.into_bytes()),
    }
}

const USAGE: &[u8] =
    b"usage: dosolve solve, check, bounds, sample N, exploit SIDE or play COUNT SEED\n";

/// Reads what the command needs, makes the whole answer, and writes it. The result is the status of the program. The gate
/// can stop a search of `solve` where `may_stop` says so; then the outcome can be `stopped`.
pub fn run<R: Threads + Sync, S: Source, K: Sink, T: Gate + Sync>(
    rt: &R,
    alloc: Global,
    words: &[String],
    source: &mut S,
    sink: &mut K,
    gate: &T,
    may_stop: bool,
) -> u8
    ensures { IsRun may_stop (command_of (map string_bytes words.now))
        (S.state source.old) (S.state source.new) (K.state sink.old) (K.state sink.new) result }
{
    let find = |game: AnyGame, ask: Ask| -> Result<Found, NoMemory>
        requires { IsAskInRange ask × IsFineFor game ask.weight }
        ensures { OfSame game.entry (λ S m. IfOk result (IsFoundGame m ask may_stop)) }
    { find_any(rt, alloc, game, &ask, gate, may_stop) };
    let find_whole = |game: AnyGame, ask: Ask| -> Result<Found, NoMemory>
        requires { IsAskInRange ask × IsFineFor game ask.weight }
        ensures { OfSame game.entry (λ S m. IfOk result (IsFoundGame m ask false)) }
    { find_any(rt, alloc, game, &ask, gate, false) };
    match command_of(words) {
        None => respond(sink, usage(alloc)),
        Some(Command::Sample(number)) => respond(sink, sampled(alloc, find_whole, number)),
        Some(Command::Reading(command)) => match input(alloc, source, command) {
            Ok(bytes) => respond(sink, answer_to(alloc, find, may_stop, command, &bytes)),
            Err(ReadError::TooLong) => respond(sink, too_long(alloc, command)),
            Err(ReadError::Failed) => 6,
            Err(ReadError::NoMemory) => 8,
        },
    }
}

/// How many bytes a position may have; all but tables with linear stages have fewer.
const MOST_POSITION: u64 = MOST_TABLE_BYTES as u64;

/// The most bytes that a command reads, of bytes that begin so.
pub(crate) fn limit_of(command: ReadingCommand, bytes: &[u8]) -> u64
    ensures { result ≡ limit_of command bytes.now }
{
    match command {
        ReadingCommand::Solve => MOST_POSITION,
        ReadingCommand::Check => most_report(bytes),
        ReadingCommand::Bounds => MOST_POSITION,
        ReadingCommand::Exploit(_) => most_report(bytes),
        ReadingCommand::Play { .. } => most_report(bytes),
    }
}

/// All bytes of a source up to its end, if there are no more than the command reads.
fn input<S: Source>(
    alloc: Global,
    source: &mut S,
    command: ReadingCommand,
) -> Result<Vec<u8>, ReadError>
    ensures ok { IfOk result (λ v. Consumes (S.state source.old).left (S.state source.new).left v.items
        × IsAtEnd (S.state source.new).left) }
    ensures within { IfOk result (λ v. length v.items ≤ limit_of command v.items) }
    ensures too_long { result ≡ Err ReadError.TooLong
        → TakesPast (limit_of command) (S.state source.old).left (S.state source.new).left }
    ensures others { result ≢ Err ReadError.TooLong
        → TakesWithin (limit_of command) (S.state source.old).left (S.state source.new).left }
    ensures failed { result ≡ Err ReadError.Failed → Rose (S.state source.old).faults (S.state source.new).faults }
    ensures calm { result ≢ Err ReadError.Failed → IsCalm (S.state source.old).faults (S.state source.new).faults }
{
    match command {
        ReadingCommand::Solve => read_all(alloc, source, MOST_POSITION),
        ReadingCommand::Check => read_report(alloc, source),
        ReadingCommand::Bounds => read_all(alloc, source, MOST_POSITION),
        ReadingCommand::Exploit(_) => read_report(alloc, source),
        ReadingCommand::Play { .. } => read_report(alloc, source),
    }
}

/// The answer to the bytes that a command is given, where they are not too many.
pub(crate) fn answer_to<F: FnOnce(AnyGame, Ask) -> Result<Found, NoMemory>>(
    alloc: Global,
    find: F,
    may_stop: bool,
    command: ReadingCommand,
    bytes: &[u8],
) -> Result<Answer, NoMemory>
    requires find { IsFinder may_stop (F.pre find) (F.post find) }
    requires short { length bytes.now ≤ limit_of command bytes.now }
    requires few { HasFewGames command }
    ensures { IfOk result (λ a. IsAnswerTo may_stop command bytes.now a.status a.text) }
{
    match command {
        ReadingCommand::Solve => solved(alloc, find, may_stop, bytes),
        ReadingCommand::Check => checked(alloc, bytes),
        ReadingCommand::Bounds => bounded(alloc, bytes),
        ReadingCommand::Exploit(side) => exploited(alloc, side, bytes),
        ReadingCommand::Play { games, seed } => played(alloc, games, seed, bytes),
    }
}

/// The answer to more bytes than the command reads.
pub(crate) fn too_long(alloc: Global, command: ReadingCommand) -> Result<Answer, NoMemory>
    ensures { IfOk result (λ a. (may_stop : Bool) (bytes : List ℕ) → length bytes ≡ limit_of command bytes + 1
        → IsAnswerTo may_stop command bytes a.status a.text) }
{
    match command {
        ReadingCommand::Solve => refused(alloc, InputError::TooLong),
        ReadingCommand::Check => faulty(alloc, ReportFault::TooLong),
        ReadingCommand::Bounds => refused(alloc, InputError::TooLong),
        ReadingCommand::Exploit(_) => faulty(alloc, ReportFault::TooLong),
        ReadingCommand::Play { .. } => faulty(alloc, ReportFault::TooLong),
    }
}

/// Writes the answer. The result is its status, or that of a failed sink or of want of memory.
fn respond<K: Sink>(sink: &mut K, answer: Result<Answer, NoMemory>) -> u8
    ensures { IsWritten answer (K.state sink.old) (K.state sink.new) result }
{
    match answer {
        Ok(answer) => match write_all(sink, answer.text.as_slice()) {
            Ok(()) => answer.status,
            Err(_) => 7,
        },
        Err(_) => 8,
    }
}

pub(crate) fn usage(alloc: Global) -> Result<Answer, NoMemory>
    ensures { IfOk result (λ a. (a.status ≡ 1) × (a.text ≡ usage_text)) }
{
    let mut text = Text::new(alloc);
    text.word(USAGE)?;
    Ok(written(1, text))
}

pub(crate) fn refused(alloc: Global, error: InputError) -> Result<Answer, NoMemory>
    ensures { IfOk result (λ a. (a.status ≡ 2) × (a.text ≡ input_text error) × (error ≢ InputError.NoMemory)) }
{
    if error == InputError::NoMemory {
        return Err(NoMemory);
    }
    let mut text = Text::new(alloc);
    text.word_number(b"input ", &error.code())?;
    text.word(b" ")?;
    error.tell(&mut text)?;
    text.word(b"\n")?;
    Ok(written(2, text))
}
