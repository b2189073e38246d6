//! Solves finite two-player zero-sum games in which both players move at the same time.
#![tactic(auto)]

mod limit;
mod listener;
mod progress;

ghost use Rattle.std.specs.Prelude.{None, map, string_bytes, IfOk, OnErr};
ghost use Rattle.std.specs.Process.{exit_status};
ghost use Rattle.commands.specs.Runs.{IsRun};
ghost use Rattle.commands.specs.Words.{command_of};

use crate::limit::Limit;
use crate::listener::Listener;
use crate::progress::Progress;
use commands::run::run;
use oracle_search::Gate;
use position::{Sink, Source, StdSink, StdSource};
use std::alloc::Global;
use std::env::Env;
use std::io::ErrorKind;
use std::process::ExitCode;
use std::thread::Threads;
use std::{env, io};

/// The words behind the program's name. Fails for want of memory, or where one is not UTF-8.
fn arguments<R: Env + Alloc<A = Global>>(rt: &R) -> io::Result<Vec<String>> {
    let mut words = Vec::new(rt.alloc());
    for word in env::args(rt)?.skip(1) {
        words.push(word)?;
    }
    Ok(words)
}

/// The end of a run over the words, where they were read, by a gate that may stop it or not. No command is run by words
/// that were not.
fn ended<R: Threads + Sync, S: Source, K: Sink, T: Gate + Sync>(
    rt: &R,
    alloc: Global,
    words: &io::Result<Vec<String>>,
    source: &mut S,
    sink: &mut K,
    gate: &T,
    may_stop: bool,
) -> ExitCode
    ensures read { IfOk words.now (λ all. IsRun may_stop (command_of (map string_bytes all.items))
        (S.state source.old) (S.state source.new) (K.state sink.old) (K.state sink.new) (exit_status result)) }
    ensures unread { OnErr words.now (IsRun may_stop None
        (S.state source.old) (S.state source.new) (K.state sink.old) (K.state sink.new) (exit_status result)) }
{
    match words {
        Ok(words) => ExitCode::from(run(rt, alloc, words, source, sink, gate, may_stop)),
        Err(error) if error.kind() == ErrorKind::OutOfMemory => ExitCode::from(8),
        // A word that is not UTF-8 is no command.
        Err(_) => ExitCode::from(run(rt, alloc, &[], source, sink, gate, may_stop)),
    }
}

fn main(rt: HostRuntime) -> ExitCode {
    let gate = Listener::new(Progress::new(&rt), Limit::new(&rt));
    let mut source = StdSource::new(rt.stdin());
    let mut sink = StdSink::new(rt.stdout());
    let words = arguments(&rt);
    let may_stop = gate.may_stop();
    ended(
        &rt,
        rt.alloc(),
        &words,
        &mut source,
        &mut sink,
        &gate,
        may_stop,
    )
}
