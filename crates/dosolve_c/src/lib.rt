//! The commands for callers of C: bytes handed in, and the answer in the caller's memory.
#![tactic(auto)]

ghost use Rattle.std.specs.Prelude.{◌≡◌, [], Some};
ghost use Rattle.commands.specs.declared.words.Command.TheVariants.{Reading};
ghost use Rattle.commands.specs.declared.words.ReadingCommand.TheVariants.{Solve, Check, Bounds};
ghost use Rattle.commands.specs.Alone.{CanRun};
ghost use Rattle.dosolve_c.specs.Calls.{IsToldInMemory, can_play, exploit_at, play_at, put_over, sample_at};

mod plans;
mod seeds;

use commands::alone::answer;
use commands::words::{Command, ReadingCommand};
use sim_game::Side;
use std::alloc::Global;

/// As `solve`. The status is the program's, the front of the text goes to `output` as far as there is room, and `size`
/// gets the length of the whole text.
#[unsafe(no_mangle)]
pub extern "C" fn dosolve_solve(
    alloc: Global,
    input: &[u8],
    output: &mut [u8],
    size: &mut u64,
) -> u32
    ensures { IsToldInMemory (Some (Reading Solve)) input.now output.old output.new size.old size.new result }
{
    let command = Some(Command::Reading(ReadingCommand::Solve));
    tell(alloc, command, input, output, size)
}

/// As `check`.
#[unsafe(no_mangle)]
pub extern "C" fn dosolve_check(
    alloc: Global,
    input: &[u8],
    output: &mut [u8],
    size: &mut u64,
) -> u32
    ensures { IsToldInMemory (Some (Reading Check)) input.now output.old output.new size.old size.new result }
{
    let command = Some(Command::Reading(ReadingCommand::Check));
    tell(alloc, command, input, output, size)
}

/// As `bounds`.
#[unsafe(no_mangle)]
pub extern "C" fn dosolve_bounds(
    alloc: Global,
    input: &[u8],
    output: &mut [u8],
    size: &mut u64,
) -> u32
    ensures { IsToldInMemory (Some (Reading Bounds)) input.now output.old output.new size.old size.new result }
{
    let command = Some(Command::Reading(ReadingCommand::Bounds));
    tell(alloc, command, input, output, size)
}

/// As `exploit`, of the plan of One where `side` is 0, and of Two where it is 1. Any other is as words that are no
/// command.
#[unsafe(no_mangle)]
pub extern "C" fn dosolve_exploit(
    alloc: Global,
    side: u32,
    input: &[u8],
    output: &mut [u8],
    size: &mut u64,
) -> u32
    ensures { IsToldInMemory (exploit_at side) input.now output.old output.new size.old size.new result }
{
    tell(alloc, exploit_at(side), input, output, size)
}

/// As `play`, of 1 to 100000 games. Any other number is as words that are no command.
#[unsafe(no_mangle)]
pub extern "C" fn dosolve_play(
    alloc: Global,
    games: u32,
    seed: u64,
    input: &[u8],
    output: &mut [u8],
    size: &mut u64,
) -> u32
    ensures { IsToldInMemory (play_at games seed) input.now output.old output.new size.old size.new result }
{
    tell(alloc, play_at(games, seed), input, output, size)
}

/// As `sample`, of a number up to 1000000. A greater one is as words that are no command.
#[unsafe(no_mangle)]
pub extern "C" fn dosolve_sample(
    alloc: Global,
    number: u32,
    output: &mut [u8],
    size: &mut u64,
) -> u32
    ensures { IsToldInMemory (sample_at number) [] output.old output.new size.old size.new result }
{
    tell(alloc, sample_at(number), &[], output, size)
}

/// The answer of a command to the input, told in the caller's memory.
fn tell(
    alloc: Global,
    command: Option<Command>,
    input: &[u8],
    output: &mut [u8],
    size: &mut u64,
) -> u32
    requires { CanRun command }
    ensures { IsToldInMemory command input.now output.old output.new size.old size.new result }
{
    match answer(alloc, command, input) {
        Ok(answer) => {
            put(answer.text.as_slice(), output);
            *size = answer.text.len() as u64;
            answer.status as u32
        }
        Err(_) => 8,
    }
}

/// Writes the front of a list, as far as there is room.
fn put<T: Copy>(items: &[T], output: &mut [T])
    ensures { output.new ≡ put_over items.now output.old }
{
    let n = items.len().min(output.len());
    output[..n].copy_from_slice(&items[..n]);
}

fn exploit_at(side: u32) -> Option<Command>
    ensures is { result ≡ exploit_at side }
    ensures can { CanRun result }
{
    match side {
        0 => Some(Command::Reading(ReadingCommand::Exploit(Side::One))),
        1 => Some(Command::Reading(ReadingCommand::Exploit(Side::Two))),
        _ => None,
    }
}

fn play_at(games: u32, seed: u64) -> Option<Command>
    ensures is { result ≡ play_at games seed }
    ensures can { CanRun result }
{
    if can_play(games) {
        Some(Command::Reading(ReadingCommand::Play { games, seed }))
    } else {
        None
    }
}

/// Whether so many games can be played.
fn can_play(games: u32) -> bool
    ensures { result ≡ can_play games }
{
    games > 0 && games <= 100_000
}

fn sample_at(number: u32) -> Option<Command>
    ensures is { result ≡ sample_at number }
    ensures can { CanRun result }
{
    if number > 1_000_000 {
        None
    } else {
        Some(Command::Sample(number))
    }
}
