//! The commands.

ghost use Rattle.std.specs.Prelude.{◌≡◌, Some, map, string_bytes, option_map};
ghost use Rattle.certificate.specs.Numbers.{natural_in};
ghost use Rattle.commands.specs.declared.words.ReadingCommand.{ReadingCommand};
ghost use Rattle.commands.specs.declared.words.Command.TheVariants as commands;
ghost use Rattle.commands.specs.Words.{HasFewGames, command_of, games_in, play_of, seed_in, side_of};

use certificate::natural;
use sim_game::Side;

/// A command that is given bytes.
#[derive(Clone, Copy, PartialEq, Eq, Debug)]
pub enum ReadingCommand {
    Solve,
    Check,
    Bounds,
    /// Measures the plan of the side.
    Exploit(Side),
    /// Plays 1 to 100000 games by the words of the seed.
    Play { games: u32, seed: u64 },
}

/// What the program is told to do.
#[derive(Clone, Copy, PartialEq, Eq, Debug)]
pub enum Command {
    Reading(ReadingCommand),
    /// Solves the sample of this number.
    Sample(u32),
}

/// The command of the words behind the program's name, if they are one.
pub(crate) fn command_of(words: &[String]) -> Option<Command>
    ensures is { result ≡ command_of (map string_bytes words.now) }
    ensures few { (reading : ReadingCommand) → result ≡ Some (commands.Reading reading) → HasFewGames reading }
{
    match words {
        [word] if word.as_str() == "solve" => Some(Command::Reading(ReadingCommand::Solve)),
        [word] if word.as_str() == "check" => Some(Command::Reading(ReadingCommand::Check)),
        [word] if word.as_str() == "bounds" => Some(Command::Reading(ReadingCommand::Bounds)),
        [word, number] if word.as_str() == "sample" => sample_of(number.as_bytes()),
        [word, side] if word.as_str() == "exploit" => exploit_of(side.as_bytes()),
        [word, games, seed] if word.as_str() == "play" => play_of(
            games.as_bytes(),
            seed.as_bytes(),
        ),
        _ => None,
    }
}

fn sample_of(number: &[u8]) -> Option<Command>
    ensures { result ≡ option_map Command.Sample (natural_in 0 1000000 number.now) }
{
    let number = natural(number, 0, 1_000_000)?;
    Some(Command::Sample(number as u32))
}

fn exploit_of(side: &[u8]) -> Option<Command>
    ensures { result ≡ option_map (λ side. commands.Reading (ReadingCommand.Exploit side)) (side_of side.now) }
{
    if side == b"one".as_slice() {
        return Some(Command::Reading(ReadingCommand::Exploit(Side::One)));
    }
    if side == b"two".as_slice() {
        return Some(Command::Reading(ReadingCommand::Exploit(Side::Two)));
    }
    None
}

fn play_of(games: &[u8], seed: &[u8]) -> Option<Command>
    ensures is { result ≡ play_of (games_in games.now) (seed_in seed.now) }
    ensures few { (reading : ReadingCommand) → result ≡ Some (commands.Reading reading) → HasFewGames reading }
{
    let games = natural(games, 1, 100_000)?;
    let seed = natural(seed, 0, u64::MAX)?;
    let games = games as u32;
    Some(Command::Reading(ReadingCommand::Play { games, seed }))
}
