//! The search of a game, whatever its kind. A visitor of games cannot start threads: the compiler refuses a method of a
//! trait that sends a value to a thread whose type is a parameter.

ghost use Rattle.std.specs.Prelude.{false, IfOk};
ghost use Rattle.fields.specs.Ranges.{IsAskInRange};
ghost use Rattle.lazy_workers.specs.Findings.{IsFoundGame};
ghost use Rattle.position.specs.Games.{OfSame, IsFineFor};

use certificate::Ask;
use game_search::{find, find_alone};
use lazy_workers::Found;
use oracle_search::{Gate, OpenGate};
use position::{AnyGame, with_game};
use sim_game::NoMemory;
use std::alloc::Global;
use std::thread::Threads;

/// Searches the game by so many workers as asked, each in a thread of its own where there are several. The gate can stop
/// the search where `may_stop` says so.
pub(crate) fn find_any<R: Threads + Sync, T: Gate + Sync>(
    rt: &R,
    alloc: Global,
    game: AnyGame,
    ask: &Ask,
    gate: &T,
    may_stop: bool,
) -> Result<Found, NoMemory>
    requires ask { IsAskInRange ask.now }
    requires fine { IsFineFor game ask.now.weight }
    ensures { OfSame game.entry (λ S m. IfOk result (IsFoundGame m ask.now may_stop)) }
{
    with_game!(game, g => find(rt, alloc, g, ask, gate, may_stop))
}

/// As `find_any`, but the caller does the work of each worker, one after the other, and nothing stops it.
pub(crate) fn find_any_alone(alloc: Global, game: AnyGame, ask: &Ask) -> Result<Found, NoMemory>
    requires ask { IsAskInRange ask.now }
    requires fine { IsFineFor game ask.now.weight }
    ensures { OfSame game.entry (λ S m. IfOk result (IsFoundGame m ask.now false)) }
{
    with_game!(game, g => find_alone(alloc, g, ask, &OpenGate, false))
}
