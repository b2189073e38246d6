//! Many games, by the words of a seed.

ghost use Rattle.std.specs.Prelude.{◌≡◌, ℕ, suc, ◌+◌, ◌*◌, ◌<◌, ◌≤◌, ◌+ℤ◌, unsigned_abs, IfOk, OnOk};
ghost use Rattle.std.specs.Int.{int_max, int_min};
ghost use Rattle.referee.specs.Streams.{state_after, words_of_game};
ghost use Rattle.referee.specs.Tallies.{AreTotals, game_payoff};
ghost use Rattle.referee.specs.Transcripts.{IsPlayable, IsRecord, words_needed};

use crate::game::{play_turns, words_needed};
use crate::stream::next_words;
use crate::{Record, Totals};
use plan_book::Sheet;
use sim_game::{Game, NoMemory, Side};
use std::alloc::Global;

/// Plays 1 to 100000 games between two sheets, and gives the record of the first one and the totals of all. The words
/// are the upper halves of the states of a linear congruential generator from the seed; each game takes three for each
/// rank of the root, whether it uses them or ends before. Nothing is said of how random they are. `NoMemory` comes for
/// want of memory alone.
pub fn tally<G: Game>(
    alloc: Global,
    g: G,
    one: &Sheet,
    two: &Sheet,
    seed: u64,
    games: u32,
) -> Result<(Record, Totals), NoMemory>
    requires one { IsPlayable Side.One one.now }
    requires two { IsPlayable Side.Two two.now }
    requires some { 1 ≤ games }
    requires few { games ≤ 100000 }
    ensures first { IfOk result (λ r. IsRecord (G.model g) one.now two.now (words_of_game (G.model g) seed 0) r.0) }
    ensures totals { IfOk result (λ r. AreTotals games (game_payoff (G.model g) one.now two.now seed) r.1) }
{
    let mut state = seed;
    let first = play_next(alloc, g, one, two, &mut state)?;
    let mut totals = Totals::of_game(first.payoff);
    while totals.games < games {
        let payoff = play_next(alloc, g, one, two, &mut state)?.payoff;
        totals = totals.with_game(payoff);
    }
    Ok((first, totals))
}

/// The game by the next words, from the state of the generator.
fn play_next<G: Game>(
    alloc: Global,
    g: G,
    one: &Sheet,
    two: &Sheet,
    state: &mut u64,
) -> Result<Record, NoMemory>
    requires one { IsPlayable Side.One one.now }
    requires two { IsPlayable Side.Two two.now }
    ensures record { let m = G.model g in
        (seed game : ℕ) → state.old ≡ state_after seed (words_needed m * game)
        → IfOk result (IsRecord m one.now two.now (words_of_game m seed game)) }
    ensures state { let m = G.model g in
        (seed game : ℕ) → state.old ≡ state_after seed (words_needed m * game)
        → OnOk result (state.new ≡ state_after seed (words_needed m * suc game)) }
    ensures small { IfOk result (λ r. unsigned_abs r.payoff ≤ 4000) }
{
    let words = next_words(alloc, words_needed(g), state)?;
    play_turns(alloc, g, one, two, &words)
}

impl Totals {
    /// The totals of one game.
    fn of_game(payoff: i32) -> Totals
        ensures games { result.games ≡ 1 }
        ensures sum { result.sum ≡ payoff }
        ensures least { result.least ≡ payoff }
        ensures most { result.most ≡ payoff }
    {
        Totals {
            games: 1,
            sum: i64::from(payoff),
            least: payoff,
            most: payoff,
        }
    }

    /// The totals with one more game.
    fn with_game(&self, payoff: i32) -> Totals
        requires few { self.now.games < 100000 }
        requires small { unsigned_abs self.now.sum ≤ 4000 * self.now.games }
        requires payoff { unsigned_abs payoff ≤ 4000 }
        ensures games { result.games ≡ self.now.games + 1 }
        ensures sum { result.sum ≡ self.now.sum +ℤ payoff }
        ensures least { result.least ≡ int_min self.now.least payoff }
        ensures most { result.most ≡ int_max self.now.most payoff }
    {
        Totals {
            games: self.games + 1,
            sum: self.sum + i64::from(payoff),
            least: self.least.min(payoff),
            most: self.most.max(payoff),
        }
    }
}
