//! One game, by given words.

ghost use Rattle.std.specs.Prelude.{◌≡◌, ◌*◌, ◌≤◌, length, IfOk};
ghost use Rattle.sim_game.specs.declared.TheConstants.{MOST_TURNS};
ghost use Rattle.referee.specs.Transcripts.{IsGamePlayed, IsPlayable, IsRecord, words_needed};

use crate::picks::turn_by;
use crate::{Record, RefereeError};
use plan_book::Sheet;
use seq::Seq;
use sim_game::{Game, NoMemory, Side};
use std::alloc::Global;

/// Plays two sheets against each other from the root to the first end, by three words a turn: for One's move, for
/// Two's and for the draw. Each picks by its remainder modulo the total, or modulo 360360. The sheets need not be
/// lawful: a row of the wrong length or sum, like one that is missing, plays the first move. `WordsShort` comes exactly
/// where there are fewer words than three for each rank of the root, and before any memory is taken; words that are
/// left over are not used. `NoMemory` comes for want of memory alone.
pub fn play<G: Game>(
    alloc: Global,
    g: G,
    one: &Sheet,
    two: &Sheet,
    words: &[u64],
) -> Result<Record, RefereeError>
    requires one { IsPlayable Side.One one.now }
    requires two { IsPlayable Side.Two two.now }
    ensures { IsGamePlayed (G.model g) one.now two.now words.now result }
{
    let need = words_needed(g);
    if words.len() < need as usize {
        return Err(RefereeError::WordsShort { need });
    }
    match play_turns(alloc, g, one, two, words) {
        Ok(record) => Ok(record),
        Err(NoMemory) => Err(RefereeError::NoMemory),
    }
}

/// Three words for each rank of the root.
pub(crate) fn words_needed<G: Game>(g: G) -> u32
    ensures is { result ≡ words_needed (G.model g) }
    ensures few { result ≤ 3 * MOST_TURNS }
{
    3 * g.rank(g.root())
}

/// The game that the words give, where they are enough.
pub(crate) fn play_turns<G: Game>(
    alloc: Global,
    g: G,
    one: &Sheet,
    two: &Sheet,
    words: &[u64],
) -> Result<Record, NoMemory>
    requires one { IsPlayable Side.One one.now }
    requires two { IsPlayable Side.Two two.now }
    requires words { words_needed (G.model g) ≤ length words.now }
    ensures { IfOk result (IsRecord (G.model g) one.now two.now words.now) }
{
    let mut turns = Vec::new(alloc);
    let mut s = g.root();
    let mut paid: i32 = 0;
    let mut rest = words;
    while g.rank(s) > 0 {
        let turn = turn_by(g, one, two, s, rest);
        turns.push(turn)?;
        paid += g.reward(s, turn.one, turn.two, turn.draw);
        s = g.drawn(s, turn.one, turn.two, turn.draw);
        rest = &rest[3..];
    }
    let payoff = paid + g.payoff(s);
    Ok(Record {
        turns: Seq::from_vec(turns),
        payoff,
    })
}
