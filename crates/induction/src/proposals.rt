//! Weights that are proposed for states. Nothing is promised of them.

ghost use Rattle.std.specs.Prelude.{All};
ghost use Rattle.sim_game.specs.Model.{Reachable};
ghost use Rattle.induction.specs.Listed.{GoesOn};

use crate::places::PlaceTable;
use sim_game::{Game, NoMemory, Side};
use std::alloc::{AllocError, Global};

// A word has a move in its lowest bits, the weight of the move in front of them, and in its highest bit whether it is the
// last one of its side.
const MOVE_BITS: u32 = 6;

const MOVES: u32 = 63;

const LAST: u32 = 1 << 31;

/// Weights of both sides at states, as words: one for each positive weight, those of One first.
#[derive(Drop)]
pub(crate) struct Proposals {
    // One more than where the words of a state begin, by the place of the state.
    starts: PlaceTable,
    words: Vec<u32>,
}

/// Adds the words of a side's weights.
pub(crate) fn add_words(words: &mut Vec<u32>, weights: &[u32]) -> Result<(), AllocError> {
    let mut number: u32 = 0;
    for weight in weights {
        if *weight > 0 {
            words.push(*weight << MOVE_BITS | number & MOVES)?;
        }
        number = number.wrapping_add(1);
    }
    if let Some(word) = words.last_mut() {
        *word |= LAST;
    }
    Ok(())
}

/// Puts the weights that a side's words say at its moves. The words of both sides come first.
fn write_weights(words: &[u32], side: Side, weights: &mut [u32]) {
    let mut own = Side::One;
    for word in words {
        let place = (*word & MOVES) as usize;
        if own == side && place < weights.len() {
            weights[place] = (*word & !LAST) >> MOVE_BITS;
        }
        if *word & LAST != 0 {
            if own == side {
                return;
            }
            own = Side::Two;
        }
    }
}

impl Proposals {
    /// None yet, for so many places, of which at most so many will have some.
    pub(crate) fn new(alloc: Global, places: u64, states: u64) -> Result<Proposals, AllocError> {
        Ok(Proposals {
            starts: PlaceTable::new(alloc, places, states)?,
            words: Vec::new(alloc),
        })
    }

    /// Takes on the words of states, of which each of the first ones has a start among them.
    pub(crate) fn take<G: Game>(
        &mut self,
        alloc: Global,
        g: G,
        states: &[G::State],
        starts: &[usize],
        words: &[u32],
    ) -> Result<(), NoMemory>
        requires { All (GoesOn (G.model g)) states.now }
    {
        let first = self.words.len() as u64 + 1;
        for number in 0..starts.len().min(states.len()) {
            let start = first.saturating_add(starts[number] as u64);
            self.starts.set(alloc, g.place(states[number]), start)?;
        }
        self.words.extend_from_slice(words)?;
        Ok(())
    }

    /// The words that begin at one less than this; none at 0.
    fn words_at(&self, start: u64) -> &[u32] {
        if start == 0 || start > self.words.len() as u64 {
            return &[];
        }
        &self.words[start as usize - 1..]
    }

    /// Weights of a side's moves at a state, or those of the other side's at its mirror image; only zeros where none are
    /// kept.
    pub(crate) fn weights<G: Game>(
        &self,
        alloc: Global,
        g: G,
        side: Side,
        s: G::State,
    ) -> Result<Vec<u32>, AllocError>
        requires { Reachable (G.model g) s }
    {
        let mut weights = vec![in alloc; 0u32; g.moves(side, s) as usize]?;
        let start = self.starts.word(g.place(s));
        if start != 0 {
            write_weights(self.words_at(start), side, &mut weights);
        } else if let Some(place) = g.mirrored_place(s) {
            let start = self.starts.word(place);
            write_weights(self.words_at(start), side.other(), &mut weights);
        }
        Ok(weights)
    }
}
