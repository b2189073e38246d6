//! What is told of a position that is refused.

ghost use Rattle.std.specs.Prelude.{◌≡◌, OnOk};
ghost use Rattle.text.specs.Texts.{Adds};
ghost use Rattle.goofspiel.specs.Refusals.{number_of, words_of};

use crate::GoofspielError;
use sim_game::NoMemory;
use text::Text;

impl GoofspielError {
    /// The number of the refusal, 21 to 25.
    pub fn number(&self) -> u32
        ensures { result ≡ number_of self.now }
    {
        match self {
            GoofspielError::CardRange { .. } => 21,
            GoofspielError::CardTwice { .. } => 22,
            GoofspielError::Lengths { .. } => 23,
            GoofspielError::PrizeRange { .. } => 24,
            GoofspielError::ScoreRange => 25,
        }
    }

    /// Adds the words of the refusal to the text.
    pub fn tell(&self, text: &mut Text) -> Result<(), NoMemory>
        ensures { OnOk result (Adds text.old text.new (words_of self.now)) }
    {
        match self {
            GoofspielError::CardRange { side, place } => {
                text.word_side(b"card range ", *side)?;
                text.next(place)
            }
            GoofspielError::CardTwice { side, card } => {
                text.word_side(b"card twice ", *side)?;
                text.next(card)
            }
            GoofspielError::Lengths { one, two, prizes } => {
                text.word_number(b"lengths ", one)?;
                text.next(two)?;
                text.next(prizes)
            }
            GoofspielError::PrizeRange { place } => text.word_number(b"prize range ", place),
            GoofspielError::ScoreRange => text.word(b"score range"),
        }
    }
}
