//! What is told of a position that is refused.

ghost use Rattle.std.specs.Prelude.{◌≡◌, OnOk};
ghost use Rattle.text.specs.Texts.{Adds};
ghost use Rattle.pursuit.specs.Refusals.{number_of, words_of};

use crate::PursuitError;
use sim_game::NoMemory;
use text::Text;

impl PursuitError {
    /// The number of the refusal, 71 to 76.
    pub fn number(&self) -> u32
        ensures { result ≡ number_of self.now }
    {
        match self {
            PursuitError::NodesRange => 71,
            PursuitError::EdgeOdd => 72,
            PursuitError::EdgeRange { .. } => 73,
            PursuitError::EdgeLoop { .. } => 74,
            PursuitError::PlaceRange { .. } => 75,
            PursuitError::RoundsRange => 76,
        }
    }

    /// Adds the words of the refusal to the text.
    pub fn tell(&self, text: &mut Text) -> Result<(), NoMemory>
        ensures { OnOk result (Adds text.old text.new (words_of self.now)) }
    {
        match self {
            PursuitError::NodesRange => text.word(b"nodes range"),
            PursuitError::EdgeOdd => text.word(b"edge odd"),
            PursuitError::EdgeRange { place } => text.word_number(b"edge range ", place),
            PursuitError::EdgeLoop { place } => text.word_number(b"edge loop ", place),
            PursuitError::PlaceRange { side } => text.word_side(b"place range ", *side),
            PursuitError::RoundsRange => text.word(b"rounds range"),
        }
    }
}
