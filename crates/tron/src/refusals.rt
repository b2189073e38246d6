//! What is told of a position that is refused.

ghost use Rattle.std.specs.Prelude.{◌≡◌, OnOk};
ghost use Rattle.text.specs.Texts.{Adds};
ghost use Rattle.tron.specs.Refusals.{number_of, words_of};

use crate::TronError;
use sim_game::NoMemory;
use text::Text;

impl TronError {
    /// The number of the refusal, 41 to 44.
    pub fn number(&self) -> u32
        ensures { result ≡ number_of self.now }
    {
        match self {
            TronError::GridRange => 41,
            TronError::CellRange { .. } => 42,
            TronError::HeadInWall => 43,
            TronError::HeadsMeet => 44,
        }
    }

    /// Adds the words of the refusal to the text.
    pub fn tell(&self, text: &mut Text) -> Result<(), NoMemory>
        ensures { OnOk result (Adds text.old text.new (words_of self.now)) }
    {
        match self {
            TronError::GridRange => text.word(b"grid range"),
            TronError::CellRange { place } => text.word_number(b"cell range ", place),
            TronError::HeadInWall => text.word(b"head in wall"),
            TronError::HeadsMeet => text.word(b"heads meet"),
        }
    }
}
