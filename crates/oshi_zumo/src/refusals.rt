//! What is told of a position that is refused, and the law that a position has one game.

ghost use Rattle.std.specs.Prelude.{◌≡◌, ℕ, ℤ, OnOk};
ghost use Rattle.text.specs.Texts.{Adds};
ghost use Rattle.oshi_zumo.specs.declared.Setting.{Setting};
ghost use Rattle.oshi_zumo.specs.Position.{IsSettingOf};
ghost use Rattle.oshi_zumo.specs.Refusals.{number_of, words_of};

use crate::OshiError;
use sim_game::NoMemory;
use text::Text;

impl OshiError {
    /// The number of the refusal, 31 to 34.
    pub fn number(&self) -> u32
        ensures { result ≡ number_of self.now }
    {
        match self {
            OshiError::SizeRange => 31,
            OshiError::CoinRange => 32,
            OshiError::LeastRange => 33,
            OshiError::PlaceRange => 34,
        }
    }

    /// Adds the words of the refusal to the text.
    pub fn tell(&self, text: &mut Text) -> Result<(), NoMemory>
        ensures { OnOk result (Adds text.old text.new (words_of self.now)) }
    {
        match self {
            OshiError::SizeRange => text.word(b"size range"),
            OshiError::CoinRange => text.word(b"coin range"),
            OshiError::LeastRange => text.word(b"least range"),
            OshiError::PlaceRange => text.word(b"place range"),
        }
    }
}

/// The same numbers give one setting, and so one game.
pub fn position_has_one_game()
    ensures { (size one two least : ℕ) (place : ℤ) (g h : Setting)
        → IsSettingOf size one two least place g → IsSettingOf size one two least place h → g ≡ h }
{}
