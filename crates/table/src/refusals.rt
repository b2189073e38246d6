//! What is told of a position that is refused.

ghost use Rattle.std.specs.Prelude.{◌≡◌, ◌++◌, ℤ, List, OnOk};
ghost use Rattle.text.specs.Texts.{Adds};
ghost use Rattle.table.specs.declared.setting.Setting.{Setting};
ghost use Rattle.table.specs.Setting.{lists_of, IsSettingOf};
ghost use Rattle.table.specs.Refusals.{number_of, place_text, words_of};

use crate::TableError;
use sim_game::NoMemory;
use text::Text;

/// Adds a word, and the numbers of a state, a row and a cell.
fn tell_place(
    text: &mut Text,
    word: &[u8],
    state: &u32,
    row: &u32,
    cell: &u32,
) -> Result<(), NoMemory>
    ensures { OnOk result (Adds text.old text.new (word.now ++ place_text state.now row.now cell.now)) }
{
    text.word_number(word, state)?;
    text.next(row)?;
    text.next(cell)
}

impl TableError {
    /// The number of the refusal, 81 to 90.
    pub fn number(&self) -> u32
        ensures { result ≡ number_of self.now }
    {
        match self {
            TableError::Lists => 81,
            TableError::NoStates => 82,
            TableError::PayoffRange { .. } => 83,
            TableError::RowsRange { .. } => 84,
            TableError::CellsRange { .. } => 85,
            TableError::DrawsRange { .. } => 86,
            TableError::Weights { .. } => 87,
            TableError::Order { .. } => 88,
            TableError::Turns { .. } => 89,
            TableError::Total { .. } => 90,
        }
    }

    /// Adds the words of the refusal to the text.
    pub fn tell(&self, text: &mut Text) -> Result<(), NoMemory>
        ensures { OnOk result (Adds text.old text.new (words_of self.now)) }
    {
        match self {
            TableError::Lists => text.word(b"lists"),
            TableError::NoStates => text.word(b"no states"),
            TableError::PayoffRange { state } => text.word_number(b"payoff range ", state),
            TableError::RowsRange { state } => text.word_number(b"rows range ", state),
            TableError::CellsRange { state } => text.word_number(b"cells range ", state),
            TableError::DrawsRange { state, row, cell } => {
                tell_place(text, b"draws range ", state, row, cell)
            }
            TableError::Weights { state, row, cell } => {
                tell_place(text, b"weights ", state, row, cell)
            }
            TableError::Order { state, row, cell } => tell_place(text, b"order ", state, row, cell),
            TableError::Turns { state } => text.word_number(b"turns ", state),
            TableError::Total { state } => text.word_number(b"total ", state),
        }
    }
}

/// The same lists give the same game.
pub fn position_has_one_game()
    ensures { (ranks moves values cells draws rewards : List ℤ) (g h : Setting)
        → IsSettingOf ranks moves values cells draws rewards g → IsSettingOf ranks moves values cells draws rewards h
        → lists_of g ≡ lists_of h }
{}
