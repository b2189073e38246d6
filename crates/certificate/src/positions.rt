//! The line of a position, which is read and written by the fields of its game, whatever the game.

ghost use Rattle.std.specs.Prelude.{◌≡◌, ◌∷◌, codes, drop, flat_map, map, OnOk};
ghost use Rattle.std.specs.Fmt.{signed_decimal};
ghost use Rattle.text.specs.Texts.{Adds, line_text};
ghost use Rattle.fields.specs.Fields.{spelling};
ghost use Rattle.fields.specs.Positions.{kinds_in, shown_value};
ghost use Rattle.certificate.specs.Readers.{Gives};
ghost use Rattle.certificate.specs.Spellings.{joined_list};
ghost use Rattle.certificate.specs.Positions.{game_in, game, first_has_form, have_form, is_left_out, value, values, line_values, position, position_fields, value_line};
ghost use Rattle.certificate.specs.Reading.{game_line};

use crate::TextError;
use crate::lines::{Line, Lines};
use crate::parts::Parts;
use crate::values::{has_form, read_value};
use crate::version::{has_game, limits_of};
use fields::{FieldKind, FieldRow, GameKind, PositionText, Shown, Value, Word};
use seq::Seq;
use sim_game::NoMemory;
use std::alloc::Global;
use text::Text;

/// The game of the word, if the version has it.
#[tactic(auto, unfolding(crate::specs::Positions::game_in))]
fn game_in_version(word: &[u8], wanted: u32) -> Option<GameKind>
    ensures { result ≡ game_in wanted word.now }
{
    let kind = GameKind::of_word(word)?;
    if has_game(wanted, kind) {
        Some(kind)
    } else {
        None
    }
}

/// Goes past the next field, and says whether it has the form that it has to have.
fn next_has_form(fields: &mut Parts, kind: FieldKind) -> bool
    ensures form { result ≡ first_has_form kind fields.old }
    ensures rest { fields.new ≡ drop 1 fields.old }
{
    match fields.next() {
        Some(field) => has_form(kind, field),
        None => true,
    }
}

/// Whether each field has the form of its kind, and none is behind them.
#[tactic(auto, unfolding(crate::specs::Positions::have_form))]
fn have_form(fields: &mut Parts, rows: &[FieldRow]) -> bool
    ensures { result ≡ have_form (kinds_in rows.now) fields.old }
{
    for row in rows {
        if !next_has_form(fields, row.1) {
            return false;
        }
    }
    fields.is_empty()
}

impl Line<'_> {
    /// Whether the next field is an optional one that is left out.
    fn is_left_out(&self, kind: FieldKind) -> bool
        ensures { result ≡ is_left_out kind self.now.parts }
    {
        match kind {
            FieldKind::Optional(..) => self.rest().is_empty(),
            _ => false,
        }
    }

    #[tactic(auto, unfolding(crate::specs::Positions::value))]
    fn value(&mut self, alloc: Global, kind: FieldKind) -> Result<Value, TextError>
        ensures { Gives (λ v. (v, self.new)) result (value kind self.old) }
    {
        if self.is_left_out(kind) {
            return Ok(Value::Optional(Seq::from_vec(Vec::new(alloc))));
        }
        let number = self.number();
        let field = self.field()?;
        read_value(alloc, kind, field)?.ok_or(TextError::Number { number })
    }

    fn values(&mut self, alloc: Global, rows: &[FieldRow]) -> Result<Vec<Value>, TextError>
        ensures { Gives (λ vs. (vs.items, self.new)) result (values (kinds_in rows.now) self.old) }
    {
        let mut values = Vec::new(alloc);
        for row in rows {
            let value = match self.value(alloc, row.1) {
                Ok(value) => value,
                Err(e) => return Err(e),
            };
            values.push(value)?;
        }
        Ok(values)
    }

    /// The values of all further fields. A fault of the form is told before one of a number.
    #[tactic(auto, unfolding(crate::specs::Positions::line_values))]
    fn line_values(&mut self, alloc: Global, rows: &[FieldRow]) -> Result<Vec<Value>, TextError>
        ensures { Gives (λ vs. (vs.items, self.new)) result (line_values (kinds_in rows.now) self.old) }
    {
        let number = self.number();
        let mut fields = self.rest();
        if !have_form(&mut fields, rows) {
            return Err(TextError::Line { number });
        }
        self.values(alloc, rows)
    }

    #[tactic(auto, unfolding(crate::specs::Positions::game))]
    fn game(&mut self, version: u32) -> Result<GameKind, TextError>
        ensures { Gives (λ k. (k, self.new)) result (game version self.old) }
    {
        let number = self.number();
        let word = self.field()?;
        game_in_version(word, version).ok_or(TextError::Line { number })
    }

    #[tactic(auto, unfolding(crate::specs::Positions::position))]
    fn position(&mut self, alloc: Global, version: u32) -> Result<PositionText, TextError>
        ensures { Gives (λ t. (t, self.new)) result (position version self.old) }
    {
        let game = self.game(version)?;
        let values = self.line_values(alloc, game.fields(limits_of(version)))?;
        Ok(PositionText::with_values(game, values))
    }
}

impl Lines<'_> {
    /// The line of the position, in a report of the version.
    #[tactic(auto, unfolding(crate::specs::Reading::game_line))]
    pub(crate) fn game(&mut self, alloc: Global, version: u32) -> Result<PositionText, TextError>
        ensures { Gives (λ t. (t, self.new)) result (game_line version self.old) }
    {
        let mut line = self.line(7, 8)?;
        line.expect(b"game")?;
        line.position(alloc, version)
    }
}

/// A space and the value, if it has a field.
fn add_value(text: &mut Text, value: &Shown) -> Result<(), NoMemory>
    ensures { OnOk result (Adds text.old text.new (value_line (shown_value value.now))) }
{
    match value {
        Shown::Number(z) => text.next(z),
        Shown::List(ns) => text.next_list(ns),
        Shown::Numbers(zs) => add_numbers(text, zs),
        Shown::Optional(zs) => add_optional(text, zs),
        Shown::Word(word) => add_word(text, *word),
    }
}

/// A space and a list: numbers with a comma between each two, or a dash for none.
fn add_numbers(text: &mut Text, zs: &[i32]) -> Result<(), NoMemory>
    ensures { OnOk result (Adds text.old text.new (32 ∷ joined_list (map signed_decimal zs.now))) }
{
    match zs {
        [] => text.word(b" -"),
        [first, rest @ ..] => {
            text.next(first)?;
            text.each(b",", rest)
        }
    }
}

/// The same, or nothing if there is no number.
fn add_optional(text: &mut Text, zs: &[i32]) -> Result<(), NoMemory>
    ensures { OnOk result (Adds text.old text.new (value_line (Value.Optional zs.now))) }
{
    if zs.is_empty() {
        return Ok(());
    }
    add_numbers(text, zs)
}

fn add_word(text: &mut Text, word: Word) -> Result<(), NoMemory>
    ensures { OnOk result (Adds text.old text.new (32 ∷ spelling word)) }
{
    text.word(b" ")?;
    text.word(word.text())
}

fn add_values(text: &mut Text, values: &[Shown]) -> Result<(), NoMemory>
    ensures { OnOk result (Adds text.old text.new (flat_map (λ v. value_line (shown_value v)) values.now)) }
{
    for value in values {
        add_value(text, value)?;
    }
    Ok(())
}

/// Adds the line of the position.
pub(crate) fn add_position(
    alloc: Global,
    text: &mut Text,
    position: &PositionText,
) -> Result<(), NoMemory>
    ensures { OnOk result (Adds text.old text.new (line_text (codes "game" ∷ position_fields position.now))) }
{
    let values = position.values(alloc)?;
    text.word(b"game ")?;
    text.word(position.game().word())?;
    add_values(text, values.as_slice())?;
    text.word(b"\n")
}
