//! The fields of an object.

ghost use Rattle.std.specs.Prelude.{◌≡◌, ◌≤ℤ◌, ◌&&◌, length, nat_le, IfOk, bytes_eq, map, string_bytes};
ghost use Rattle.std.specs.List.{list_all, list_any, filter_map};
ghost use Rattle.std.specs.BTreeMap.{keys};
ghost use Rattle.serde_json.specs.View.{view, items_view, members_view};
ghost use Rattle.sim_game.specs.declared.Limits.TheVariants.{Narrow, Wide};
ghost use Rattle.fields.specs.declared.ask.TheConstants.{ASK, NARROW_ASK};
ghost use Rattle.fields.specs.Asks.{ask_fields, asked_kinds};
ghost use Rattle.fields.specs.Fields.{name_of, Fits, AllFit};
ghost use Rattle.fields.specs.Positions.{kinds_in};
ghost use Rattle.fields.specs.Ranges.{IsByteList};
ghost use Rattle.position.specs.Objects.{Gives, member_at, whole_at, between, text_at, json_of, byte_in, is_byte, bytes_in, bytes_at, is_known, known_at, items_at, members_at, value_at, values_at, IsDefaultOf, asked_at, all_asked_at, holds_word, limits_at};
ghost use Rattle.table_text.specs.Elements.{is_whole};

use crate::{Field, InputError};
use fields::{
    ASK, ASKED, Absent, AskRow, FieldKind, FieldRow, GameKind, NARROW_ASK, Value as FieldValue,
    Word, each_asked,
};
use seq::Seq;
use serde_json::{Category, Map, Value};
use sim_game::Limits;
use std::alloc::{AllocError, Global};

#[tactic(auto, using(crate::proofs::JsonLemmas::json_ok, crate::proofs::JsonLemmas::json_err))]
pub(crate) fn json(alloc: Global, bytes: &[u8]) -> Result<Value, InputError>
    ensures { Gives view result (json_of bytes.now) }
{
    match Value::from_slice(alloc, bytes) {
        Ok(value) => Ok(value),
        Err(e) => match e.classify() {
            Category::Memory => Err(InputError::NoMemory),
            _ => Err(InputError::NotJson),
        },
    }
}

#[tactic(auto, unfolding(crate::specs::Objects::member_at))]
pub(crate) fn member(field: Field, object: &Value) -> Result<&Value, InputError>
    ensures { Gives (λ v. view v.now) result (member_at field (view object.now)) }
{
    object
        .get(field.name())
        .ok_or(InputError::Missing { field })
}

#[tactic(auto, unfolding(crate::specs::Objects::whole_at))]
fn whole(field: Field, object: &Value) -> Result<i64, InputError>
    ensures { Gives (λ z. z) result (whole_at field (view object.now)) }
{
    let value = member(field, object)?;
    value.as_i64().ok_or(InputError::Kind { field })
}

/// A whole number from `low` to `high`.
#[tactic(auto, unfolding(crate::specs::Objects::between))]
fn number_between(field: Field, low: i64, high: i64, object: &Value) -> Result<i64, InputError>
    ensures exact { Gives (λ z. z) result (between field low high (view object.now)) }
    ensures low { IfOk result (λ z. low ≤ℤ z) }
    ensures high { IfOk result (λ z. z ≤ℤ high) }
{
    let z = whole(field, object)?;
    if z < low || high < z {
        return Err(InputError::Range { field });
    }
    Ok(z)
}

#[tactic(auto, unfolding(crate::specs::Objects::text_at))]
pub(crate) fn text(field: Field, object: &Value) -> Result<&str, InputError>
    ensures { Gives (λ s. s.now) result (text_at field (view object.now)) }
{
    let value = member(field, object)?;
    value.as_str().ok_or(InputError::Kind { field })
}

/// Whether the field is there, and is this word.
#[tactic(auto, unfolding(crate::specs::Objects::holds_word))]
pub(crate) fn holds_word(field: Field, word: &[u8], object: &Value) -> bool
    ensures { result ≡ holds_word field word.now (view object.now) }
{
    match object.get(field.name()).and_then(Value::as_str) {
        Some(text) => text.as_bytes() == word,
        None => false,
    }
}

/// The limits of a position: wide where its stages are linear.
#[tactic(auto, unfolding(crate::specs::Objects::limits_at))]
pub(crate) fn limits_in(object: &Value) -> Limits
    ensures { result ≡ limits_at (view object.now) }
{
    if holds_word(Field::Stages, Word::Linear.text(), object) {
        Limits::Wide
    } else {
        Limits::Narrow
    }
}

fn byte(value: &Value) -> Option<u8>
    ensures { result ≡ byte_in (view value.now) }
{
    u8::try_from(value.as_i64()?).ok()
}

fn are_whole(items: &[Value]) -> bool
    ensures { result ≡ list_all (λ v. is_whole (view v)) items.now }
{
    items.iter().all(|item| item.as_i64().is_some())
}

fn all_bytes(items: &[Value]) -> bool
    ensures { result ≡ list_all (λ v. is_byte (view v)) items.now }
{
    items.iter().all(|item| byte(item).is_some())
}

fn are_bytes(items: &[Value], most: usize) -> bool
    ensures { result ≡ (nat_le (length items.now) most && list_all (λ v. is_byte (view v)) items.now) }
{
    items.len() <= most && all_bytes(items)
}

fn bytes_of(alloc: Global, items: &[Value]) -> Result<Vec<u8>, AllocError>
    ensures { IfOk result (λ v. v.items ≡ filter_map (λ v. byte_in (view v)) items.now) }
{
    items.iter().filter_map(byte).collect(alloc)
}

#[tactic(auto, using(crate::proofs::ValueLemmas::bytes_in_view, crate::proofs::ValueLemmas::bytes_fit))]
fn bytes_from(
    alloc: Global,
    field: Field,
    most: usize,
    items: &[Value],
) -> Result<Seq<u8>, InputError>
    ensures exact { Gives (λ s. s) result (bytes_in field most (map view items.now)) }
    ensures in_range { IfOk result (IsByteList most) }
{
    if !are_whole(items) {
        return Err(InputError::Kind { field });
    }
    if !are_bytes(items, most) {
        return Err(InputError::Range { field });
    }
    Ok(Seq::from_vec(bytes_of(alloc, items)?))
}

#[tactic(auto, unfolding(crate::specs::Objects::items_at))]
fn items(field: Field, object: &Value) -> Result<&Vec<Value>, InputError>
    ensures { Gives (λ v. items_view v.now.items) result (items_at field (view object.now)) }
{
    let value = member(field, object)?;
    value.as_array().ok_or(InputError::Kind { field })
}

/// At most `most` whole numbers from 0 to 255.
#[tactic(auto, using(crate::proofs::ValueLemmas::list_of_items), unfolding(crate::specs::Objects::bytes_at))]
fn byte_list(
    alloc: Global,
    field: Field,
    most: usize,
    object: &Value,
) -> Result<Seq<u8>, InputError>
    ensures exact { Gives (λ s. s) result (bytes_at field most (view object.now)) }
    ensures in_range { IfOk result (IsByteList most) }
{
    let items = items(field, object)?;
    bytes_from(alloc, field, most, items)
}

fn is_of_game(rows: &[FieldRow], name: &str) -> bool
    ensures { result ≡ list_any (λ row. bytes_eq (name_of row.0) name.now) rows.now }
{
    rows.iter().any(|row| row.0.name() == name)
}

fn is_asked(rows: &[AskRow], name: &str) -> bool
    ensures { result ≡ list_any (λ row. bytes_eq (name_of row.0) name.now) rows.now }
{
    rows.iter().any(|row| row.0.name() == name)
}

fn is_known(game: GameKind, name: &str) -> bool
    ensures { result ≡ is_known game name.now }
{
    if Field::Game.name() == name {
        return true;
    }
    if is_of_game(game.fields(Limits::Wide), name) {
        return true;
    }
    is_asked(&ASK, name)
}

fn are_known(game: GameKind, members: &Map<String, Value>) -> bool
    ensures { result ≡ list_all (λ k. is_known game (string_bytes k)) (keys members.now) }
{
    members.keys().all(|name| is_known(game, name.as_str()))
}

#[tactic(auto, unfolding(crate::specs::Objects::members_at))]
fn members(object: &Value) -> Result<&Map<String, Value>, InputError>
    ensures { Gives (λ m. members_view m.now.entries) result (members_at (view object.now)) }
{
    object.as_object().ok_or(InputError::NotObject)
}

/// Refuses an object that has a name of no field of the game or of what is asked.
#[tactic(auto, using(crate::proofs::ValueLemmas::known_members), unfolding(crate::specs::Objects::known_at))]
pub(crate) fn only_known(game: GameKind, object: &Value) -> Result<(), InputError>
    ensures { Gives (λ u. u) result (known_at game (view object.now)) }
{
    let members = members(object)?;
    if !are_known(game, members) {
        return Err(InputError::Unknown);
    }
    Ok(())
}

#[tactic(auto, unfolding(crate::specs::Objects::value_at))]
fn value(
    alloc: Global,
    field: Field,
    kind: FieldKind,
    object: &Value,
) -> Result<FieldValue, InputError>
    ensures exact { Gives (λ v. v) result (value_at field kind (view object.now)) }
    ensures fits { IfOk result (Fits kind) }
{
    match kind {
        FieldKind::Number(low, high) => {
            let z = number_between(field, low, high, object)?;
            Ok(FieldValue::Number(z))
        }
        FieldKind::List(most) => {
            let ns = byte_list(alloc, field, most, object)?;
            Ok(FieldValue::List(ns))
        }
        // Reports alone have such lists: an object tells those of a table by its states.
        FieldKind::Numbers(..) | FieldKind::Optional(..) => Err(InputError::Kind { field }),
        FieldKind::Word(choices) => {
            let text = text(field, object)?;
            let word = choices
                .word(text.as_bytes())
                .ok_or(InputError::Range { field })?;
            Ok(FieldValue::Word(word))
        }
    }
}

/// The values of the fields of a game.
pub(crate) fn values(
    alloc: Global,
    rows: &[FieldRow],
    object: &Value,
) -> Result<Vec<FieldValue>, InputError>
    ensures exact { Gives (λ vs. vs.items) result (values_at rows.now (view object.now)) }
    ensures fits { IfOk result (λ vs. AllFit (kinds_in rows.now) vs.items) }
{
    let mut values = Vec::new(alloc);
    for row in rows {
        let value = match value(alloc, row.0, row.1, object) {
            Ok(value) => value,
            Err(e) => return Err(e),
        };
        values.push(value)?;
    }
    Ok(values)
}

/// A field of what is asked, or its default where it is absent and has one.
#[tactic(auto, unfolding(crate::specs::Objects::asked_at))]
fn asked(alloc: Global, row: AskRow, object: &Value) -> Result<FieldValue, InputError>
    requires { IsDefaultOf row.1 row.2 }
    ensures exact { Gives (λ v. v) result (asked_at row (view object.now)) }
    ensures fits { IfOk result (Fits row.1) }
{
    let (field, kind, absent) = row;
    let is_given = object.get(field.name()).is_some();
    match absent {
        Absent::Number(z) if !is_given => Ok(FieldValue::Number(z)),
        Absent::Word(word) if !is_given => Ok(FieldValue::Word(word)),
        _ => value(alloc, field, kind, object),
    }
}

/// The values of the fields of what is asked, within the wide limits.
#[tactic(auto, unfolding(crate::specs::Objects::all_asked_at))]
fn all_asked_wide(alloc: Global, object: &Value) -> Result<[FieldValue; ASKED], InputError>
    ensures exact { Gives (λ vs. vs) result (all_asked_at ASK (view object.now)) }
    ensures fits { IfOk result (AllFit (asked_kinds Wide)) }
{
    Ok(each_asked!(ASK, row => asked(alloc, row, object)?))
}

/// The same within the narrow limits.
#[tactic(auto, unfolding(crate::specs::Objects::all_asked_at))]
fn all_asked_narrow(alloc: Global, object: &Value) -> Result<[FieldValue; ASKED], InputError>
    ensures exact { Gives (λ vs. vs) result (all_asked_at NARROW_ASK (view object.now)) }
    ensures fits { IfOk result (AllFit (asked_kinds Narrow)) }
{
    Ok(each_asked!(NARROW_ASK, row => asked(alloc, row, object)?))
}

/// The values of the fields of what is asked, within the limits.
pub(crate) fn all_asked(
    alloc: Global,
    limits: Limits,
    object: &Value,
) -> Result<[FieldValue; ASKED], InputError>
    ensures exact { Gives (λ vs. vs) result (all_asked_at (ask_fields limits) (view object.now)) }
    ensures fits { IfOk result (AllFit (asked_kinds Wide)) }
{
    match limits {
        Limits::Wide => all_asked_wide(alloc, object),
        Limits::Narrow => match all_asked_narrow(alloc, object) {
            Ok(values) => Ok(values),
            Err(error) => Err(error),
        },
    }
}
