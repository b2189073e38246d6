//! How the fields of a line spell values.

ghost use Rattle.std.specs.Prelude.{◌≡◌, IfOk};
ghost use Rattle.certificate.specs.Spellings.{has_form, value_in};

use crate::{lists, numbers};
use fields::{FieldKind, Value};
use std::alloc::{AllocError, Global};

/// The value that a field of a line spells.
pub(crate) fn read_value(
    alloc: Global,
    kind: FieldKind,
    text: &[u8],
) -> Result<Option<Value>, AllocError>
    ensures { IfOk result (λ o. o ≡ value_in kind text.now) }
{
    match kind {
        FieldKind::Number(low, high) => match numbers::integer(text, low, high) {
            Some(z) => Ok(Some(Value::Number(z))),
            None => Ok(None),
        },
        FieldKind::List(most) => match lists::list(alloc, text, most)? {
            Some(ns) => Ok(Some(Value::List(ns))),
            None => Ok(None),
        },
        FieldKind::Numbers(low, high, most) => match lists::numbers(alloc, text, low, high, most)? {
            Some(zs) => Ok(Some(Value::Numbers(zs))),
            None => Ok(None),
        },
        FieldKind::Optional(low, high, most) => {
            match lists::some_numbers(alloc, text, low, high, most)? {
                Some(zs) => Ok(Some(Value::Optional(zs))),
                None => Ok(None),
            }
        }
        FieldKind::Word(choices) => match choices.word(text) {
            Some(word) => Ok(Some(Value::Word(word))),
            None => Ok(None),
        },
    }
}

/// Whether the text is one of the words, if the field holds a word. A field that can hold no number has no text.
pub(crate) fn has_form(kind: FieldKind, text: &[u8]) -> bool
    ensures { result ≡ has_form kind text.now }
{
    match kind {
        FieldKind::Word(choices) => choices.word(text).is_some(),
        FieldKind::Optional(_, _, most) => most != 0,
        _ => true,
    }
}
