//! The position that bytes give.

ghost use Rattle.std.specs.Prelude.{◌≡◌, ◌<◌, length, Ok, Err, IfOk, MatchResult};
ghost use Rattle.serde_json.specs.View.{view};
ghost use Rattle.fields.specs.Ranges.{IsAskInRange, IsPositionInRange};
ghost use Rattle.position.specs.Position.{Gives, game_at, ask_at, any_object_at, may_be_long, if_long, object_at, are_kept, task_within, task_of, position_of};
ghost use Rattle.position.specs.Games.{HasTotalsOf};

use crate::games::{position_text, text_width, weigh};
use crate::object::{all_asked, holds_word, json, limits_in, only_known, text};
use crate::{Field, InputError, Task, build, totals};
use fields::{Ask, GameKind, PositionText, Word};
use seq::Seq;
use serde_json::Value;
use sim_game::Limits;
use std::alloc::Global;

/// The most bytes that a position may have.
pub const MOST_BYTES: usize = 1_048_576;

/// The most bytes that a table with linear stages may have.
pub const MOST_TABLE_BYTES: usize = 67_108_864;

#[tactic(auto, unfolding(crate::specs::Position::game_at))]
fn game(object: &Value) -> Result<GameKind, InputError>
    ensures { Gives (λ g. g) result (game_at (view object.now)) }
{
    let name = text(Field::Game, object)?;
    GameKind::of_word(name.as_bytes()).ok_or(InputError::GameName)
}

#[tactic(auto, unfolding(crate::specs::Position::ask_at))]
fn ask(alloc: Global, limits: Limits, object: &Value) -> Result<Ask, InputError>
    ensures exact { Gives (λ a. a) result (ask_at limits (view object.now)) }
    ensures in_range { IfOk result IsAskInRange }
{
    let values = all_asked(alloc, limits, object)?;
    Ok(Ask::with_values(values))
}

/// The object that the bytes are, however many.
#[tactic(auto, unfolding(crate::specs::Position::any_object_at))]
fn any_object(alloc: Global, bytes: &[u8]) -> Result<Value, InputError>
    ensures { Gives view result (any_object_at bytes.now) }
{
    let value = json(alloc, bytes)?;
    if !value.is_object() {
        return Err(InputError::NotObject);
    }
    Ok(value)
}

/// Whether it is a table with linear stages.
#[tactic(auto, unfolding(crate::specs::Position::may_be_long))]
fn may_be_long(object: &Value) -> bool
    ensures { result ≡ may_be_long (view object.now) }
{
    holds_word(Field::Game, GameKind::Table.word(), object)
        && holds_word(Field::Stages, Word::Linear.text(), object)
}

/// The object that many bytes are, which only a table with linear stages may have.
#[tactic(auto, using(crate::proofs::ReadingLemmas::long_fault))]
fn long_object(alloc: Global, bytes: &[u8]) -> Result<Value, InputError>
    ensures { Gives view result (if_long (any_object_at bytes.now)) }
{
    match any_object(alloc, bytes) {
        Ok(value) if may_be_long(&value) => Ok(value),
        Err(InputError::NoMemory) => Err(InputError::NoMemory),
        _ => Err(InputError::TooLong),
    }
}

/// The object that the bytes are, of which there are not too many.
#[tactic(auto, unfolding(crate::specs::Position::object_at))]
fn object(alloc: Global, bytes: &[u8]) -> Result<Value, InputError>
    ensures exact { Gives view result (object_at bytes.now) }
    ensures too_long { MOST_TABLE_BYTES < length bytes.now → result ≡ Err InputError.TooLong }
{
    if bytes.len() > MOST_TABLE_BYTES {
        return Err(InputError::TooLong);
    }
    if bytes.len() > MOST_BYTES {
        long_object(alloc, bytes)
    } else {
        any_object(alloc, bytes)
    }
}

/// The task, where its position keeps the rules within the limits, and the weight is large enough.
#[tactic(auto, using(crate::proofs::LimitLemmas::built_of, crate::proofs::LimitLemmas::fine_of))]
fn accepted(
    limits: Limits,
    text: PositionText,
    totals: Seq<i32>,
    ask: Ask,
) -> Result<Task, InputError>
    requires text { IsPositionInRange text }
    requires totals { HasTotalsOf text totals }
    requires ask { IsAskInRange ask }
    ensures { MatchResult result
        (λ t. (are_kept limits text ask ≡ Ok tt) × (t.text ≡ text) × (t.ask ≡ ask))
        (λ fault. are_kept limits text ask ≡ Err fault) }
{
    let game = build(limits, &text, &totals)?;
    weigh(limits, text_width(&text, game), ask.weight)?;
    Ok(Task { text, totals, ask })
}

#[tactic(auto, unfolding(crate::specs::Position::task_within))]
fn task_in(alloc: Global, object: &Value) -> Result<Task, InputError>
    ensures exact { Gives (λ t. record { text = t.text; ask = t.ask }) result (task_of (view object.now)) }
    ensures text { IfOk result (λ t. IsPositionInRange t.text) }
    ensures ask { IfOk result (λ t. IsAskInRange t.ask) }
{
    let kind = game(object)?;
    only_known(kind, object)?;
    let limits = limits_in(object);
    let text = position_text(alloc, limits, kind, object)?;
    let ask = ask(alloc, limits, object)?;
    let totals = totals(alloc, &text)?;
    accepted(limits, text, totals, ask)
}

/// The position and what is asked, or the first refusal: of the bytes, of the object, of the game's name,
/// of a field that does not belong, of each field in its order, of the game's rules, and of the weight. Limits are wide
/// where stages are linear.
#[tactic(auto, unfolding(crate::specs::Position::position_of))]
pub fn position(alloc: Global, bytes: &[u8]) -> Result<Task, InputError>
    ensures exact { Gives (λ t. record { text = t.text; ask = t.ask }) result (position_of bytes.now) }
    ensures text { IfOk result (λ t. IsPositionInRange t.text) }
    ensures ask { IfOk result (λ t. IsAskInRange t.ask) }
    // This refusal needs no memory.
    ensures too_long { MOST_TABLE_BYTES < length bytes.now → result ≡ Err InputError.TooLong }
{
    let value = object(alloc, bytes)?;
    task_in(alloc, &value)
}
