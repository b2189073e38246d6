//! The field that tells the states of a table.

ghost use Rattle.std.specs.Prelude.{IfOk};
ghost use Rattle.serde_json.specs.View.{view};
ghost use Rattle.fields.specs.Ranges.{IsPositionInRange};
ghost use Rattle.position.specs.Objects.{Gives};
ghost use Rattle.position.specs.States.{states_at};

use crate::InputError;
use crate::object::member;
use fields::{Field, PositionText};
use serde_json::Value;
use sim_game::Limits;
use std::alloc::Global;
use table_text::{StatesFault, read_states};

/// The position that the field `states` tells, within the limits.
#[tactic(auto, unfolding(crate::specs::States::states_at))]
pub(crate) fn states_in(
    alloc: Global,
    limits: Limits,
    object: &Value,
) -> Result<PositionText, InputError>
    ensures exact { Gives (λ t. t) result (states_at limits (view object.now)) }
    ensures in_range { IfOk result IsPositionInRange }
{
    let field = Field::States;
    let value = member(field, object)?;
    match read_states(limits, alloc, value) {
        Ok(text) => Ok(text),
        Err(StatesFault::Kind) => Err(InputError::Kind { field }),
        Err(StatesFault::Range) => Err(InputError::Range { field }),
        Err(StatesFault::NoMemory) => Err(InputError::NoMemory),
    }
}
