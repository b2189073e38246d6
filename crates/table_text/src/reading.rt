//! The states of a table: first their kinds, then their ranges, then the lists that they make.

ghost use Rattle.std.specs.Prelude.{◌≡◌, true, map, IfOk};
ghost use Rattle.serde_json.specs.View.{view};
ghost use Rattle.fields.specs.Ranges.{IsPositionInRange};
ghost use Rattle.sim_game.specs.declared.Limits.TheVariants.{Wide};
ghost use Rattle.table.specs.Nested.{are_in_range, lists_of_states};
ghost use Rattle.table_text.specs.States.{Gives, state_form_of, table_text_of, table_text_in};

use crate::StatesFault;
use crate::kinds::{are_state_kinds, elements};
use crate::lists::{Lists, told_rewards};
use crate::ranges::are_in_range;
use crate::ranks::ranks;
use fields::PositionText;
use seq::Seq;
use serde_json::Value;
use sim_game::Limits;
use std::alloc::{AllocError, Global};

/// The text of a table of the states, which are in range within the wide limits.
fn text_of_states(alloc: Global, states: &[Value]) -> Result<PositionText, AllocError>
    requires { are_in_range Wide (map (λ v. state_form_of (view v)) states.now) ≡ true }
    ensures exact { IfOk result
        (λ t. t ≡ table_text_of (lists_of_states (map (λ v. state_form_of (view v)) states.now))) }
{
    let lists = Lists::of_states(alloc, states)?;
    let ranks = ranks(alloc, states)?;
    let cells = lists.cells;
    let draws = cells.draws;
    Ok(PositionText::Table {
        ranks: Seq::from_vec(ranks),
        moves: Seq::from_vec(lists.moves),
        values: Seq::from_vec(lists.values),
        cells: Seq::from_vec(cells.numbers),
        draws: Seq::from_vec(draws.numbers),
        rewards: Seq::from_vec(told_rewards(alloc, draws.rewards, draws.unpaid)),
    })
}

/// The text of the table whose states the value tells, within the limits. Kinds are told before ranges, wherever they stand.
#[tactic(auto, unfolding(crate::specs::States::table_text_in))]
pub fn read_states(
    limits: Limits,
    alloc: Global,
    value: &Value,
) -> Result<PositionText, StatesFault>
    ensures exact { Gives (λ t. t) result (table_text_in limits (view value.now)) }
    ensures in_range { IfOk result IsPositionInRange }
{
    if !are_state_kinds(value) {
        return Err(StatesFault::Kind);
    }
    let states = elements(value);
    if !are_in_range(limits, states) {
        return Err(StatesFault::Range);
    }
    Ok(text_of_states(alloc, states)?)
}
