//! Plans from the root down.

ghost use Rattle.std.specs.Prelude.{◌≡◌, ◌+◌, ◌<◌, ◌≤◌, length, IfOk, IfErr, OnOk};
ghost use Rattle.sim_game.specs.Model.{Reachable};
ghost use Rattle.plan_book.specs.Plans.{AreWeights};
ghost use Rattle.matrix_game.specs.Budget.{left_of};
ghost use Rattle.induction.specs.Listed.{GoesOn};
ghost use Rattle.induction.specs.Spent.{HasSpent, IsReason, IsStopped};
ghost use Rattle.induction.specs.Undecided.{HasUndecided};
ghost use Rattle.induction.specs.Places.{is_put};
ghost use Rattle.induction.specs.Planned.{AreFollowed, HasCome, IsKept, IsWholePlan};

use crate::decided::is_decided;
use crate::places::PlaceTable;
use crate::{GaveUp, PlannedState};
use matrix_game::Turns;
use plan_book::{children, is_whole};
use seq::Seq;
use sim_game::{Game, NoMemory, Side};
use std::alloc::{AllocError, Global};

// What is put at the place of a state that a walk has come to.
const SEEN: u64 = 1;

/// The states that a walk has come to.
#[derive(Drop)]
struct Walk<S> {
    // Each state is marked at its place.
    seen: PlaceTable,
    // Each state once, in the order in which they were met.
    met: Vec<S>,
    // The first of them, with weights.
    states: Vec<PlannedState<S>>,
}

/// The plan of a side by what is proposed: each undecided state that it comes to from the root, by own moves of positive
/// weight, against each reply and each draw. Weights are proposed for one state after another; none where the turns that are
/// left are to be given up. Nothing is promised of them: where they are no weights, all is on the first move. Each state
/// takes one turn. `Spent` comes only without a turn left, and `TooManyStates` never. Only the use of memory depends on
/// `rows`, how many undecided states there are at most.
pub fn plan_from<G: Game, F: Fn(Side, G::State) -> Result<Option<Vec<u32>>, NoMemory>>(
    alloc: Global,
    g: G,
    side: Side,
    total: u32,
    rows: u64,
    turns: &mut Turns,
    propose: &F,
) -> Result<Vec<PlannedState<G::State>>, GaveUp>
    requires may_call { (own : _) (s : _) → GoesOn (G.model g) s → F.pre propose.now own s }
    ensures whole { IfOk result (λ states. IsWholePlan (G.model g) side total states.items) }
    ensures as_many { IfOk result (λ states. HasUndecided (G.model g) (length states.items)) }
    ensures spent { IfOk result (λ states. HasSpent 0 (length states.items) turns.old turns.new) }
    ensures err { IfErr result (IsStopped (G.model g) ⊥ 0 turns.old turns.new) }
{
    let seen = PlaceTable::new(alloc, g.most_states(), rows)?;
    let met = Vec::new(alloc);
    let states = Vec::new(alloc);
    let mut walk = Walk { seen, met, states };
    meet(alloc, g, g.root(), &mut walk.seen, &mut walk.met)?;
    'each: while walk.states.len() < walk.met.len() {
        plan_by(alloc, g, side, total, turns, propose, &mut walk)?;
    }
    let Walk { states, .. } = walk;
    Ok(states)
}

/// Adds a state to those that were met, if it is undecided and none of them.
fn meet<G: Game>(
    alloc: Global,
    g: G,
    s: G::State,
    seen: &mut PlaceTable,
    met: &mut Vec<G::State>,
) -> Result<(), NoMemory>
    requires { Reachable (G.model g) s }
    ensures { OnOk result (HasCome (G.model g) (G.numbering g).place s (is_put seen.old) (is_put seen.new)
        met.old.items met.new.items) }
{
    let place = g.place(s);
    if seen.word(place) != 0 {
        return Ok(());
    }
    if is_decided(g, s) {
        return Ok(());
    }
    seen.put(alloc, place, SEEN)?;
    met.push(s)?;
    Ok(())
}

/// Plans the next state that was met, by what is proposed, for a turn.
fn plan_by<G: Game, F: Fn(Side, G::State) -> Result<Option<Vec<u32>>, NoMemory>>(
    alloc: Global,
    g: G,
    side: Side,
    total: u32,
    turns: &mut Turns,
    propose: &F,
    walk: &mut Walk<G::State>,
) -> Result<(), GaveUp>
    requires may_call { (own : _) (s : _) → GoesOn (G.model g) s → F.pre propose.now own s }
    requires followed { AreFollowed (G.model g) (G.numbering g).place side total
        (is_put walk.old.seen) walk.old.met.items walk.old.states.items }
    requires left { length walk.old.states.items < length walk.old.met.items }
    ensures followed { OnOk result (AreFollowed (G.model g) (G.numbering g).place side total
        (is_put walk.new.seen) walk.new.met.items walk.new.states.items) }
    ensures kept { OnOk result (IsKept (is_put walk.old.seen) (is_put walk.new.seen)) }
    ensures spent { OnOk result (HasSpent (length walk.old.states.items) (length walk.new.states.items)
        turns.old turns.new) }
    ensures fewer { OnOk result (left_of turns.new < left_of turns.old) }
    ensures err { IfErr result (IsStopped (G.model g) ⊥ (length walk.old.states.items) turns.old turns.new) }
{
    if turns.left() == 0 {
        return Err(GaveUp::Spent);
    }
    let s = walk.met[walk.states.len()];
    let proposed = propose(side, s)?;
    take_turn(turns, proposed.is_some())?;
    plan_next(alloc, g, side, total, proposed, walk)?;
    Ok(())
}

/// Takes a turn. Where it is not to go on, the turns that are left are given up, if they may be.
fn take_turn(turns: &mut Turns, goes_on: bool) -> Result<(), GaveUp>
    requires { 0 < left_of turns.old }
    ensures spent { HasSpent 0 1 turns.old turns.new }
    ensures left { OnOk result (left_of turns.new < left_of turns.old) }
    ensures err { IfErr result (IsReason ⊥ turns.new) }
{
    if !goes_on {
        turns.stop();
        if turns.left() == 0 {
            return Err(GaveUp::Spent);
        }
    }
    turns.split(1);
    Ok(())
}

/// Plans the next state that was met, and meets those that follow it.
fn plan_next<G: Game>(
    alloc: Global,
    g: G,
    side: Side,
    total: u32,
    proposed: Option<Vec<u32>>,
    walk: &mut Walk<G::State>,
) -> Result<(), NoMemory>
    requires followed { AreFollowed (G.model g) (G.numbering g).place side total
        (is_put walk.old.seen) walk.old.met.items walk.old.states.items }
    requires left { length walk.old.states.items < length walk.old.met.items }
    ensures followed { OnOk result (AreFollowed (G.model g) (G.numbering g).place side total
        (is_put walk.new.seen) walk.new.met.items walk.new.states.items) }
    ensures kept { OnOk result (IsKept (is_put walk.old.seen) (is_put walk.new.seen)) }
    ensures planned { OnOk result (length walk.new.states.items ≡ length walk.old.states.items + 1) }
    ensures met { OnOk result (length walk.old.met.items ≤ length walk.new.met.items) }
{
    let s = walk.met[walk.states.len()];
    let weights = whole_weights(alloc, g.moves(side, s), total, proposed)?;
    let below = children(alloc, g, side, weights.as_slice(), s)?;
    let weights = Seq::from_vec(weights);
    walk.states.push(PlannedState {
        state: s,
        key: g.key(s),
        rank: g.rank(s),
        weights,
    })?;
    for child in &below {
        meet(alloc, g, *child, &mut walk.seen, &mut walk.met)?;
    }
    Ok(())
}

/// What is proposed, if it is one weight for each move and they sum to the total; else all of it on the first move.
fn whole_weights(
    alloc: Global,
    count: u32,
    total: u32,
    proposed: Option<Vec<u32>>,
) -> Result<Vec<u32>, AllocError>
    requires { 1 ≤ count }
    ensures { IfOk result (λ weights. AreWeights count total weights.items) }
{
    if let Some(weights) = proposed {
        if is_whole(&weights, count, total) {
            return Ok(weights);
        }
    }
    let mut weights = vec![in alloc; 0u32; count as usize]?;
    weights[0] = total;
    Ok(weights)
}
