//! The undecided states of a game, each once.

ghost use Rattle.std.specs.Prelude.{IfErr, IfOk, OnOk};
ghost use Rattle.sim_game.specs.Model.{Reachable};
ghost use Rattle.induction.specs.Listed.{AreListed, IsUnlisted};
ghost use Rattle.induction.specs.Places.{is_put};

use crate::GaveUp;
use crate::decided::is_decided;
use crate::places::PlaceTable;
use crate::watch::{InductionStep, Watch};
use sim_game::{Game, Side, Transition};
use std::alloc::Global;

// What is put at the place of a state that is listed and has no value yet.
const LISTED: u64 = 1;

/// The undecided states of the game, each once, and each marked at its place; fewer, where the watch ends it. There are no
/// more of them than `rows`.
pub(crate) fn list_states<G: Game, W: Watch>(
    alloc: Global,
    g: G,
    rows: u64,
    watch: &W,
    known: &mut PlaceTable,
) -> Result<Vec<G::State>, GaveUp>
    ensures listed { IfOk result (λ states.
        AreListed (G.model g) (G.numbering g).place rows (is_put known.new) states.items) }
    ensures err { IfErr result (IsUnlisted (G.model g) rows) }
{
    let mut states = Vec::new(alloc);
    let mut transitions = Vec::new(alloc);
    add(alloc, g, g.root(), rows, known, &mut states)?;
    for next in 0..rows {
        let Some(&s) = states.get(next as usize) else {
            break;
        };
        if !watch.goes_on(InductionStep::List) {
            break;
        }
        add_next(alloc, g, s, rows, &mut transitions, known, &mut states)?;
    }
    Ok(states)
}

/// Adds the undecided states that follow a state and are not listed yet, but for those that the game lists behind others.
fn add_next<G: Game>(
    alloc: Global,
    g: G,
    s: G::State,
    rows: u64,
    transitions: &mut Vec<Transition>,
    known: &mut PlaceTable,
    states: &mut Vec<G::State>,
) -> Result<(), GaveUp>
    requires reachable { Reachable (G.model g) s }
    requires listed { AreListed (G.model g) (G.numbering g).place rows (is_put known.old) states.old.items }
    ensures listed { OnOk result
        (AreListed (G.model g) (G.numbering g).place rows (is_put known.new) states.new.items) }
    ensures err { IfErr result (IsUnlisted (G.model g) rows) }
{
    let first = (g.first_listed(Side::One, s), g.first_listed(Side::Two, s));
    if first != (0, 0) {
        return add_behind(alloc, g, s, first, rows, known, states);
    }
    transitions.clear();
    g.add_transitions(s, transitions)?;
    let mut next: usize = 0;
    for a in 0..g.moves(Side::One, s) {
        for b in 0..g.moves(Side::Two, s) {
            for d in 0..g.draws(s, a, b) {
                if !is_listed(known, transitions.get(next)) {
                    add(alloc, g, g.drawn(s, a, b, d), rows, known, states)?;
                }
                next = next.wrapping_add(1);
            }
        }
    }
    Ok(())
}

/// Adds those undecided states that follow a state by these moves of both sides and the moves behind them, and are not
/// listed yet.
fn add_behind<G: Game>(
    alloc: Global,
    g: G,
    s: G::State,
    first: (u32, u32),
    rows: u64,
    known: &mut PlaceTable,
    states: &mut Vec<G::State>,
) -> Result<(), GaveUp>
    requires reachable { Reachable (G.model g) s }
    requires listed { AreListed (G.model g) (G.numbering g).place rows (is_put known.old) states.old.items }
    ensures listed { OnOk result
        (AreListed (G.model g) (G.numbering g).place rows (is_put known.new) states.new.items) }
    ensures err { IfErr result (IsUnlisted (G.model g) rows) }
{
    for a in first.0..g.moves(Side::One, s) {
        for b in first.1..g.moves(Side::Two, s) {
            for d in 0..g.draws(s, a, b) {
                add(alloc, g, g.drawn(s, a, b, d), rows, known, states)?;
            }
        }
    }
    Ok(())
}

/// Whether a transition leads to a place with a word.
#[inline]
fn is_listed(known: &PlaceTable, next: Option<&Transition>) -> bool {
    match next {
        None => false,
        Some(transition) => known.word(transition.place) != 0,
    }
}

/// Adds a state, if it is undecided and not listed yet.
fn add<G: Game>(
    alloc: Global,
    g: G,
    s: G::State,
    rows: u64,
    known: &mut PlaceTable,
    states: &mut Vec<G::State>,
) -> Result<(), GaveUp>
    requires reachable { Reachable (G.model g) s }
    requires listed { AreListed (G.model g) (G.numbering g).place rows (is_put known.old) states.old.items }
    ensures listed { OnOk result
        (AreListed (G.model g) (G.numbering g).place rows (is_put known.new) states.new.items) }
    ensures err { IfErr result (IsUnlisted (G.model g) rows) }
{
    if is_decided(g, s) {
        return Ok(());
    }
    let place = g.place(s);
    if known.word(place) != 0 {
        return Ok(());
    }
    if states.len() as u64 >= rows {
        return Err(GaveUp::TooManyStates);
    }
    known.put(alloc, place, LISTED)?;
    states.push(s)?;
    Ok(())
}
