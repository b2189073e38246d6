//! A lawful sheet of a plan.

ghost use Rattle.std.specs.Prelude.{◌≡◌, ◌≤◌, ◌<◌, ◌-◌, ℕ, length, slice_index_or, All, IfOk, OnOk};
ghost use Rattle.sums.specs.declared.TheConstants.{MOST_WEIGHT};
ghost use Rattle.plan_book.specs.Sheets.{row_at, IsLawful};
ghost use Rattle.induction.specs.Places.{place_word};
ghost use Rattle.induction.specs.Certified.{ArePlaced, IsOpenState, IsBestOf, AreBestBounds, AreNextBounds, HasBestBounds};
ghost use Rattle.induction.specs.Planned.{ArePlanned, planned, weights_of_row};

use crate::PlannedState;
use crate::bounds::{best_bound, word_of};
use crate::places::PlaceTable;
use crate::watch::{FEW_STATES, Terms};
use plan_book::{Sheet, SheetRow};
use seq::Seq;
use sim_game::{Game, NoMemory, Side};
use std::alloc::{AllocError, Global};
use std::thread;
use std::thread::Threads;

/// Rows that are made, and their bounds by the places of their states.
#[derive(Drop)]
struct MadeRows {
    rows: Vec<SheetRow>,
    bounds: PlaceTable,
}

/// The best bound that the weights of a state prove over the rows.
fn bound_state<G: Game>(
    g: G,
    side: Side,
    total: u32,
    made: &MadeRows,
    planned: &PlannedState<G::State>,
) -> i64
    requires some { 1 ≤ total }
    requires light { total ≤ MOST_WEIGHT }
    requires placed { ArePlaced (G.model g) (G.numbering g).place made.now.rows.items (place_word made.now.bounds) }
    requires ready { IsOpenState (G.model g) side total planned.now }
    ensures { IsBestOf (G.model g) side total made.now.rows.items planned.now result }
{
    let weights = planned.weights.as_slice();
    best_bound(
        g,
        side,
        total,
        &made.rows,
        &made.bounds,
        weights,
        planned.state,
    )
}

/// The best bounds that the weights of states prove over the rows, one after another.
fn bound_states<G: Game>(
    alloc: Global,
    g: G,
    side: Side,
    total: u32,
    made: &MadeRows,
    states: &[PlannedState<G::State>],
) -> Result<Vec<i64>, AllocError>
    requires some { 1 ≤ total }
    requires light { total ≤ MOST_WEIGHT }
    requires placed { ArePlaced (G.model g) (G.numbering g).place made.now.rows.items (place_word made.now.bounds) }
    requires ready { All (IsOpenState (G.model g) side total) states.now }
    ensures { IfOk result (λ found. AreBestBounds (G.model g) side total made.now.rows.items states.now found.items) }
{
    let mut found = Vec::with_capacity(alloc, states.len())?;
    for planned in states {
        found.push(bound_state(g, side, total, made, planned))?;
    }
    Ok(found)
}

/// The same by several threads, where there are states enough.
fn bound_states_by<R: Threads + Sync, G: Game + Send + Sync>(
    rt: &R,
    alloc: Global,
    g: G,
    side: Side,
    terms: Terms,
    made: &MadeRows,
    states: &[PlannedState<G::State>],
) -> Result<Vec<i64>, AllocError>
where
    G::State: Send + Sync,
    requires some { 1 ≤ terms.total }
    requires light { terms.total ≤ MOST_WEIGHT }
    requires placed { ArePlaced (G.model g) (G.numbering g).place made.now.rows.items (place_word made.now.bounds) }
    requires ready { All (IsOpenState (G.model g) side terms.total) states.now }
    ensures { IfOk result (λ found.
        AreBestBounds (G.model g) side terms.total made.now.rows.items states.now found.items) }
{
    let total = terms.total;
    if terms.workers < 2 || states.len() < FEW_STATES {
        return bound_states(alloc, g, side, total, made, states);
    }
    let mut found = vec![in alloc; 0i64; states.len()]?;
    thread::for_each_mut(
        rt,
        &mut found,
        terms.workers as usize,
        &|place: usize, bound: &mut i64|
            requires some { 1 ≤ total }
            requires light { total ≤ MOST_WEIGHT }
            requires placed { ArePlaced (G.model g) (G.numbering g).place made.now.rows.items
                (place_word made.now.bounds) }
            requires ready { All (IsOpenState (G.model g) side total) states.now }
            requires place { place < length states.now }
            ensures { (d : _) → IsBestOf (G.model g) side total made.entry.now.rows.items
                (slice_index_or states.entry.now place d) bound.new }
        { *bound = bound_state(g, side, total, made, &states[place]) },
    );
    Ok(found)
}

/// The sheet of planned states with their weights: for each the best bound that its weights prove over the bounds of the
/// states that follow. Ranks fall with each turn, so states of lower rank come first. The sheet is lawful, whatever the
/// weights are. Only the use of memory depends on `rows`, how many undecided states there are at most.
pub fn certify<G: Game>(
    alloc: Global,
    g: G,
    side: Side,
    total: u32,
    rows: u64,
    states: Vec<PlannedState<G::State>>,
) -> Result<Sheet, NoMemory>
    requires some { 1 ≤ total }
    requires light { total ≤ MOST_WEIGHT }
    requires planned { ArePlanned (G.model g) side total states.items }
    ensures side { IfOk result (λ sheet. sheet.side ≡ side) }
    ensures total { IfOk result (λ sheet. sheet.total ≡ total) }
    ensures as_many { IfOk result (λ sheet. length sheet.rows ≡ length states.items) }
    ensures weights { IfOk result (λ sheet.
        (key : ℕ) → weights_of_row (row_at sheet.rows key) ≡ weights_of_row (planned states.items key)) }
    ensures lawful { IfOk result (IsLawful (G.model g)) }
    ensures best { IfOk result (HasBestBounds (G.model g)) }
{
    let alone = |made: &MadeRows, states: &[PlannedState<G::State>]| -> Result<Vec<i64>, AllocError>
        requires some { 1 ≤ total }
        requires light { total ≤ MOST_WEIGHT }
        requires placed { ArePlaced (G.model g) (G.numbering g).place made.now.rows.items (place_word made.now.bounds) }
        requires ready { All (IsOpenState (G.model g) side total) states.now }
        ensures { IfOk result (λ found.
            AreBestBounds (G.model g) side total made.now.rows.items states.now found.items) }
    { bound_states(alloc, g, side, total, made, states) };
    certify_with(alloc, g, side, total, rows, states, &alone)
}

/// As `certify`, by so many threads at most, which divide the states of a rank.
pub fn certify_by<R: Threads + Sync, G: Game + Send + Sync>(
    rt: &R,
    alloc: Global,
    g: G,
    side: Side,
    terms: Terms,
    states: Vec<PlannedState<G::State>>,
) -> Result<Sheet, NoMemory>
where
    G::State: Send + Sync,
    requires some { 1 ≤ terms.total }
    requires light { terms.total ≤ MOST_WEIGHT }
    requires planned { ArePlanned (G.model g) side terms.total states.items }
    ensures side { IfOk result (λ sheet. sheet.side ≡ side) }
    ensures total { IfOk result (λ sheet. sheet.total ≡ terms.total) }
    ensures as_many { IfOk result (λ sheet. length sheet.rows ≡ length states.items) }
    ensures weights { IfOk result (λ sheet.
        (key : ℕ) → weights_of_row (row_at sheet.rows key) ≡ weights_of_row (planned states.items key)) }
    ensures lawful { IfOk result (IsLawful (G.model g)) }
    ensures best { IfOk result (HasBestBounds (G.model g)) }
{
    let divided = |made: &MadeRows, states: &[PlannedState<G::State>]| -> Result<
        Vec<i64>,
        AllocError,
    >
        requires some { 1 ≤ terms.total }
        requires light { terms.total ≤ MOST_WEIGHT }
        requires placed { ArePlaced (G.model g) (G.numbering g).place made.now.rows.items (place_word made.now.bounds) }
        requires ready { All (IsOpenState (G.model g) side terms.total) states.now }
        ensures { IfOk result (λ found.
            AreBestBounds (G.model g) side terms.total made.now.rows.items states.now found.items) }
    { bound_states_by(rt, alloc, g, side, terms, made, states) };
    certify_with(alloc, g, side, terms.total, terms.rows, states, &divided)
}

/// As `certify`, with the bounds of states of one rank by the function.
fn certify_with<
    G: Game,
    F: Fn(&MadeRows, &[PlannedState<G::State>]) -> Result<Vec<i64>, AllocError>,
>(
    alloc: Global,
    g: G,
    side: Side,
    total: u32,
    rows: u64,
    states: Vec<PlannedState<G::State>>,
    bounds_of: &F,
) -> Result<Sheet, NoMemory>
    requires some { 1 ≤ total }
    requires light { total ≤ MOST_WEIGHT }
    requires planned { ArePlanned (G.model g) side total states.items }
    requires bounds { (made : _) (some : _)
        → ArePlaced (G.model g) (G.numbering g).place made.now.rows.items (place_word made.now.bounds)
        → All (IsOpenState (G.model g) side total) some.now
        → F.pre bounds_of.now made some × ((found : _) → F.post bounds_of.now made some found
        → IfOk found (λ x. AreBestBounds (G.model g) side total made.now.rows.items some.now x.items)) }
    ensures side { IfOk result (λ sheet. sheet.side ≡ side) }
    ensures total { IfOk result (λ sheet. sheet.total ≡ total) }
    ensures as_many { IfOk result (λ sheet. length sheet.rows ≡ length states.items) }
    ensures weights { IfOk result (λ sheet.
        (key : ℕ) → weights_of_row (row_at sheet.rows key) ≡ weights_of_row (planned states.items key)) }
    ensures lawful { IfOk result (IsLawful (G.model g)) }
    ensures best { IfOk result (HasBestBounds (G.model g)) }
{
    let mut states = states;
    states.sort_unstable_by_key(|state| state.rank);
    states.reverse();
    let mut made = MadeRows {
        rows: Vec::new(alloc),
        bounds: PlaceTable::new(alloc, g.most_states(), rows)?,
    };
    let mut found = Vec::new(alloc);
    refill(g, side, total, &made, &states, bounds_of, &mut found)?;
    while let Some(planned) = states.pop() {
        let bound = found.pop().unwrap_or(0);
        let PlannedState {
            state,
            key,
            weights,
            ..
        } = planned;
        made.bounds.put(alloc, g.place(state), word_of(bound))?;
        made.rows.push(SheetRow {
            key,
            bound,
            weights,
        })?;
        refill(g, side, total, &made, &states, bounds_of, &mut found)?;
    }
    let mut made = made.rows;
    made.sort_unstable_by_key(|row| row.key);
    Ok(Sheet {
        side,
        total,
        rows: Seq::from_vec(made),
    })
}

/// The bounds of all states of the rank of the last one, where no bounds of last states are at hand.
fn refill<G: Game, F: Fn(&MadeRows, &[PlannedState<G::State>]) -> Result<Vec<i64>, AllocError>>(
    _g: G,
    _side: Side,
    _total: u32,
    made: &MadeRows,
    states: &[PlannedState<G::State>],
    bounds_of: &F,
    found: &mut Vec<i64>,
) -> Result<(), AllocError>
    requires placed { ArePlaced (G.model _g) (G.numbering _g).place made.now.rows.items (place_word made.now.bounds) }
    requires ready { All (IsOpenState (G.model _g) _side _total) states.now }
    requires bounds { (made : _) (some : _)
        → ArePlaced (G.model _g) (G.numbering _g).place made.now.rows.items (place_word made.now.bounds)
        → All (IsOpenState (G.model _g) _side _total) some.now
        → F.pre bounds_of.now made some × ((found : _) → F.post bounds_of.now made some found
        → IfOk found (λ x. AreBestBounds (G.model _g) _side _total made.now.rows.items some.now x.items)) }
    requires next { AreNextBounds (G.model _g) _side _total made.now.rows.items states.now found.old.items }
    ensures next { OnOk result
        (AreNextBounds (G.model _g) _side _total made.now.rows.items states.now found.new.items) }
    ensures any { OnOk result (1 ≤ length states.now → 1 ≤ length found.new.items) }
{
    if states.is_empty() || !found.is_empty() {
        return Ok(());
    }
    let start = run_start(states);
    *found = bounds_of(made, &states[start..])?;
    Ok(())
}

/// The place from which on all states have the rank of the last one.
fn run_start<S>(states: &[PlannedState<S>]) -> usize
    requires { 1 ≤ length states.now }
    ensures within { result < length states.now }
    ensures level { (k : ℕ) (d : _) → result ≤ k → k < length states.now
        → (slice_index_or states.now k d).rank ≡ (slice_index_or states.now (length states.now - 1) d).rank }
{
    let last = states.len() - 1;
    let mut start = last;
    while start > 0 && states[start - 1].rank == states[last].rank {
        start -= 1;
    }
    start
}
