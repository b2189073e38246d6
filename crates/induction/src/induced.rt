//! Lawful sheets of both sides, by one pass over the states and one over each side's plan.

ghost use Rattle.std.specs.Prelude.{◌≡◌, ◌≢◌, ◌/◌, ◌<◌, ◌≤◌, None, All, IfOk};
ghost use Rattle.sums.specs.declared.TheConstants.{MOST_WEIGHT};
ghost use Rattle.sim_game.specs.declared.Side.TheVariants.{One, Two};
ghost use Rattle.matrix_game.specs.Budget.{after_stop, left_of};
ghost use Rattle.plan_book.specs.Sheets.{root_bound, IsLawful};
ghost use Rattle.induction.specs.declared.gave_up.GaveUp.{GaveUp};
ghost use Rattle.induction.specs.Induced.{of_side, own_turns, AreBothSheets, IsOwnSheet, IsInductionResult, MakesBoth};
ghost use Rattle.induction.specs.Listed.{GoesOn};

use crate::places::PlaceTable;
use crate::proposals::Proposals;
use crate::values::{FoundValues, Guide, Values, value_states, values_of};
use crate::watch::{FEW_STATES, Terms, Watch};
use crate::{GaveUp, certify, certify_by, plan_from};
use matrix_game::Turns;
use plan_book::{Sheet, bound_of};
use sim_game::{Game, NoMemory, Side};
use std::alloc::Global;
use std::thread::Threads;
use std::{mem, thread};

/// Sheets of both sides, and their bounds at the root, in millionths.
#[derive(Drop)]
pub struct Induced {
    pub one: Sheet,
    pub two: Sheet,
    pub lower: i64,
    pub upper: i64,
}

/// The sheet of a side, by what is proposed.
fn sheet_of<G: Game, F: Fn(Side, G::State) -> Result<Option<Vec<u32>>, NoMemory>>(
    alloc: Global,
    g: G,
    side: Side,
    terms: Terms,
    turns: &mut Turns,
    propose: &F,
) -> Result<Sheet, GaveUp>
    requires some { 1 ≤ terms.total }
    requires light { terms.total ≤ MOST_WEIGHT }
    requires may_call { (own : _) (s : _) → GoesOn (G.model g) s → F.pre propose.now own s }
    ensures { IsOwnSheet (G.model g) side terms.total turns.old turns.new result }
{
    let states = plan_from(alloc, g, side, terms.total, terms.rows, turns, propose)?;
    Ok(certify(alloc, g, side, terms.total, terms.rows, states)?)
}

/// The same, with the bounds by several threads.
fn sheet_by<
    R: Threads + Sync,
    G: Game + Send + Sync,
    F: Fn(Side, G::State) -> Result<Option<Vec<u32>>, NoMemory>,
>(
    rt: &R,
    alloc: Global,
    g: G,
    side: Side,
    terms: Terms,
    turns: &mut Turns,
    propose: &F,
) -> Result<Sheet, GaveUp>
where
    G::State: Send + Sync,
    requires some { 1 ≤ terms.total }
    requires light { terms.total ≤ MOST_WEIGHT }
    requires may_call { (own : _) (s : _) → GoesOn (G.model g) s → F.pre propose.now own s }
    ensures { IsOwnSheet (G.model g) side terms.total turns.old turns.new result }
{
    let states = plan_from(alloc, g, side, terms.total, terms.rows, turns, propose)?;
    Ok(certify_by(rt, alloc, g, side, terms, states)?)
}

/// The sheets of both sides, one after the other.
fn both_sheets<G: Game, F: Fn(Side, G::State) -> Result<Option<Vec<u32>>, NoMemory>>(
    alloc: Global,
    g: G,
    terms: Terms,
    turns: Turns,
    propose: &F,
) -> (Result<(Sheet, Sheet), GaveUp>, Turns)
    requires some { 1 ≤ terms.total }
    requires light { terms.total ≤ MOST_WEIGHT }
    requires may_call { (own : _) (s : _) → GoesOn (G.model g) s → F.pre propose.now own s }
    ensures { AreBothSheets (G.model g) terms.total terms.rows turns result.1 result.0 }
{
    let mut turns = turns;
    let one = match sheet_of(alloc, g, Side::One, terms, &mut turns, propose) {
        Ok(one) => one,
        Err(e) => return (Err(e), turns),
    };
    let two = match sheet_of(alloc, g, Side::Two, terms, &mut turns, propose) {
        Ok(two) => two,
        Err(e) => return (Err(e), turns),
    };
    (Ok((one, two)), turns)
}

/// The sheet of a side with turns of its own.
fn side_sheet<R: Threads + Sync, G: Game + Send + Sync, W: Watch + Sync>(
    rt: &R,
    alloc: Global,
    g: G,
    side: Side,
    terms: Terms,
    guide: &Guide<'_, W>,
    turns: Turns,
) -> (Result<Sheet, GaveUp>, Turns)
where
    G::State: Send + Sync,
    requires some { 1 ≤ terms.total }
    requires light { terms.total ≤ MOST_WEIGHT }
    ensures { IsOwnSheet (G.model g) side terms.total turns result.1 result.0 }
{
    let mut turns = turns;
    let propose = |own: Side, s: G::State| -> Result<Option<Vec<u32>>, NoMemory>
        requires { GoesOn (G.model g) s }
    { guide.weights(alloc, g, own, s) };
    let sheet = sheet_by(rt, alloc, g, side, terms, &mut turns, &propose);
    (sheet, turns)
}

/// Why both sides gave up, where one did that had so many turns, one more than there may be states: there are too many
/// states, unless it was told to end. Then the turns of both are given up too.
fn of_side(e: GaveUp, each: u64, own: &Turns, turns: &mut Turns) -> GaveUp
    ensures whole { each ≤ own.now.limit → (result ≡ of_side e) × (turns.new ≡ turns.old) }
    ensures stopped { own.now.limit < each → (result ≡ e) × (turns.new ≡ after_stop turns.old) }
{
    if own.limit() < each {
        turns.stop();
        return e;
    }
    match e {
        GaveUp::TooManyStates => GaveUp::TooManyStates,
        GaveUp::Spent => GaveUp::TooManyStates,
        GaveUp::NoMemory => GaveUp::NoMemory,
    }
}

/// The sheets of both sides, each made with one turn more than there may be states, and all turns.
fn both_of<G: Game>(
    g: G,
    terms: Terms,
    one: (Result<Sheet, GaveUp>, Turns),
    two: (Result<Sheet, GaveUp>, Turns),
    turns: Turns,
) -> (Result<(Sheet, Sheet), GaveUp>, Turns)
    requires one { IsOwnSheet (G.model g) One terms.total (own_turns terms.rows turns.may_stop) one.1 one.0 }
    requires two { IsOwnSheet (G.model g) Two terms.total (own_turns terms.rows turns.may_stop) two.1 two.0 }
    requires enough { terms.rows < left_of turns / 2 }
    ensures { AreBothSheets (G.model g) terms.total terms.rows turns result.1 result.0 }
{
    let each = terms.rows + 1;
    let (one, one_turns) = one;
    let (two, two_turns) = two;
    let mut turns = turns;
    let spent = one_turns.spent() + two_turns.spent();
    turns.split(spent);
    let one = match one {
        Ok(one) => one,
        Err(e) => {
            let why = of_side(e, each, &one_turns, &mut turns);
            return (Err(why), turns);
        }
    };
    let two = match two {
        Ok(two) => two,
        Err(e) => {
            let why = of_side(e, each, &two_turns, &mut turns);
            return (Err(why), turns);
        }
    };
    (Ok((one, two)), turns)
}

/// The sheets of both sides at once, where there are turns enough for each to come to its end.
fn both_at_once<R: Threads + Sync, G: Game + Send + Sync, W: Watch + Sync>(
    rt: &R,
    alloc: Global,
    g: G,
    terms: Terms,
    proposals: &Proposals,
    watch: &W,
    turns: Turns,
) -> (Result<(Sheet, Sheet), GaveUp>, Turns)
where
    G::State: Send + Sync,
    requires some { 1 ≤ terms.total }
    requires light { terms.total ≤ MOST_WEIGHT }
    ensures { AreBothSheets (G.model g) terms.total terms.rows turns result.1 result.0 }
{
    if turns.left() / 2 <= terms.rows {
        let guide = Guide::new(proposals, watch);
        let propose = |side: Side, s: G::State| -> Result<Option<Vec<u32>>, NoMemory>
            requires { GoesOn (G.model g) s }
        { guide.weights(alloc, g, side, s) };
        return both_sheets(alloc, g, terms, turns, &propose);
    }
    let each = terms.rows + 1;
    let may_stop = turns.may_stop();
    let workers = terms.workers / 2;
    let (one, two) = thread::join(
        rt,
        || -> (Result<Sheet, GaveUp>, Turns)
            requires some { 1 ≤ terms.total }
            requires light { terms.total ≤ MOST_WEIGHT }
            ensures { IsOwnSheet (G.model g) One terms.total (record { limit = each; spent = 0; may_stop = may_stop })
                result.1 result.0 }
        {
            let own = Turns::with_stop(each, may_stop);
            let half = Terms { workers, ..terms };
            let guide = Guide::new(proposals, watch);
            side_sheet(rt, alloc, g, Side::One, half, &guide, own)
        },
        || -> (Result<Sheet, GaveUp>, Turns)
            requires some { 1 ≤ terms.total }
            requires light { terms.total ≤ MOST_WEIGHT }
            ensures { IsOwnSheet (G.model g) Two terms.total (record { limit = each; spent = 0; may_stop = may_stop })
                result.1 result.0 }
        {
            let own = Turns::with_stop(each, may_stop);
            let half = Terms { workers, ..terms };
            let guide = Guide::new(proposals, watch);
            side_sheet(rt, alloc, g, Side::Two, half, &guide, own)
        },
    );
    both_of(g, terms, one, two, turns)
}

/// As `solve`, with values and sheets by the functions.
fn solve_by<
    G: Game,
    W: Watch,
    F: Fn(&PlaceTable, &[G::State]) -> Result<FoundValues, NoMemory>,
    B: Fn(&Proposals, Turns) -> (Result<(Sheet, Sheet), GaveUp>, Turns),
>(
    alloc: Global,
    g: G,
    terms: Terms,
    watch: &W,
    turns: &mut Turns,
    values_of: &F,
    both_sheets: &B,
) -> Result<Option<Induced>, NoMemory>
    requires may_call { (known : _) (some : _) → All (GoesOn (G.model g)) some.now
        → F.pre values_of.now known some }
    requires both { MakesBoth (G.model g) terms.total terms.rows
        (B.pre both_sheets.now) (B.post both_sheets.now) }
    ensures { IsInductionResult (G.model g) terms.total terms.rows turns.old turns.new result }
{
    let rows = terms.rows;
    let known = PlaceTable::new(alloc, g.most_states(), rows)?;
    let proposals = Proposals::new(alloc, g.most_states(), rows)?;
    let own = mem::replace(turns, Turns::new(0));
    let mut values = Values::new(known, proposals, rows, own);
    let valued = value_states(alloc, g, watch, &mut values, values_of);
    let (proposals, rest) = values.into_parts();
    if let Err(e) = valued {
        *turns = rest;
        return nothing(e);
    }
    let (found, rest) = both_sheets(&proposals, rest);
    *turns = rest;
    match found {
        Ok((one, two)) => Ok(Some(with_bounds(g, one, two))),
        Err(e) => nothing(e),
    }
}

/// The sheets, with their bounds at the root.
fn with_bounds<G: Game>(g: G, one: Sheet, two: Sheet) -> Induced
    requires one { IsLawful (G.model g) one }
    requires two { IsLawful (G.model g) two }
    ensures one { result.one ≡ one }
    ensures two { result.two ≡ two }
    ensures lower { result.lower ≡ root_bound (G.model g) one }
    ensures upper { result.upper ≡ root_bound (G.model g) two }
{
    let lower = bound_of(g, &one, g.root());
    let upper = bound_of(g, &two, g.root());
    Induced {
        one,
        two,
        lower,
        upper,
    }
}

/// That no sheets were found.
fn nothing(e: GaveUp) -> Result<Option<Induced>, NoMemory>
    ensures none { IfOk result (λ found. found ≡ None) }
    ensures why { IfOk result (λ _. e ≢ GaveUp.NoMemory) }
{
    match e {
        GaveUp::TooManyStates => Ok(None),
        GaveUp::Spent => Ok(None),
        GaveUp::NoMemory => Err(NoMemory),
    }
}

/// The values of states of one rank, which so many workers divide; fewer, where the watch ends it.
fn values_by<R: Threads + Sync, G: Game + Send + Sync, W: Watch + Sync>(
    rt: &R,
    alloc: Global,
    g: G,
    terms: Terms,
    known: &PlaceTable,
    states: &[G::State],
    watch: &W,
) -> Result<FoundValues, NoMemory>
where
    G::State: Send + Sync,
    requires states { All (GoesOn (G.model g)) states.now }
    requires light { terms.total ≤ MOST_WEIGHT }
{
    let total = terms.total;
    if states.len() < FEW_STATES {
        return values_of(alloc, g, total, known, states, watch);
    }
    let size = (states.len() / terms.workers.max(1) as usize).saturating_add(1);
    let parts = thread::map_chunks(
        rt,
        alloc,
        states,
        size,
        &|_first: usize, part: &[G::State]| -> Result<FoundValues, NoMemory>
            requires states { All (GoesOn (G.model g)) part.now }
            requires light { total ≤ MOST_WEIGHT }
        { values_of(alloc, g, total, known, part, watch) },
    )?;
    let mut found = FoundValues::new(alloc, states.len())?;
    for part in parts {
        found.add(&part?)?;
    }
    Ok(found)
}

/// Lawful sheets of both sides with weights of this total, and a row for each undecided state that they come to. None comes
/// only where more than `rows` states are undecided, or where no turn is left: each undecided state takes one turn, and
/// each row of a sheet another, so no more than three for each undecided state in all. Where the watch ends it, the turns
/// that are left are given up. Several workers divide the states of a rank, and the sheets are made at once; they are the
/// same for each number of workers.
pub fn solve<R: Threads + Sync, G: Game + Send + Sync, W: Watch + Sync>(
    rt: &R,
    alloc: Global,
    g: G,
    terms: Terms,
    watch: &W,
    turns: &mut Turns,
) -> Result<Option<Induced>, NoMemory>
where
    G::State: Send + Sync,
    requires some { 1 ≤ terms.total }
    requires light { terms.total ≤ MOST_WEIGHT }
    ensures { IsInductionResult (G.model g) terms.total terms.rows turns.old turns.new result }
{
    if terms.workers < 2 {
        return solve_alone(alloc, g, terms, watch, turns);
    }
    let divided = |known: &PlaceTable, states: &[G::State]| -> Result<FoundValues, NoMemory>
        requires states { All (GoesOn (G.model g)) states.now }
        requires light { terms.total ≤ MOST_WEIGHT }
    { values_by(rt, alloc, g, terms, known, states, watch) };
    let at_once = |proposals: &Proposals, turns: Turns| -> (Result<(Sheet, Sheet), GaveUp>, Turns)
        requires some { 1 ≤ terms.total }
        requires light { terms.total ≤ MOST_WEIGHT }
        ensures { AreBothSheets (G.model g) terms.total terms.rows turns result.1 result.0 }
    { both_at_once(rt, alloc, g, terms, proposals, watch, turns) };
    solve_by(alloc, g, terms, watch, turns, &divided, &at_once)
}

/// As `solve`, by the caller alone. It starts no thread.
pub fn solve_alone<G: Game, W: Watch>(
    alloc: Global,
    g: G,
    terms: Terms,
    watch: &W,
    turns: &mut Turns,
) -> Result<Option<Induced>, NoMemory>
    requires some { 1 ≤ terms.total }
    requires light { terms.total ≤ MOST_WEIGHT }
    ensures { IsInductionResult (G.model g) terms.total terms.rows turns.old turns.new result }
{
    let alone = |known: &PlaceTable, states: &[G::State]| -> Result<FoundValues, NoMemory>
        requires states { All (GoesOn (G.model g)) states.now }
        requires light { terms.total ≤ MOST_WEIGHT }
    { values_of(alloc, g, terms.total, known, states, watch) };
    let in_turn = |proposals: &Proposals, turns: Turns| -> (Result<(Sheet, Sheet), GaveUp>, Turns)
        requires some { 1 ≤ terms.total }
        requires light { terms.total ≤ MOST_WEIGHT }
        ensures { AreBothSheets (G.model g) terms.total terms.rows turns result.1 result.0 }
    {
        let guide = Guide::new(proposals, watch);
        let propose = |side: Side, s: G::State| -> Result<Option<Vec<u32>>, NoMemory>
            requires { GoesOn (G.model g) s }
        { guide.weights(alloc, g, side, s) };
        both_sheets(alloc, g, terms, turns, &propose)
    };
    solve_by(alloc, g, terms, watch, turns, &alone, &in_turn)
}
