//! Induction: serial searches of the root first, then plans that floats propose and exact sums certify.

ghost use Rattle.std.specs.Prelude.{◌≡◌, ◌≤◌, ◌⊎◌, ◌-ℤ◌, ◌<ℤ◌, ◌≤ℤ◌, true, unsigned_abs, MatchBool, IfOk, IfSome};
ghost use Rattle.sums.specs.declared.TheConstants.{MOST_BOUND};
ghost use Rattle.sim_game.specs.Resolution.{IsFineWeight};
ghost use Rattle.fields.specs.Ranges.{IsAskInRange};
ghost use Rattle.fields.specs.declared.ask.SearchMethod.TheVariants.{Induction};
ghost use Rattle.plan_book.specs.Sheets.{root_bound};
ghost use Rattle.induction.specs.Induced.{IsInduced, IsSheetOf};
ghost use Rattle.lazy_workers.specs.Findings.{found_gap, IsFoundPlan, IsFoundGame};
ghost use Rattle.game_search.specs.Steps.{found_with, IsPureFound, AreFoundPlans, IsSolvedFor, IsSolver, IsStepOf};

use crate::plan::{BothPlans, Plan};
use crate::step::{Left, Step};
use fields::Ask;
use induction::Induced;
use lazy_workers::{Budgets, Found, find_alone};
use matrix_game::Turns;
use oracle_search::Gate;
use plan_book::Sheet;
use seq::Seq;
use sim_game::{Game, NoMemory, Side};
use std::alloc::Global;

/// Searches the game by pure plans of the root, and where these are not close enough by an induction, which the function
/// makes with the turns that it is given.
pub(crate) fn induce<
    G: Game,
    T: Gate,
    F: FnOnce(Turns) -> (Result<Option<Induced>, NoMemory>, Turns),
>(alloc: Global, g: G, ask: &Ask, gate: &T, may_stop: bool, solve: F) -> Result<Step, NoMemory>
    requires ask { IsAskInRange ask.now }
    requires fine { IsFineWeight (G.model g) ask.now.weight }
    requires search { ask.now.search ≡ Induction }
    requires solve { IsSolver (G.model g) ask.now may_stop (F.pre solve) (F.post solve) }
    ensures { IfOk result (IsStepOf (G.model g) ask.now may_stop) }
{
    let pure = pure_plans(alloc, g, ask, gate, may_stop)?;
    if is_near(pure.lower, pure.upper, ask.gap) {
        Ok(Step::Found(unspent(alloc, g, ask, may_stop, pure)?))
    } else {
        let (found, turns) = solve(Turns::with_stop(ask.turns, may_stop));
        proposed(alloc, g, ask, pure, found, turns)
    }
}

/// What the serial searches of the root find, without a turn. The gate can stop them where `may_stop` says so.
fn pure_plans<G: Game, T: Gate>(
    alloc: Global,
    g: G,
    ask: &Ask,
    gate: &T,
    may_stop: bool,
) -> Result<Found, NoMemory>
    requires ask { IsAskInRange ask.now }
    requires fine { IsFineWeight (G.model g) ask.now.weight }
    ensures { IfOk result (IsPureFound (G.model g) ask.now may_stop) }
{
    let mut first = *ask;
    first.turns = 0;
    first.workers = 1;
    let budgets = Budgets::whole(alloc, &first, may_stop)?;
    find_alone(alloc, g, &first, budgets, gate)
}

/// What was found without a turn, where that is close enough.
fn unspent<G: Game>(
    alloc: Global,
    g: G,
    ask: &Ask,
    may_stop: bool,
    pure: Found,
) -> Result<Found, NoMemory>
    requires ask { IsAskInRange ask.now }
    requires pure { IsPureFound (G.model g) ask.now may_stop pure }
    requires near { found_gap pure ≤ℤ ask.now.gap }
    ensures { IfOk result (IsFoundGame (G.model g) ask.now may_stop) }
{
    let budgets = Budgets::whole(alloc, ask, may_stop)?;
    let mut found = pure;
    found.turns = Seq::from_vec(budgets.turns);
    Ok(found)
}

/// The plans of an induction that took turns, or the pure ones where these are better; and what is left to do if they are
/// too far apart.
fn proposed<G: Game>(
    alloc: Global,
    g: G,
    ask: &Ask,
    pure: Found,
    found: Result<Option<Induced>, NoMemory>,
    turns: Turns,
) -> Result<Step, NoMemory>
    requires ask { IsAskInRange ask.now }
    requires search { ask.now.search ≡ Induction }
    requires pure { IsPureFound (G.model g) ask.now turns.may_stop pure }
    requires far { ask.now.gap <ℤ found_gap pure }
    requires solved { IsSolvedFor (G.model g) ask.now turns.may_stop (found, turns) }
    ensures { IfOk result (IsStepOf (G.model g) ask.now turns.may_stop) }
{
    let Found {
        lower,
        upper,
        resolution,
        one,
        two,
        ..
    } = pure;
    let pure = BothPlans {
        one: Plan {
            sheet: one,
            bound: lower,
        },
        two: Plan {
            sheet: two,
            bound: upper,
        },
    };
    let plans = better_plans(g, ask, pure, found, &turns);
    let budgets = Budgets::begun(alloc, ask, turns)?;
    if is_enough(plans.one.bound, plans.two.bound, ask.gap, resolution) {
        Ok(Step::Found(found_of(alloc, plans, resolution, budgets)))
    } else {
        Ok(Step::Left(Left { plans, budgets }))
    }
}

/// The plans that an induction found with these turns, or those given where these are better.
fn better_plans<G: Game>(
    g: G,
    ask: &Ask,
    pure: BothPlans,
    found: Result<Option<Induced>, NoMemory>,
    turns: &Turns,
) -> BothPlans
    requires ask { IsAskInRange ask.now }
    requires pure { AreFoundPlans (G.model g) ask.now turns.now.may_stop (Unit {0}) pure }
    requires sheets { IfOk found (λ some. IfSome some (IsInduced (G.model g) ask.now.weight)) }
    ensures { AreFoundPlans (G.model g) ask.now turns.now.may_stop (turns.now.spent ≡ 0) result }
{
    match found {
        Ok(Some(found)) => BothPlans {
            one: chosen(g, Side::One, ask, turns, pure.one, found.one, found.lower),
            two: chosen(g, Side::Two, ask, turns, pure.two, found.two, found.upper),
        },
        Ok(None) => pure,
        Err(NoMemory) => pure,
    }
}

/// The better plan of a side, the one held or that of an induction, which needs a turn and no more rows than are asked.
fn chosen<G: Game>(
    g: G,
    side: Side,
    ask: &Ask,
    turns: &Turns,
    held: Plan,
    sheet: Sheet,
    bound: i64,
) -> Plan
    requires ask { IsAskInRange ask.now }
    requires held { IsFoundPlan (G.model g) ask.now turns.now.may_stop (Unit {0}) side held.sheet held.bound }
    requires sheet { IsSheetOf (G.model g) side ask.now.weight sheet }
    requires bound { bound ≡ root_bound (G.model g) sheet }
    ensures { IsFoundPlan (G.model g) ask.now turns.now.may_stop (turns.now.spent ≡ 0) side result.sheet result.bound }
{
    if turns.spent() == 0 {
        return held;
    }
    if sheet.rows.len() > ask.rows as usize {
        return held;
    }
    held.better(side, Plan { sheet, bound })
}

/// Whether bounds are no further apart than the gap.
fn is_near(lower: i64, upper: i64, gap: i64) -> bool
    requires lower { unsigned_abs lower ≤ MOST_BOUND }
    requires upper { unsigned_abs upper ≤ MOST_BOUND }
    ensures { MatchBool result ((upper -ℤ lower) ≤ℤ gap) (gap <ℤ (upper -ℤ lower)) }
{
    upper - lower <= gap
}

/// Whether bounds are no further apart than the gap asked, or than the resolution.
fn is_enough(lower: i64, upper: i64, asked: i64, resolution: i64) -> bool
    requires lower { unsigned_abs lower ≤ MOST_BOUND }
    requires upper { unsigned_abs upper ≤ MOST_BOUND }
    ensures { result ≡ true → ((upper -ℤ lower) ≤ℤ asked) ⊎ ((upper -ℤ lower) ≤ℤ resolution) }
{
    if is_near(lower, upper, asked) {
        return true;
    }
    is_near(lower, upper, resolution)
}

/// What was found by plans that are close enough.
fn found_of(alloc: Global, plans: BothPlans, resolution: i64, budgets: Budgets) -> Found
    ensures { result ≡ found_with plans resolution budgets.turns.items }
{
    let turns = Seq::from_vec(budgets.turns);
    let kept = Seq::from_vec(Vec::new(alloc));
    let BothPlans { one, two } = plans;
    Found {
        lower: one.bound,
        upper: two.bound,
        resolution,
        one: one.sheet,
        two: two.sheet,
        turns,
        kept,
        was_full: false,
    }
}
