//! The search of a game, with threads or by the caller alone.

ghost use Rattle.std.specs.Prelude.{◌≡◌, IfOk, MatchBool, All};
ghost use Rattle.sim_game.specs.Resolution.{IsFineWeight};
ghost use Rattle.fields.specs.Ranges.{IsAskInRange};
ghost use Rattle.fields.specs.declared.ask.SearchMethod.TheVariants.{Induction};
ghost use Rattle.lazy_workers.specs.Findings.{IsFoundFor, IsFoundGame};
ghost use Rattle.lazy_workers.specs.Keeping.{begun_whole};
ghost use Rattle.game_search.specs.Steps.{IsSolvedFor, IsUnfinished, IsWhole};

use crate::induced::induce;
use crate::plan::{BothPlans, Plan};
use crate::step::{Left, Step};
use fields::{Ask, SearchMethod};
use induction::{Induced, InductionStep, Terms, Watch, solve, solve_alone};
use lazy_workers::{Begun, Budgets, Found};
use matrix_game::Turns;
use oracle_search::{Gate, Signal};
use sim_game::{Game, NoMemory, Side};
use std::alloc::Global;
use std::thread::Threads;

/// What an induction tells and asks: a gate, which it asks where that may stop the search.
#[derive(Clone, Copy)]
struct GateWatch<'a, T> {
    gate: &'a T,
    may_stop: bool,
}

impl<T: Gate> Watch for GateWatch<'_, T> {
    fn goes_on(&self, next: InductionStep) -> bool {
        match next {
            InductionStep::List => self.gate.at_listed(),
            InductionStep::Value => self.gate.at_valued(),
            InductionStep::Plan => self.gate.at_planned(),
        }
        !self.may_stop || self.gate.signal() == Signal::GoOn
    }
}

/// What is asked of an induction.
fn terms_of(ask: &Ask) -> Terms
    ensures { result ≡ record { total = ask.now.weight; rows = ask.now.rows; workers = ask.now.workers } }
{
    Terms {
        total: ask.weight,
        rows: u64::from(ask.rows),
        workers: ask.workers,
    }
}

/// Searches the game by the method that is asked, double oracle by so many workers as asked: the caller does the work of a
/// single worker, and of one whose thread cannot be started. The gate can stop the search where `may_stop` says so.
pub fn find<R: Threads + Sync, G: Game + Send + Sync, T: Gate + Sync>(
    rt: &R,
    alloc: Global,
    g: G,
    ask: &Ask,
    gate: &T,
    may_stop: bool,
) -> Result<Found, NoMemory>
where
    G::State: Send + Sync,
    requires ask { IsAskInRange ask.now }
    requires fine { IsFineWeight (G.model g) ask.now.weight }
    ensures { IfOk result (IsFoundGame (G.model g) ask.now may_stop) }
{
    match ask.search {
        SearchMethod::Oracle => {
            let budgets = Budgets::whole(alloc, ask, may_stop)?;
            let found = lazy_workers::find(rt, alloc, g, ask, budgets, gate)?;
            Ok(whole(g, ask, may_stop, found))
        }
        SearchMethod::Induction => {
            let by_workers = |turns: Turns| -> (Result<Option<Induced>, NoMemory>, Turns)
                requires whole { IsWhole ask.now may_stop turns }
                requires ask { IsAskInRange ask.now }
                ensures { IsSolvedFor (G.model g) ask.entry.now may_stop result }
            {
                let mut turns = turns;
                let watch = GateWatch { gate, may_stop };
                let found = solve(rt, alloc, g, terms_of(ask), &watch, &mut turns);
                (found, turns)
            };
            match induce(alloc, g, ask, gate, may_stop, by_workers)? {
                Step::Found(found) => Ok(found),
                Step::Left(Left { plans, budgets }) => {
                    let begun = budgets.begun;
                    let found = lazy_workers::find(rt, alloc, g, ask, budgets, gate)?;
                    Ok(bettered(g, ask, plans, found, begun))
                }
            }
        }
    }
}

/// As `find`, but the caller does the work of each worker, one after the other. It starts no thread.
pub fn find_alone<G: Game, T: Gate>(
    alloc: Global,
    g: G,
    ask: &Ask,
    gate: &T,
    may_stop: bool,
) -> Result<Found, NoMemory>
    requires ask { IsAskInRange ask.now }
    requires fine { IsFineWeight (G.model g) ask.now.weight }
    ensures { IfOk result (IsFoundGame (G.model g) ask.now may_stop) }
{
    match ask.search {
        SearchMethod::Oracle => {
            let budgets = Budgets::whole(alloc, ask, may_stop)?;
            let found = lazy_workers::find_alone(alloc, g, ask, budgets, gate)?;
            Ok(whole(g, ask, may_stop, found))
        }
        SearchMethod::Induction => {
            let alone = |turns: Turns| -> (Result<Option<Induced>, NoMemory>, Turns)
                requires whole { IsWhole ask.now may_stop turns }
                requires ask { IsAskInRange ask.now }
                ensures { IsSolvedFor (G.model g) ask.entry.now may_stop result }
            {
                let mut turns = turns;
                let watch = GateWatch { gate, may_stop };
                let found = solve_alone(alloc, g, terms_of(ask), &watch, &mut turns);
                (found, turns)
            };
            match induce(alloc, g, ask, gate, may_stop, alone)? {
                Step::Found(found) => Ok(found),
                Step::Left(Left { plans, budgets }) => {
                    let begun = budgets.begun;
                    let found = lazy_workers::find_alone(alloc, g, ask, budgets, gate)?;
                    Ok(bettered(g, ask, plans, found, begun))
                }
            }
        }
    }
}

/// What was found by double oracle alone.
fn whole<G: Game>(g: G, ask: &Ask, may_stop: bool, found: Found) -> Found
    requires { IsFoundFor (G.model g) ask.now (begun_whole may_stop) found }
    ensures { IsFoundGame (G.model g) ask.now may_stop result }
{
    found
}

/// What was found by double oracle, with the plans of the induction where these are better.
fn bettered<G: Game>(g: G, ask: &Ask, plans: BothPlans, found: Found, begun: Begun) -> Found
    requires search { ask.now.search ≡ Induction }
    requires left { IsUnfinished (G.model g) ask.now begun.may_stop plans begun.spent }
    requires found { IsFoundFor (G.model g) ask.now begun found }
    ensures { IsFoundGame (G.model g) ask.now begun.may_stop result }
{
    if is_idle(found.turns.as_slice()) {
        return found;
    }
    let Found {
        lower,
        upper,
        resolution,
        one,
        two,
        turns,
        kept,
        was_full,
    } = found;
    let one = plans.one.better(
        Side::One,
        Plan {
            sheet: one,
            bound: lower,
        },
    );
    let two = plans.two.better(
        Side::Two,
        Plan {
            sheet: two,
            bound: upper,
        },
    );
    Found {
        lower: one.bound,
        upper: two.bound,
        resolution,
        one: one.sheet,
        two: two.sheet,
        turns,
        kept,
        was_full,
    }
}

/// Whether no worker has spent a turn.
fn is_idle(turns: &[Turns]) -> bool
    ensures { MatchBool result (All (λ t. t.spent ≡ 0) turns.now) (All (λ t. t.spent ≡ 0) turns.now → ⊥) }
{
    turns.iter().all(|own| own.spent() == 0)
}
