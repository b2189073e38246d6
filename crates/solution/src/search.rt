//! The search of a position's game, and its report.

ghost use Rattle.std.specs.Prelude.{false, IfOk};
ghost use Rattle.sim_game.specs.Resolution.{IsFineWeight};
ghost use Rattle.fields.specs.Ranges.{IsAskInRange, IsPositionInRange};
ghost use Rattle.lazy_workers.specs.Findings.{IsFoundFor};
ghost use Rattle.lazy_workers.specs.Keeping.{begun_whole};
ghost use Rattle.solution.specs.Solutions.{HasWidthOf, IsSolvedGame};

use crate::report::{Solved, report_of};
use certificate::{Ask, PositionText};
use lazy_workers::{Budgets, Found, find, find_alone};
use oracle_search::Gate;
use sim_game::{Game, NoMemory};
use std::alloc::Global;
use std::thread::Threads;

/// Searches the game by double oracle and so many workers as asked, and reports what was found. The caller does the work of a single
/// worker, and of one whose thread cannot be started.
pub fn solve<R: Threads + Sync, G: Game + Send + Sync, T: Gate + Sync>(
    rt: &R,
    alloc: Global,
    g: G,
    position: PositionText,
    ask: &Ask,
    gate: &T,
) -> Result<Solved, NoMemory>
where
    G::State: Send + Sync,
    requires ask { IsAskInRange ask.now }
    requires fine { IsFineWeight (G.model g) ask.now.weight }
    requires position { IsPositionInRange position }
    requires width { HasWidthOf (G.model g) position }
    ensures { IfOk result (IsSolvedGame (G.model g) position ask.now) }
{
    let budgets = Budgets::whole(alloc, ask, false)?;
    let found = find(rt, alloc, g, ask, budgets, gate)?;
    report_for(alloc, &g, found, position, ask)
}

/// As `solve`, but the caller does the work of each worker, one after the other. It starts no thread.
pub fn solve_alone<G: Game, T: Gate>(
    alloc: Global,
    g: G,
    position: PositionText,
    ask: &Ask,
    gate: &T,
) -> Result<Solved, NoMemory>
    requires ask { IsAskInRange ask.now }
    requires fine { IsFineWeight (G.model g) ask.now.weight }
    requires position { IsPositionInRange position }
    requires width { HasWidthOf (G.model g) position }
    ensures { IfOk result (IsSolvedGame (G.model g) position ask.now) }
{
    let budgets = Budgets::whole(alloc, ask, false)?;
    let found = find_alone(alloc, g, ask, budgets, gate)?;
    report_for(alloc, &g, found, position, ask)
}

/// The report of what was found of the game.
fn report_for<G: Game>(
    alloc: Global,
    g: &G,
    found: Found,
    position: PositionText,
    ask: &Ask,
) -> Result<Solved, NoMemory>
    requires ask { IsAskInRange ask.now }
    requires position { IsPositionInRange position }
    requires width { HasWidthOf (G.model g.now) position }
    requires found { IsFoundFor (G.model g.now) ask.now (begun_whole false) found }
    ensures { IfOk result (IsSolvedGame (G.model g.now) position ask.now) }
{
    report_of(alloc, found, position, ask)
}
