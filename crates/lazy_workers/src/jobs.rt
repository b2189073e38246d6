//! The work of each worker, from its pass to the lead's.

ghost use Rattle.plan_book.specs.Entries.{IsPureEntry};
ghost use Rattle.std.specs.Prelude.{◌≡◌, ◌+◌, ◌<◌, ◌≤◌, true, [], length, All, IfOk};
ghost use Rattle.shared_board.specs.Values.{IsPassOf};
ghost use Rattle.shared_board.specs.Passes.{seen_by};
ghost use Rattle.lazy_workers.specs.Solvers.{solver_kind};
ghost use Rattle.lazy_workers.specs.Keeping.{AreBudgets};
ghost use Rattle.lazy_workers.specs.Workers.{IsBoardFor, IsLead, IsNewLead, IsJob, IsJobDone, IsNoLooser, HasView};

use crate::budgets::{Begun, Budgets};
use fields::{Ask, StageMethod};
use matrix_game::{SolverKind, Turns};
use oracle_search::{Gate, MemoryLimits, SearchEnd, Setup, Worker, search};
use serial_ab::Visits;
use shared_board::{BarePass, Board, Desk, Pass};
use sim_game::{Game, NoMemory};
use std::alloc::Global;

/// What a worker begins with.
#[derive(Drop)]
pub(crate) struct Job<G> {
    pub pass: BarePass<G>,
    pub worker: u32,
    pub turns: Turns,
}

/// What a worker ends with.
#[derive(Drop)]
pub(crate) struct Done<G> {
    pub pass: BarePass<G>,
    pub turns: Turns,
    pub end: SearchEnd,
}

/// A pass and the turns of each worker. The last worker is the first, so that the first is at the end.
pub(crate) fn split_all<G: Game>(
    alloc: Global,
    board: &Board<G>,
    lead: &mut Pass<G>,
    ask: &Ask,
    budgets: Budgets,
) -> Result<Vec<Job<G>>, NoMemory>
    requires ours { IsPassOf board.now lead.old }
    requires lead { IsLead lead.old.view 1 1 }
    requires few { ask.now.workers ≤ 16 }
    requires turns { AreBudgets ask.now budgets.begun budgets.turns.items }
    ensures ours { IfOk result (λ _. IsPassOf board.now lead.new) }
    ensures lead { IfOk result (λ _. IsLead lead.new.view (1 + ask.now.workers) 1) }
    ensures entries { IfOk result (λ _. lead.new.entries ≡ lead.old.entries) }
    ensures count { IfOk result (λ jobs. length jobs.items ≡ ask.now.workers) }
    ensures jobs { IfOk result (λ jobs. All (IsJob G.model board.now ask.now budgets.begun) jobs.items) }
{
    let mut turns = budgets.turns;
    let mut jobs = Vec::with_capacity(alloc, ask.workers as usize)?;
    for behind in 0..ask.workers {
        let Ok(pass) = board.split(lead) else {
            unreachable!()
        };
        let Some(own) = turns.pop() else {
            unreachable!()
        };
        jobs.push(Job {
            pass: pass.into_bare(),
            worker: ask.workers - 1 - behind,
            turns: own,
        })?;
    }
    Ok(jobs)
}

/// What each of so many workers may remember, a quarter where there are more than four, and how it solves matrix games.
fn limits_for(workers: u32, stages: StageMethod) -> MemoryLimits
    ensures few { workers ≤ 4 → result ≡ record { searches = 262144; stages = solver_kind stages 65536 } }
    ensures many { 4 < workers → result ≡ record { searches = 65536; stages = solver_kind stages 16384 } }
{
    let parts = if workers <= 4 { 1 } else { 4 };
    MemoryLimits {
        searches: 262_144 / parts,
        stages: match stages {
            StageMethod::Regret => SolverKind::Regret {
                kept: 65_536 / parts,
            },
            StageMethod::Linear => SolverKind::Linear,
        },
    }
}

/// Searches the root, with turns, visits, finished states and memories of the worker's own. What the
/// budgets began with stands in the contract alone.
pub(crate) fn work<G: Game, T: Gate>(
    alloc: Global,
    g: G,
    board: &Board<G>,
    ask: &Ask,
    gate: &T,
    job: Job<G>,
    begun: Begun,
) -> Result<Done<G>, NoMemory>
    requires board { IsBoardFor G.model g board.now ask.now }
    requires job { IsJob G.model board.now ask.now begun job }
    ensures { IfOk result (IsJobDone G.model g board.now ask.now begun) }
{
    let Job {
        pass,
        worker,
        turns,
    } = job;
    let mut desk = Desk::new(board, Pass::from_bare(pass));
    let setup = Setup {
        alloc,
        game: g,
        worker,
        workers: ask.workers,
        gate,
    };
    let visits = Visits::new(ask.visits);
    let mut state = Worker::new(alloc, turns, visits, limits_for(ask.workers, ask.stages));
    let end = search(&setup, g.root(), ask.gap, &mut state, &mut desk)?;
    Ok(Done {
        pass: desk.into_pass().into_bare(),
        turns: state.into_turns(),
        end,
    })
}

/// Joins the passes to the lead's, and adds the turns of each worker. The result is whether some worker's search ended
/// at a full board.
pub(crate) fn join_all<G: Game>(
    g: G,
    board: &Board<G>,
    ask: &Ask,
    lead: &mut Pass<G>,
    mut found: Vec<Result<Done<G>, NoMemory>>,
    turns: &mut Vec<Turns>,
    begun: Begun,
) -> Result<bool, NoMemory>
    requires board { IsBoardFor G.model g board.now ask.now }
    requires lead { IsNewLead board.now lead.old }
    requires found { All (λ r. IfOk r (IsJobDone G.model g board.now ask.now begun)) found.items }
    requires none { turns.old.items ≡ [] }
    ensures ours { IfOk result (λ _. IsPassOf board.now lead.new) }
    ensures lead { IfOk result (λ _. IsLead lead.new.view lead.old.view.issued
        (length lead.old.view.tickets + length found.items)) }
    ensures count { IfOk result (λ _. length turns.new.items ≡ length found.items) }
    ensures joined { IfOk result (λ was_full.
        HasView (G.model g) ask.now begun lead.new.view (was_full ≡ true) turns.new.items) }
    ensures alone { IfOk result (λ _. All (λ t. t.spent ≡ 0) turns.new.items
        → All (IsPureEntry (G.model g) ask.now.weight) lead.new.entries) }
    // Nothing that a worker has seen at the root is forgotten.
    ensures tight { IfOk result (λ _. All (λ r. IfOk r (IsNoLooser G.model g
        (λ side. seen_by (G.model g) lead.new.view side ((G.model g).key (G.model g).root)))) found.items) }
{
    let mut was_full = false;
    while let Some(done) = found.pop() {
        let Ok(done) = done else {
            return Err(NoMemory);
        };
        let Done {
            pass,
            turns: own,
            end,
        } = done;
        let Ok(()) = board.join(lead, Pass::from_bare(pass)) else {
            return Err(NoMemory);
        };
        turns.push(own)?;
        if end.is_full() {
            was_full = true;
        }
    }
    Ok(was_full)
}
