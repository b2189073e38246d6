//! The search of a whole game.

ghost use Rattle.std.specs.Prelude.{◌≡◌, ◌+◌, ◌≤◌, List, [], length, All, IfOk};
ghost use Rattle.sim_game.specs.Resolution.{IsFineWeight};
ghost use Rattle.matrix_game.specs.Budget.{Budget};
ghost use Rattle.fields.specs.Ranges.{IsAskInRange};
ghost use Rattle.plan_book.specs.Books.{book_bound};
ghost use Rattle.shared_board.specs.Values.{IsPassOf};
ghost use Rattle.lazy_workers.specs.declared.budgets.Begun.{Begun};
ghost use Rattle.lazy_workers.specs.Findings.{IsFoundFor};
ghost use Rattle.lazy_workers.specs.Keeping.{AreBudgets};
ghost use Rattle.lazy_workers.specs.Searched.{AnswersToo, IsSearched};
ghost use Rattle.lazy_workers.specs.Workers.{IsBoardFor, IsLead, IsJob, IsJobDone, IsNoLooser};

use crate::budgets::{Begun, Budgets};
use crate::jobs::{Done, Job, join_all, split_all, work};
use crate::summary::{Found, Gathered, found_in};
use fields::Ask;
use oracle_search::Gate;
use plan_book::Book;
use seq::Seq;
use shared_board::{Board, CloseError, Pass};
use sim_game::{Game, NoMemory};
use std::alloc::Global;
use std::thread;
use std::thread::Threads;

/// Searches the game by so many workers as asked, each on one board that all share and with the turns that it has left, and
/// gives the best plans found. The caller does the work of a single worker, and of one whose thread cannot be started.
pub fn find<R: Threads + Sync, G: Game + Send + Sync, T: Gate + Sync>(
    rt: &R,
    alloc: Global,
    g: G,
    ask: &Ask,
    budgets: Budgets,
    gate: &T,
) -> Result<Found, NoMemory>
where
    G::State: Send + Sync,
    requires ask { IsAskInRange ask.now }
    requires fine { IsFineWeight (G.model g) ask.now.weight }
    requires turns { AreBudgets ask.now budgets.begun budgets.turns.items }
    ensures { IfOk result (IsFoundFor (G.model g) ask.now budgets.begun) }
{
    let begun = budgets.begun;
    let gathered = if g.rank(g.root()) == 0 {
        nothing(alloc, g, ask, budgets)?
    } else if ask.workers == 1 {
        search_alone(alloc, g, ask, budgets, gate)?
    } else {
        search_all(rt, alloc, g, ask, budgets, gate)?
    };
    found_in(g, ask, gathered, begun)
}

/// What is found where the root is an end: it needs no search.
fn nothing<G: Game>(alloc: Global, g: G, ask: &Ask, budgets: Budgets) -> Result<Gathered, NoMemory>
    requires ask { IsAskInRange ask.now }
    requires turns { AreBudgets ask.now budgets.begun budgets.turns.items }
    requires end { (G.model g).rank (G.model g).root ≡ 0 }
    ensures total { IfOk result (λ found. found.book.total ≡ ask.now.weight) }
    ensures searched { IfOk result (λ found.
        IsSearched (G.model g) ask.now budgets.begun found.book.entries found.kept found.turns found.was_full) }
{
    Ok(Gathered {
        book: Book::new(alloc, ask.weight),
        kept: Seq::from_vec(Vec::new(alloc)),
        turns: Seq::from_vec(budgets.turns),
        was_full: false,
    })
}

/// What all workers find on one board.
fn search_all<R: Threads + Sync, G: Game + Send + Sync, T: Gate + Sync>(
    rt: &R,
    alloc: Global,
    g: G,
    ask: &Ask,
    budgets: Budgets,
    gate: &T,
) -> Result<Gathered, NoMemory>
where
    G::State: Send + Sync,
    requires ask { IsAskInRange ask.now }
    requires fine { IsFineWeight (G.model g) ask.now.weight }
    requires goes_on { 1 ≤ (G.model g).rank (G.model g).root }
    requires turns { AreBudgets ask.now budgets.begun budgets.turns.items }
    ensures total { IfOk result (λ found. found.book.total ≡ ask.now.weight) }
    ensures searched { IfOk result (λ found.
        IsSearched (G.model g) ask.now budgets.begun found.book.entries found.kept found.turns found.was_full) }
{
    let begun = budgets.begun;
    let enough = with_rows_for(g, ask);
    let (board, mut lead) = Board::create(alloc, g, enough.rows, enough.weight)?;
    let jobs = split_all(alloc, &board, &mut lead, &enough, budgets)?;
    let shared = &board;
    let done = thread::map_vec(
        rt,
        jobs,
        &|job: Job<G>| -> Result<Done<G>, NoMemory>
            requires { IsBoardFor G.model g shared.now enough × IsJob G.model shared.now enough begun job }
            ensures { IfOk result (IsJobDone G.model g shared.entry.now enough begun) }
        { work(alloc, g, shared, &enough, gate, job, begun) },
    )?;
    gather(alloc, g, board, &enough, lead, done, begun)
}

/// What is asked, of a board of no more rows than the game has states and one or two that stay free, so that it is never
/// full and nothing else changes. The number is odd: keys are packed fields, and an even number would bring those that
/// differ in high fields alone to few rows.
fn with_rows_for<G: Game>(g: G, ask: &Ask) -> Ask
    requires { IsAskInRange ask.now }
    ensures same { AnswersToo (G.model g) result ask.now }
    ensures weight { result.weight ≡ ask.now.weight }
    ensures turns { (begun : Begun) (turns : List Budget) → AreBudgets ask.now begun turns
        → AreBudgets result begun turns }
    ensures in_range { IsAskInRange result }
{
    let most = g.most_states();
    if most >= ask.rows as u64 - 1 {
        return *ask;
    }
    let mut enough = *ask;
    enough.rows = most as u32 + 1 + most as u32 % 2;
    enough
}

/// As `find`, but the caller does the work of each worker, one after the other. It starts no thread.
pub fn find_alone<G: Game, T: Gate>(
    alloc: Global,
    g: G,
    ask: &Ask,
    budgets: Budgets,
    gate: &T,
) -> Result<Found, NoMemory>
    requires ask { IsAskInRange ask.now }
    requires fine { IsFineWeight (G.model g) ask.now.weight }
    requires turns { AreBudgets ask.now budgets.begun budgets.turns.items }
    ensures { IfOk result (IsFoundFor (G.model g) ask.now budgets.begun) }
{
    let begun = budgets.begun;
    let gathered = if g.rank(g.root()) == 0 {
        nothing(alloc, g, ask, budgets)?
    } else {
        search_alone(alloc, g, ask, budgets, gate)?
    };
    found_in(g, ask, gathered, begun)
}

/// What all workers find on one board, one after the other.
fn search_alone<G: Game, T: Gate>(
    alloc: Global,
    g: G,
    ask: &Ask,
    budgets: Budgets,
    gate: &T,
) -> Result<Gathered, NoMemory>
    requires ask { IsAskInRange ask.now }
    requires fine { IsFineWeight (G.model g) ask.now.weight }
    requires goes_on { 1 ≤ (G.model g).rank (G.model g).root }
    requires turns { AreBudgets ask.now budgets.begun budgets.turns.items }
    ensures total { IfOk result (λ found. found.book.total ≡ ask.now.weight) }
    ensures searched { IfOk result (λ found.
        IsSearched (G.model g) ask.now budgets.begun found.book.entries found.kept found.turns found.was_full) }
{
    let begun = budgets.begun;
    let enough = with_rows_for(g, ask);
    let (board, mut lead) = Board::create(alloc, g, enough.rows, enough.weight)?;
    let jobs = split_all(alloc, &board, &mut lead, &enough, budgets)?;
    let done = work_all(alloc, g, &board, &enough, gate, jobs, begun)?;
    gather(alloc, g, board, &enough, lead, done, begun)
}

/// Does the work of each job, that of the last first, and stops at want of memory.
fn work_all<G: Game, T: Gate>(
    alloc: Global,
    g: G,
    board: &Board<G>,
    ask: &Ask,
    gate: &T,
    mut jobs: Vec<Job<G>>,
    begun: Begun,
) -> Result<Vec<Result<Done<G>, NoMemory>>, NoMemory>
    requires board { IsBoardFor G.model g board.now ask.now }
    requires jobs { All (IsJob G.model board.now ask.now begun) jobs.items }
    ensures count { IfOk result (λ found. length found.items ≡ length jobs.items) }
    ensures done { IfOk result (λ found. All (λ r. IfOk r (IsJobDone G.model g board.now ask.now begun)) found.items) }
{
    match jobs.pop() {
        None => Ok(Vec::new(alloc)),
        Some(job) => {
            let done = work(alloc, g, board, ask, gate, job, begun)?;
            let mut all = work_all(alloc, g, board, ask, gate, jobs, begun)?;
            all.push(Ok(done))?;
            Ok(all)
        }
    }
}

/// What the workers have found together: their passes are joined to the lead's, and the board is closed.
fn gather<G: Game>(
    alloc: Global,
    g: G,
    board: Board<G>,
    ask: &Ask,
    mut lead: Pass<G>,
    found: Vec<Result<Done<G>, NoMemory>>,
    begun: Begun,
) -> Result<Gathered, NoMemory>
    requires board { IsBoardFor G.model g board ask.now }
    requires ours { IsPassOf board lead }
    requires lead { IsLead lead.view (1 + ask.now.workers) 1 }
    requires found { All (λ r. IfOk r (IsJobDone G.model g board ask.now begun)) found.items }
    requires count { length found.items ≡ ask.now.workers }
    requires entries { lead.entries ≡ [] }
    ensures total { IfOk result (λ found. found.book.total ≡ ask.now.weight) }
    ensures searched { IfOk result (λ found.
        IsSearched (G.model g) ask.now begun found.book.entries found.kept found.turns found.was_full) }
    // Nothing that a worker has seen at the root is forgotten.
    ensures tight { IfOk result (λ all. All (λ r. IfOk r (IsNoLooser G.model g
        (λ side. book_bound (G.model g) all.book.entries side (G.model g).root))) found.items) }
{
    let mut turns = Vec::with_capacity(alloc, ask.workers as usize)?;
    let was_full = join_all(g, &board, ask, &mut lead, found, &mut turns, begun)?;
    match board.close(lead) {
        Ok(closed) => Ok(Gathered {
            book: closed.book,
            kept: closed.kept,
            turns: Seq::from_vec(turns),
            was_full,
        }),
        Err(CloseError::NoMemory { .. }) => Err(NoMemory),
        Err(CloseError::MissingPass { .. }) => unreachable!(),
    }
}
