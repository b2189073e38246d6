//! One worker of a search.

ghost use Rattle.std.specs.Prelude.{◌≡◌, ◌≤◌, [], min, false, IsTrue, MatchBool, IfOk, OnOk, OnErr};
ghost use Rattle.std.specs.List.{Contains};
ghost use Rattle.sim_game.specs.Model.{Reachable};
ghost use Rattle.matrix_game.specs.Budget.{left_of};
ghost use Rattle.matrix_game.specs.Solvers.{solver_of};
ghost use Rattle.restricted_game.specs.Children.{HasNoRows};
ghost use Rattle.oracle_search.specs.Workers.{is_linear, with_swept, with_key, with_full};
ghost use Rattle.oracle_search.specs.Workers.{without_full, without_searches, HasAsked};

use crate::finished::FinishedStates;
use crate::gate::{Gate, Signal};
use indexmap::IndexSet;
use matrix_game::{SolverKind, StageSolver, Turns};
use restricted_game::{ChildRows, StageBuffers};
use serial_ab::{Interrupt, SerialWorker, TranspositionTable, Visits};
use sim_game::{Game, NoMemory};
use std::alloc::Global;
use std::marker::Model;
use std::mem;

/// What all searches of a worker have in common.
#[derive(Clone, Copy)]
pub struct Setup<'a, G: Game, T: Gate> {
    pub alloc: Global,
    pub game: G,
    /// The worker's number, which says with which moves it begins.
    pub worker: u32,
    /// How many workers search on the board.
    pub workers: u32,
    pub gate: &'a T,
}

impl<G: Game, T: Gate> Interrupt for Setup<'_, G, T> {
    fn is_raised(&self) -> bool {
        self.gate.signal() == Signal::Stop
    }
}

/// How much the memory of a worker's serial searches may hold, some 80 bytes each, and how it solves stages.
#[derive(Clone, Copy, Debug)]
pub struct MemoryLimits {
    pub searches: u32,
    pub stages: SolverKind,
}

/// What a worker has left, what it has done, and its memories, which change no answer.
#[derive(Drop)]
pub struct Worker {
    pub(crate) turns: Turns,
    pub(crate) serial: SerialWorker,
    pub(crate) stages: StageSolver,
    // What sweeps read stages into.
    buffers: StageBuffers,
    finished: FinishedStates,
    // The keys of the states that the sweep under way has finished.
    swept: FinishedStates,
    // Those of the states at which sweeps of this search made serial searches, and how many of them these closed.
    bounded: IndexSet<u64>,
    closed: u64,
    // How many searches the table may hold.
    searches: usize,
}

impl Model for Worker {
    ghost use Rattle.std.specs.Prelude.{◌≡◌, min};
    ghost use Rattle.oracle_search.specs.Workers.{WorkerView, is_linear};

    ghost Value = { WorkerView };

    ghost view = { λ w. record {
      turns = w.turns;
      visits = w.serial.visits;
      finished = w.finished;
      searches = w.serial.table;
      linear = is_linear w.stages;
      swept = w.swept.keys;
    } };

    ghost invariant = { λ w. w.serial.table.limit ≡ min w.searches 262144 };
}

impl Worker {
    /// A worker that has finished no state, with empty memories. It takes no memory.
    pub fn new(alloc: Global, turns: Turns, visits: Visits, limits: MemoryLimits) -> Worker
        ensures { result ≡ record {
          turns = turns;
          visits = visits;
          finished = record { keys = []; was_full = false };
          searches = record { limit = min limits.searches 262144; stored = [] };
          linear = is_linear (solver_of limits.stages);
          swept = [];
        } }
    {
        let searches = limits.searches as usize;
        let table = TranspositionTable::new(alloc, searches);
        Worker {
            turns,
            serial: SerialWorker::new(alloc, visits, table),
            stages: StageSolver::new(limits.stages),
            buffers: StageBuffers::new(alloc),
            finished: FinishedStates::new(alloc),
            swept: FinishedStates::new(alloc),
            bounded: IndexSet::new(alloc),
            closed: 0,
            searches,
        }
    }

    pub fn turns(&self) -> &Turns
        ensures { result.now ≡ self.now.turns }
    {
        &self.turns
    }

    pub fn visits(&self) -> &Visits
        ensures { result.now ≡ self.now.visits }
    {
        &self.serial.visits
    }

    /// The states that it has finished; none with linear stages, whose sweeps keep their own.
    pub fn finished(&self) -> &FinishedStates
        ensures { result.now ≡ self.now.finished }
    {
        &self.finished
    }

    /// Whether a claim of its last search found the board full.
    pub fn was_full(&self) -> bool
        ensures { result ≡ self.now.finished.was_full }
    {
        self.finished.was_full()
    }

    pub fn into_turns(self) -> Turns
        ensures { result ≡ self.turns }
    {
        self.turns
    }

    /// Tells the gate of a turn to come, and asks it whether to go on. Where it says no, the turns that are left are given
    /// up, if they may be.
    pub(crate) fn ask<G: Game, T: Gate>(&mut self, setup: &Setup<'_, G, T>)
        ensures { HasAsked self.old self.new }
    {
        setup.gate.at_turn(setup.worker, self.turns.spent());
        match setup.gate.signal() {
            Signal::GoOn => {}
            Signal::Stop => self.turns.stop(),
        }
    }

    pub(crate) fn has(&self, key: u64) -> bool
        ensures { MatchBool result (Contains self.now.finished.keys key) (Contains self.now.finished.keys key → ⊥) }
    {
        self.finished.has(key)
    }

    /// Adds the key of a finished state that is not there yet.
    pub(crate) fn add(&mut self, key: u64) -> Result<(), NoMemory>
        requires { Contains self.old.finished.keys key → ⊥ }
        ensures ok { OnOk result (self.new ≡ with_key self.old key) }
        ensures err { OnErr result (self.new ≡ self.old) }
    {
        self.finished.add(key)
    }

    /// Whether it solves stages by linear programs.
    pub(crate) fn is_linear(&self) -> bool
        ensures { result ≡ self.now.linear }
    {
        matches!(self.stages, StageSolver::Linear(_))
    }

    /// Whether serial searches may be worth it at a state of a sweep: it has had none, and of those made so far enough
    /// have closed their states.
    pub(crate) fn wants_bounds(&self, rank: u32, key: u64) -> bool {
        rank >= 2
            && self.bounded.len() as u64 <= self.closed.saturating_mul(2).saturating_add(8)
            && !self.bounded.contains(&key)
    }

    /// Keeps in mind that serial searches of a state were made, and whether they closed it.
    pub(crate) fn note_bounds(&mut self, key: u64, is_closed: bool) -> Result<(), NoMemory>
        ensures { self.new ≡ self.old }
    {
        if is_closed {
            self.closed = self.closed.saturating_add(1);
        }
        match self.bounded.insert_full(key) {
            Ok(_) => Ok(()),
            Err(_) => Err(NoMemory),
        }
    }

    /// Forgets all serial searches, and gives their memory back.
    pub(crate) fn forget_searches(&mut self, alloc: Global)
        ensures { self.new ≡ without_searches self.old }
    {
        self.serial.table = TranspositionTable::new(alloc, self.searches);
    }

    /// The rows of the states after pairs of moves at a state, of which none is known, in a list that it keeps.
    pub(crate) fn child_rows<G: Game>(&mut self, g: G, s: G::State) -> Result<ChildRows, NoMemory>
        requires reachable { Reachable (G.model g) s }
        ensures rows { IfOk result (HasNoRows (G.model g) s) }
        ensures same { self.new ≡ self.old }
    {
        ChildRows::new_in(g, s, &mut self.buffers)
    }

    /// Takes out what it reads stages into, to be put back.
    pub(crate) fn take_buffers(&mut self, alloc: Global) -> StageBuffers
        ensures { self.new ≡ self.old }
    {
        mem::replace(&mut self.buffers, StageBuffers::new(alloc))
    }

    pub(crate) fn put_back(&mut self, buffers: StageBuffers)
        ensures { self.new ≡ self.old }
    {
        self.buffers = buffers;
    }

    /// Begins a sweep: it has finished no state.
    pub(crate) fn begin_sweep(&mut self)
        ensures { self.new ≡ record self.old { swept = [] } }
    {
        self.swept.clear();
    }

    pub(crate) fn has_swept(&self, key: u64) -> bool
        ensures { MatchBool result (Contains self.now.swept key) (Contains self.now.swept key → ⊥) }
    {
        self.swept.has(key)
    }

    /// Adds the key of a state that the sweep has finished and that is not there yet.
    pub(crate) fn add_swept(&mut self, key: u64) -> Result<(), NoMemory>
        requires { Contains self.old.swept key → ⊥ }
        ensures ok { OnOk result (self.new ≡ with_swept self.old key) }
        ensures err { OnErr result (self.new ≡ self.old) }
    {
        self.swept.add(key)
    }

    /// Keeps in mind that a claim found the board full.
    pub(crate) fn note_full(&mut self)
        ensures { self.new ≡ with_full self.old }
    {
        self.finished.set_full(true);
    }

    /// Begins a search: the full boards of earlier searches are forgotten.
    pub(crate) fn begin(&mut self)
        ensures { self.new ≡ without_full self.old }
    {
        self.bounded.clear();
        self.closed = 0;
        self.finished.set_full(false);
    }

    /// Whether a state may be left to another worker: it is below the state that was asked for, another worker has
    /// searched it, and no search of this worker has stopped half-way, since a turn is left and no board was full.
    /// With linear stages the sweeps say what is left, at far narrower gaps.
    pub(crate) fn may_leave(&self, is_below: bool, is_ahead: bool) -> bool
        ensures { IsTrue result → (IsTrue is_below) × (IsTrue is_ahead)
            × (1 ≤ left_of self.now.turns) × (self.now.finished.was_full ≡ false) }
    {
        is_below
            && is_ahead
            && matches!(self.stages, StageSolver::Regret(_))
            && self.turns.left() > 0
            && !self.finished.was_full()
    }
}
