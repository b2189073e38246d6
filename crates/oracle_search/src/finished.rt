//! The states that a worker has finished.

ghost use Rattle.std.specs.Prelude.{◌≡◌, ◌++◌, ◌∷◌, [], false, length, slice_get, MatchBool, OnOk, OnErr};
ghost use Rattle.std.specs.List.{Contains};

use indexmap::IndexSet;
use sim_game::NoMemory;
use std::alloc::Global;
use std::marker::Model;

/// The keys of the states that a worker has finished, each once, in order of addition.
#[derive(Drop)]
pub struct FinishedStates {
    keys: IndexSet<u64>,
    // Whether some claim of the search found the board full.
    was_full: bool,
}

impl Model for FinishedStates {
    ghost use Rattle.oracle_search.specs.Finished.{FinishedView};

    ghost Value = { FinishedView };

    ghost view = { λ s. record { keys = s.keys.keys; was_full = s.was_full } };
}

impl FinishedStates {
    pub(crate) fn new(alloc: Global) -> FinishedStates
        ensures { result ≡ record { keys = []; was_full = false } }
    {
        FinishedStates {
            keys: IndexSet::new(alloc),
            was_full: false,
        }
    }

    pub fn len(&self) -> u64
        ensures { result ≡ length self.now.keys }
    {
        self.keys.len() as u64
    }

    /// The key at a place, counted from 0.
    pub fn key_at(&self, place: u64) -> Option<u64>
        ensures { result ≡ slice_get self.now.keys place }
    {
        self.keys.get_index(place as usize).copied()
    }

    pub(crate) fn has(&self, key: u64) -> bool
        ensures { MatchBool result (Contains self.now.keys key) (Contains self.now.keys key → ⊥) }
    {
        self.keys.contains(&key)
    }

    /// Adds a key that is not there yet.
    pub(crate) fn add(&mut self, key: u64) -> Result<(), NoMemory>
        requires { Contains self.old.keys key → ⊥ }
        ensures ok { OnOk result (self.new ≡ record self.old { keys = self.old.keys ++ key ∷ [] }) }
        ensures err { OnErr result (self.new ≡ self.old) }
    {
        match self.keys.insert_full(key) {
            Ok(_) => Ok(()),
            Err(_) => Err(NoMemory),
        }
    }

    /// Forgets all keys.
    pub(crate) fn clear(&mut self)
        ensures { self.new ≡ record self.old { keys = [] } }
    {
        self.keys.clear();
    }

    pub(crate) fn was_full(&self) -> bool
        ensures { result ≡ self.now.was_full }
    {
        self.was_full
    }

    pub(crate) fn set_full(&mut self, was_full: bool)
        ensures { self.new ≡ record self.old { was_full = was_full } }
    {
        self.was_full = was_full;
    }
}
