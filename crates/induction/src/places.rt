//! Words by the places of states: the first places have theirs in a list, the others in a hash table.

ghost use Rattle.std.specs.Prelude.{◌≡◌, ℕ, ◌+◌, ◌≤◌, ◌++◌, ◌∷◌, [], nat_eq, cond, length, is_some, Some, false, IfOk, OnOk};
ghost use Rattle.induction.specs.Keys.{key_place};
ghost use Rattle.induction.specs.Places.{PlaceWords, place_word};

use crate::keys::KeyTable;
use sim_game::NoMemory;
use std::alloc::{AllocError, Global};
use std::marker::Model;

// No longer list than this.
const MOST_LISTED: u64 = 1 << 26;

// A list has at most so many places for each state that may be met.
const PLACES_EACH: u64 = 16;

/// A word for each place, 0 where none was put.
#[derive(Drop)]
pub(crate) struct PlaceTable {
    listed: Vec<u64>,
    // The places behind the list, and their words.
    keys: KeyTable,
    words: Vec<u64>,
}

impl Model for PlaceTable {
    ghost use Rattle.induction.specs.Places.{PlaceWords, AreWords};

    ghost Value = { PlaceWords };

    ghost view = { λ t. record { listed = t.listed.items; keys = t.keys; words = t.words.items } };

    ghost invariant = { λ t. AreWords t.keys t.words.items };
}

/// How many of so many places a list is made for, where at most so many states are met: all of them or none.
fn places_listed(places: u64, states: u64) -> usize {
    if places <= MOST_LISTED && places / PLACES_EACH <= states {
        places as usize
    } else {
        0
    }
}

/// Adds a key that is not there, and its word.
fn add_word(
    alloc: Global,
    keys: &mut KeyTable,
    words: &mut Vec<u64>,
    key: u64,
    word: u64,
) -> Result<(), NoMemory>
    requires { is_some (key_place keys.old key) ≡ false }
    ensures more { OnOk result (length keys.new ≡ length keys.old + 1) }
    ensures places { OnOk result ((other : ℕ) → key_place keys.new other
        ≡ cond (nat_eq key other) (Some (length keys.old)) (key_place keys.old other)) }
    ensures words { OnOk result (words.new.items ≡ words.old.items ++ word ∷ []) }
{
    keys.add(alloc, key)?;
    words.push(word)?;
    Ok(())
}

impl PlaceTable {
    /// No words for so many places, of which at most so many will have one.
    pub(crate) fn new(alloc: Global, places: u64, states: u64) -> Result<PlaceTable, AllocError>
        ensures { IfOk result (λ table. (place : ℕ) → place_word table place ≡ 0) }
    {
        Ok(PlaceTable {
            listed: vec![in alloc; 0u64; places_listed(places, states)]?,
            keys: KeyTable::new(alloc),
            words: Vec::new(alloc),
        })
    }

    /// The word of a place.
    #[inline]
    pub(crate) fn word(&self, place: u64) -> u64
        ensures { result ≡ place_word self.now place }
    {
        if place < self.listed.len() as u64 {
            self.listed[place as usize]
        } else {
            self.other_word(place)
        }
    }

    // The word of a place behind the list.
    fn other_word(&self, place: u64) -> u64
        requires { length self.now.listed ≤ place }
        ensures { result ≡ place_word self.now place }
    {
        match self.keys.place(place) {
            Some(number) if number < self.words.len() => self.words[number],
            _ => 0,
        }
    }

    /// Puts a word at a place that has none.
    pub(crate) fn put(&mut self, alloc: Global, place: u64, word: u64) -> Result<(), NoMemory>
        requires new { place_word self.old place ≡ 0 }
        requires some { 1 ≤ word }
        ensures { OnOk result ((other : ℕ) → place_word self.new other
            ≡ cond (nat_eq place other) word (place_word self.old other)) }
    {
        if place < self.listed.len() as u64 {
            self.listed[place as usize] = word;
            return Ok(());
        }
        match add_word(alloc, &mut self.keys, &mut self.words, place, word) {
            Ok(()) => Ok(()),
            Err(e) => {
                self.keys = KeyTable::new(alloc);
                self.words = Vec::new(alloc);
                Err(e)
            }
        }
    }

    /// Puts a word at a place, whether or not it has one.
    pub(crate) fn set(&mut self, alloc: Global, place: u64, word: u64) -> Result<(), NoMemory>
        requires { 1 ≤ word }
    {
        if self.word(place) == 0 {
            return self.put(alloc, place, word);
        }
        self.replace(place, word);
        Ok(())
    }

    /// Puts another word at a place that has one.
    pub(crate) fn replace(&mut self, place: u64, word: u64)
        requires { 1 ≤ word }
    {
        if place < self.listed.len() as u64 {
            self.listed[place as usize] = word;
        } else {
            self.replace_other(place, word);
        }
    }

    // The same behind the list.
    fn replace_other(&mut self, place: u64, word: u64)
        requires { 1 ≤ word }
    {
        if let Some(number) = self.keys.place(place) {
            if number < self.words.len() {
                self.words[number] = word;
            }
        }
    }
}
