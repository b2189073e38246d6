//! A list of keys, each once, in which the place of a key is found by open addressing.

ghost use Rattle.std.specs.Prelude.{◌≡◌, ◌≢◌, ℕ, ◌<◌, ◌≤◌, ◌+◌, ◌++◌, ◌∷◌, [], length, get_or, nat_eq, cond, is_some, Some, false, IfOk, IfSome, OnOk, MatchBool};
ghost use Rattle.induction.specs.Keys.{AreFound, IsFreeSlot, IsIndexed, first_slot, key_place, slot_after};

use sim_game::NoMemory;
use std::alloc::Global;
use std::marker::Model;

// No more keys than this, so that one more than a place fits into a slot.
const MOST_KEYS: usize = 1_000_000_000;

/// Keys, each once, numbered from 0 in the order in which they came.
#[derive(Drop)]
pub(crate) struct KeyTable {
    // What stands in a slot is 0, or one more than the place of a key. A key is looked for from its first slot on, up to a free
    // one.
    slots: Vec<u32>,
    // So many of the lowest bits of a key do not choose its first slot: those in which no keys differed when the slots were made.
    shift: u32,
    keys: Vec<u64>,
}

impl Model for KeyTable {
    ghost use Rattle.std.specs.Prelude.{ℕ, List};
    ghost use Rattle.induction.specs.Keys.{IsIndexed};

    ghost Value = { List ℕ };

    ghost view = { λ t. t.keys.items };

    ghost invariant = { λ t. IsIndexed t.slots.items t.shift t.keys.items };
}

/// The slot at which a key is looked for first. Keys that differ in the four lowest bits alone are looked for side by side, so
/// that neighbours are near each other in memory.
fn first_slot(slots: usize, shift: u32, key: u64) -> usize
    requires some { 16 ≤ slots }
    requires few { slots ≤ 4294967296 }
    ensures is { result ≡ first_slot slots shift key }
    ensures within { result < slots }
{
    let shifted = key.wrapping_shr(shift);
    let mixed = (shifted / 16).wrapping_mul(11400714819323198485) / 4294967296;
    let block = mixed * (slots as u64 / 16) / 4294967296;
    (block * 16 + shifted % 16) as usize
}

/// The slot after another one, around the end.
fn slot_after(slots: usize, slot: usize) -> usize
    requires { slot < slots }
    ensures is { result ≡ slot_after slots slot }
    ensures within { result < slots }
{
    if slot + 1 == slots { 0 } else { slot + 1 }
}

/// The first free slot for a key, if there is one.
fn free_slot(slots: &[u32], shift: u32, key: u64) -> Option<usize>
    requires { length slots.now ≤ 4294967296 }
    ensures some { IfSome result (λ slot. 16 ≤ length slots.now) }
    ensures free { IfSome result
        (IsFreeSlot (length slots.now) slots.now (first_slot (length slots.now) shift key)) }
{
    if slots.len() < 16 {
        return None;
    }
    let mut slot = first_slot(slots.len(), shift, key);
    for _step in 0..slots.len() {
        if slots[slot] == 0 {
            return Some(slot);
        }
        slot = slot_after(slots.len(), slot);
    }
    None
}

/// Whether the key stands at the place.
fn is_at(keys: &[u64], place: usize, key: u64) -> bool
    ensures { MatchBool result ((place < length keys.now) × (get_or keys.now place 0 ≡ key))
        (place < length keys.now → get_or keys.now place 0 ≢ key) }
{
    place < keys.len() && keys[place] == key
}

/// The place of a key among those that stand in the slots.
fn find(slots: &[u32], shift: u32, keys: &[u64], key: u64) -> Option<usize>
    requires { IsIndexed slots.now shift keys.now }
    ensures { result ≡ key_place keys.now key }
{
    if slots.len() < 16 {
        return None;
    }
    let mut slot = first_slot(slots.len(), shift, key);
    for _step in 0..slots.len() {
        let named = slots[slot] as usize;
        if named == 0 {
            return None;
        }
        if is_at(keys, named - 1, key) {
            return Some(named - 1);
        }
        slot = slot_after(slots.len(), slot);
    }
    None
}

/// How many of the lowest bits are the same in all keys.
fn common_bits(keys: &[u64]) -> u32 {
    let Some(&first) = keys.first() else {
        return 0;
    };
    let mut differing = 0;
    for key in keys {
        differing |= *key ^ first;
    }
    differing.trailing_zeros()
}

/// Slots for the keys, some four for each.
fn slots_for(alloc: Global, keys: &[u64], shift: u32) -> Result<Vec<u32>, NoMemory>
    requires { length keys.now ≤ 1000000000 }
    ensures few { IfOk result (λ slots. length slots.items ≤ 4294967296) }
    ensures some { IfOk result (λ slots. 16 ≤ length slots.items) }
    ensures found { IfOk result (λ slots.
        AreFound (length slots.items) slots.items shift keys.now (length keys.now)) }
{
    let mut slots = vec![in alloc; 0u32; 4 * keys.len() + 64]?;
    for place in 0..keys.len() {
        match free_slot(&slots, shift, keys[place]) {
            None => return Err(NoMemory),
            Some(slot) => slots[slot] = place as u32 + 1,
        }
    }
    Ok(slots)
}

impl KeyTable {
    /// No keys. It takes no memory.
    pub(crate) fn new(alloc: Global) -> KeyTable
        ensures { result ≡ [] }
    {
        KeyTable {
            slots: Vec::new(alloc),
            shift: 0,
            keys: Vec::new(alloc),
        }
    }

    /// The place of a key, if it is there.
    pub(crate) fn place(&self, key: u64) -> Option<usize>
        ensures { result ≡ key_place self.now key }
    {
        find(&self.slots, self.shift, &self.keys, key)
    }

    /// Makes slots anew, so that at least half of them are free.
    fn make_room(&mut self, alloc: Global) -> Result<(), NoMemory>
        ensures same { self.new ≡ self.old }
        ensures few { OnOk result (length self.new < 1000000000) }
    {
        if self.keys.len() >= MOST_KEYS {
            return Err(NoMemory);
        }
        if self.slots.len() < 2 * self.keys.len() + 16 {
            let shift = common_bits(&self.keys);
            self.slots = slots_for(alloc, &self.keys, shift)?;
            self.shift = shift;
        }
        Ok(())
    }

    /// Adds a key that is not there.
    pub(crate) fn add(&mut self, alloc: Global, key: u64) -> Result<(), NoMemory>
        requires new { is_some (key_place self.old key) ≡ false }
        ensures keys { OnOk result (self.new ≡ self.old ++ key ∷ []) }
        ensures places { OnOk result ((other : ℕ) → key_place self.new other
            ≡ cond (nat_eq key other) (Some (length self.old)) (key_place self.old other)) }
    {
        self.make_room(alloc)?;
        match free_slot(&self.slots, self.shift, key) {
            None => Err(NoMemory),
            Some(slot) => {
                let name = self.keys.len() as u32 + 1;
                self.keys.push(key)?;
                self.slots[slot] = name;
                Ok(())
            }
        }
    }
}
