//! Rows that a desk has met.
ghost use Rattle.std.specs.Prelude.{◌≡◌, ℕ, ◌+◌, ◌^◌, ◌<◌, [], ◌∷◌, All, Contains, replicate, slice_set, length, vec_len, IfSome};
ghost use Rattle.shared_board.specs.Known.{IsFreeOrIn};

use sim_game::MOST_ROWS;
use std::alloc::Global;
use std::mem::size_of;

/// A key, and its row plus one. Where that is 0 the place is free.
#[derive(Clone, Copy)]
pub(crate) struct Place {
    pub key: u64,
    pub row_plus_one: u32,
}

const _: () = prove!(size_of::<Place>() == 16);

/// Rows by key, since a key's row never changes: a claim of a key that stands here needs no step at the board. The
/// places double where three quarters are taken. A key has one place at most, so beyond the first ones there are no
/// more than eight places for every three rows of the board.
#[derive(Drop)]
pub(crate) struct KnownRows {
    pub places: Vec<Place>,
    /// How many more places may be taken before they double.
    pub room: usize,
    /// They double as long as they are fewer.
    pub most: usize,
}

const LEAST_PLACES: usize = 1024;

/// The places double up to so many, and beyond as far as the board has rows.
const MANY_PLACES: usize = 1048576;

/// How many places are tried for a key: with three quarters taken, all but a few keys in a thousand find a free one.
const MOST_TRIED: u32 = 32;

/// The first place that is tried for a key, among so many.
#[inline]
fn first_place(key: u64, places: usize) -> usize
    requires { 0 < places }
    ensures { result < places }
{
    // Multiplicative hashing: the high bits of the product depend on all fields of the key. A second product brings
    // them into range without a division.
    let hash = key.wrapping_mul(0x9e37_79b9_7f4a_7c15) >> 32;
    ((hash * places.min(MOST_ROWS as usize) as u64) >> 32) as usize
}

/// The place behind, which is the first one behind the last.
#[inline]
fn place_behind(place: usize, places: usize) -> usize
    requires { place < places }
    ensures { result < places }
{
    if place + 1 == places { 0 } else { place + 1 }
}

/// The place that a key is to have: the first free one of those that are tried, else the first of all.
fn place_for(places: &[Place], key: u64) -> usize
    requires { 0 < length places.now }
    ensures { result < length places.now }
{
    let first = first_place(key, places.len());
    let mut at = first;
    for _tried in 0..MOST_TRIED {
        if places[at].row_plus_one == 0 {
            return at;
        }
        at = place_behind(at, places.len());
    }
    first
}

impl KnownRows {
    /// No rows of a board of so many, and no places for any. It takes no memory.
    pub(crate) fn new(alloc: Global, rows: u32) -> KnownRows
        ensures { result.places.items ≡ [] }
    {
        KnownRows {
            places: Vec::new(alloc),
            room: 0,
            most: MANY_PLACES.max(rows as usize),
        }
    }

    /// So many free places, where there is memory for them.
    fn with_places(alloc: Global, places: usize, most: usize) -> Option<KnownRows>
        ensures { IfSome result (λ known. known.places.items
            ≡ replicate places (record { key = 0; row_plus_one = 0 })) }
    {
        let free = Place {
            key: 0,
            row_plus_one: 0,
        };
        match Vec::from_elem(alloc, free, places) {
            Ok(free_places) => Some(KnownRows {
                places: free_places,
                room: places / 4 * 3,
                most,
            }),
            Err(_) => None,
        }
    }

    pub(crate) fn find(&self, key: u64) -> Option<u32>
        ensures { IfSome result (λ row. Contains self.now.places.items
            (record { key = key; row_plus_one = row + 1 })) }
    {
        let places = self.places.as_slice();
        if places.is_empty() {
            return None;
        }
        let mut at = first_place(key, places.len());
        for _tried in 0..MOST_TRIED {
            let place = places[at];
            if place.row_plus_one == 0 {
                return None;
            }
            if place.key == key {
                return Some(place.row_plus_one - 1);
            }
            at = place_behind(at, places.len());
        }
        None
    }

    /// Puts a key and its row into a place, free or not.
    fn put(&mut self, place: Place)
        requires { 0 < vec_len self.old.places }
        ensures { (at : ℕ) × (self.new.places.items ≡ slice_set self.old.places.items at place) }
    {
        let at = place_for(self.places.as_slice(), place.key);
        if self.places[at].row_plus_one == 0 {
            self.room = self.room.saturating_sub(1);
        }
        self.places[at] = place;
    }

    /// Doubles the places where three quarters are taken. Where there is no memory they stay, and it is not asked for
    /// again.
    fn make_room(&mut self, alloc: Global)
        ensures { All (IsFreeOrIn self.old.places.items) self.new.places.items }
    {
        if self.room > 0 || self.places.len() >= self.most {
            return;
        }
        let places = (2 * self.places.len()).max(LEAST_PLACES);
        let Some(mut wider) = KnownRows::with_places(alloc, places, self.most) else {
            self.most = 0;
            return;
        };
        for place in &self.places {
            if place.row_plus_one != 0 {
                wider.put(*place);
            }
        }
        *self = wider;
    }

    /// Keeps the row of a key that is not found. Where all places that are tried are taken, another key gives way.
    pub(crate) fn keep(&mut self, alloc: Global, key: u64, row: u32)
        requires { row + 1 < 2 ^ 32 }
        ensures { All (IsFreeOrIn (record { key = key; row_plus_one = row + 1 } ∷ self.old.places.items))
            self.new.places.items }
    {
        self.make_room(alloc);
        if self.places.is_empty() {
            return;
        }
        self.put(Place {
            key,
            row_plus_one: row + 1,
        });
    }
}
