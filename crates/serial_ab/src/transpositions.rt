//! A transposition table: what finished searches found, by state, side and window.
ghost use Rattle.std.specs.Prelude.{◌≡◌, ◌⊎◌, ◌<◌, ◌≤◌, [], length, min};
ghost use Rattle.serial_ab.specs.Tables.{Tells, told};
ghost use Rattle.serial_ab.specs.declared.transpositions.Query.{Query};
ghost use Rattle.serial_ab.specs.declared.transpositions.Memo.{Memo};

use sim_game::Side;
use std::alloc::Global;
use std::collections::HashMap;
use std::hash::{BuildHasherDefault, FoldHasher};
use std::marker::Model;

/// Which search it is: of the state with this key, for a side, with a window. The order of a window's ends tells the
/// sides apart in a hash.
#[derive(Clone, Copy, PartialEq, Eq, Drop)]
#[derive_where(Hash)]
pub struct Query {
    pub key: u64,
    #[derive_where(skip(Hash))]
    pub side: Side,
    pub worse: i64,
    pub better: i64,
}

/// What a finished search found: its number, in millionths of a payoff, and the visits that it spent below the state.
#[derive(Clone, Copy, Drop)]
pub struct Memo {
    pub number: i64,
    pub visits: u64,
}

/// The most searches that a table holds. They take up to 30 megabytes.
pub const TABLE_LIMIT: usize = 262_144;

type Memos = HashMap<Query, Memo, BuildHasherDefault<FoldHasher>, Global>;

/// What finished searches found. It holds no more searches than its limit: full, it forgets all before it takes one.
#[derive(Drop)]
pub struct TranspositionTable {
    memos: Memos,
    limit: usize,
}

impl Model for TranspositionTable {
    ghost use Rattle.std.specs.Prelude.{◌≤◌, length};
    ghost use Rattle.serial_ab.specs.Tables.{TableView};

    ghost Value = { TableView };

    ghost view = { λ t. record { limit = t.limit; stored = t.memos.entries } };

    ghost invariant = { λ t. (length t.memos.entries ≤ t.limit) × (t.limit ≤ 262144) };
}

impl TranspositionTable {
    /// An empty table that may hold so many searches, but not more than `TABLE_LIMIT`. It takes memory only when
    /// searches are stored.
    pub fn new(alloc: Global, limit: usize) -> TranspositionTable
        ensures { result ≡ record { limit = min limit 262144; stored = [] } }
    {
        TranspositionTable {
            memos: HashMap::new(alloc),
            limit: limit.min(TABLE_LIMIT),
        }
    }

    /// How many searches it holds.
    pub fn len(&self) -> usize
        ensures len { result ≡ length self.now.stored }
        ensures few { result ≤ self.now.limit }
        ensures most { self.now.limit ≤ 262144 }
    {
        self.memos.len()
    }

    /// What the search found, where it was stored and not forgotten.
    pub(crate) fn probe(&self, query: &Query) -> Option<Memo>
        ensures { result ≡ told self.now.stored query.now }
    {
        self.memos.get(query).copied()
    }

    /// Stores what a search found. Without memory for it the table forgets all.
    pub(crate) fn store(&mut self, query: &Query, memo: &Memo)
        ensures stored { Tells self.new.stored query.now memo.now ⊎ (self.new.stored ≡ []) }
        ensures limit { self.new.limit ≡ self.old.limit }
        ensures others { (q : Query) (e : Memo) → Tells self.new.stored q e
            → (Tells self.old.stored q e) ⊎ ((q ≡ query.now) × (e ≡ memo.now)) }
    {
        make_room(&mut self.memos, self.limit);
        if self.limit == 0 {
            return;
        }
        match self.memos.insert(*query, *memo) {
            Ok(_) => {}
            Err(_) => self.memos.clear(),
        }
    }
}

/// Forgets all where so many searches are held.
fn make_room(memos: &mut Memos, limit: usize)
    requires { length memos.old.entries ≤ limit }
    ensures room { length memos.new.entries < limit ⊎ (limit ≡ 0) × (memos.new.entries ≡ []) }
    ensures less { (q : Query) (e : Memo) → Tells memos.new.entries q e → Tells memos.old.entries q e }
{
    if memos.len() >= limit {
        memos.clear();
    }
}
