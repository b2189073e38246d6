//! The rows of a plain board, and the heads by which a key's row is found.
ghost use Rattle.std.specs.Prelude.{◌≡◌, ℕ, ◌+◌, ◌%◌, ◌≤◌, ◌<◌, ◌^◌, length, All};
ghost use Rattle.sim_game.specs.declared.TheConstants.{MOST_ROWS};
ghost use Rattle.bounds_board.specs.Slots.{head_after, keys_of, IsProbeEnd, IsMet};

use sim_game::Side;

/// A row: its key and its two bounds.
#[derive(Clone, Copy, Drop)]
pub struct Slot {
    pub key: u64,
    pub lower: i64,
    pub upper: i64,
}

/// What a probe for a key ends at.
#[derive(Clone, Copy, Drop)]
pub enum ProbeEnd {
    /// The row that has the key.
    Row(u32),
    /// The first head from the key's home that is free: no row has the key.
    Free(u32),
    /// Each head names a row of another key.
    Full,
}

/// The head at which a probe for the key begins. Keys are packed fields, which differ in few bits; the high half of the
/// product depends on all of them (multiplicative hashing), and a second product brings it into range with no division.
#[inline]
fn home(key: u64, rows: u32) -> u32
    requires low { 1 ≤ rows }
    requires high { rows ≤ MOST_ROWS }
    ensures { result ≡ head_after rows key 0 }
{
    let hash = key.wrapping_mul(0x9e37_79b9_7f4a_7c15) >> 32;
    ((hash * rows as u64) >> 32) as u32
}

/// The row behind a row; behind the last one it is the first.
#[inline]
pub fn row_behind(row: u32, rows: u32) -> u32
    requires { row < rows }
    ensures { result ≡ (row + 1) % rows }
{
    if row + 1 == rows { 0 } else { row + 1 }
}

/// Looks for the key from its home on. A head is 0 while it is free, else 1 plus the number of a row.
pub(crate) fn probe(heads: &[u32], slots: &[Slot], key: u64) -> ProbeEnd
    requires rows_low { 1 ≤ length heads.now }
    requires rows_high { length heads.now ≤ MOST_ROWS }
    requires named { All (λ named. named ≤ length slots.now) heads.now }
    ensures { IsProbeEnd heads.now (keys_of slots.now) key result }
{
    let rows = heads.len() as u32;
    let mut head = home(key, rows);
    for _tried in 0..rows {
        let named = heads[head as usize];
        if named == 0 {
            return ProbeEnd::Free(head);
        }
        let row = named - 1;
        if slots[row as usize].key == key {
            return ProbeEnd::Row(row);
        }
        head = row_behind(head, rows);
    }
    ProbeEnd::Full
}

/// The slot with the bound of the side at least as tight as this one.
pub(crate) fn tighten(slot: Slot, side: Side, bound: i64) -> Slot
    ensures { IsMet side bound slot result }
{
    match side {
        Side::One => Slot {
            lower: side.better(bound, slot.lower),
            ..slot
        },
        Side::Two => Slot {
            upper: side.better(bound, slot.upper),
            ..slot
        },
    }
}
