//! Keys of states: fields of fixed widths, packed one behind the other into a number of 63 bits.
#![tactic(auto)]

ghost use Rattle.std.specs.Prelude.{◌≡◌, ℕ, ◌+◌, ◌-◌, ◌*◌, ◌/◌, ◌%◌, ◌^◌, ◌<◌, ◌≤◌};

/// The fields so far, the last in the lowest bits.
#[derive(Clone, Copy, PartialEq, Eq, PartialOrd, Ord, Debug)]
pub struct Key(pub u64);

/// The key with one more field behind the others, in the lowest bits.
pub fn put(k: Key, value: u64, bits: u32) -> Key
    requires bits_low { 1 ≤ bits }
    requires bits_high { bits ≤ 63 }
    requires value_high { value < 2 ^ bits }
    requires room { k.0 < 2 ^ (63 - bits) }
    ensures value { result.0 ≡ k.0 * 2 ^ bits + value }
    ensures small { result.0 < 2 ^ 63 }
{
    Key((k.0 << bits) + value)
}

/// The key without its last field, and that field.
pub fn take(k: Key, bits: u32) -> (Key, u64)
    requires bits_low { 1 ≤ bits }
    requires bits_high { bits ≤ 63 }
    ensures key { result.0.0 ≡ k.0 / 2 ^ bits }
    ensures value { result.1 ≡ k.0 % 2 ^ bits }
{
    (Key(k.0 >> bits), k.0 & ((1 << bits) - 1))
}

/// What was put last is taken first: the field comes back, and the key as it was before.
pub fn taken_as_put(k: Key, value: u64, bits: u32) -> (Key, u64)
    requires bits_low { 1 ≤ bits }
    requires bits_high { bits ≤ 63 }
    requires value_high { value < 2 ^ bits }
    requires room { k.0 < 2 ^ (63 - bits) }
    ensures key { result.0 ≡ k }
    ensures value { result.1 ≡ value }
{
    take(put(k, value, bits), bits)
}
