//! What sources and sinks in memory share.

ghost use Rattle.std.specs.Prelude.{◌≡◌, ◌≤◌, ◌-◌, min, length, take, drop, Contains, MatchBool};

/// Copies what fits of the bytes from a place on into the front of the piece, and says how many.
pub(crate) fn copy_from(bytes: &[u8], at: usize, into: &mut [u8]) -> usize
    requires { at ≤ length bytes.now }
    ensures count { result ≡ min (length into.old) (length bytes.now - at) }
    ensures copied { take result into.new ≡ take result (drop at bytes.now) }
{
    let n = into.len().min(bytes.len() - at);
    into[..n].copy_from_slice(&bytes[at..at + n]);
    n
}

/// Whether the number stands in the list.
pub(crate) fn is_listed(numbers: &[u32], number: u64) -> bool
    ensures { MatchBool result (Contains numbers.now number) (¬ Contains numbers.now number) }
{
    numbers.iter().any(|listed| u64::from(*listed) == number)
}
