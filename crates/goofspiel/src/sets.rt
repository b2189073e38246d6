//! Packed sets of up to 13 numbers: hands of cards, which begin with 1, and places of prizes, which begin with 0.
ghost use Rattle.std.specs.Prelude.{◌≡◌, ℕ, ◌<◌, ◌≤◌, ◌^◌, length, remove, slice_index};
ghost use Rattle.goofspiel.specs.Cards.{members, packed_from};

/// How many numbers a set has, whatever its lowest bit stands for.
#[inline]
pub(crate) fn size(set: u16) -> u32
    requires { set < 2 ^ 13 }
    ensures { (low : ℕ) → result ≡ length (members 13 low set) }
{
    set.count_ones()
}

/// The number at a place of a set whose lowest bit stands for `low`.
#[inline]
pub(crate) fn number_at(set: u16, low: u8, place: u32) -> u8
    requires small { set < 2 ^ 13 }
    requires low { low ≤ 1 }
    requires place { place < length (members 13 low set) }
    ensures { result ≡ slice_index (members 13 low set) place }
{
    let mut rest = set;
    for _ in 0..place {
        rest &= rest - 1;
    }
    rest.trailing_zeros() as u8 + low
}

/// The number at a place of a set, and the set without it.
#[inline]
pub(crate) fn take_out(set: u16, low: u8, place: u32) -> (u8, u16)
    requires small { set < 2 ^ 13 }
    requires low { low ≤ 1 }
    requires place { place < length (members 13 low set) }
    ensures number { result.0 ≡ slice_index (members 13 low set) place }
    ensures rest { result.1 ≡ packed_from low (remove (members 13 low set) place) }
{
    let number = number_at(set, low, place);
    (number, set - (1 << (number - low)))
}

/// How many members of a part of a set are below the greatest member that the part is without.
#[inline]
pub(crate) fn count_below_gone(set: u16, part: u16) -> u32 {
    let gone = set & !part;
    if gone == 0 {
        return 0;
    }
    (part & u16::MAX.wrapping_shr(gone.leading_zeros())).count_ones()
}
