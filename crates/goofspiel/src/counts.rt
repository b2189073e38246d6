//! How many hands and deals there are.
ghost use Rattle.std.specs.Prelude.{◌≡◌, ◌^◌, ◌≤◌, length, sum};
ghost use Rattle.goofspiel.specs.Counts.{choose};
ghost use Rattle.goofspiel.specs.Deals.{spread};
ghost use Rattle.goofspiel.specs.Places.{deals};
ghost use Rattle.sums.specs.Sums.{count_below};

use crate::Pay;
use crate::position::prize_sum;

/// How many sets of k of n numbers there are, at the place 14 n + k.
static CHOICES: [u16; 196] = [
    1, 0, 0, 0, 0, 0, 0, 0, 0, 0, 0, 0, 0, 0, 1, 1, 0, 0, 0, 0, 0, 0, 0, 0, 0, 0, 0, 0, 1, 2, 1, 0,
    0, 0, 0, 0, 0, 0, 0, 0, 0, 0, 1, 3, 3, 1, 0, 0, 0, 0, 0, 0, 0, 0, 0, 0, 1, 4, 6, 4, 1, 0, 0, 0,
    0, 0, 0, 0, 0, 0, 1, 5, 10, 10, 5, 1, 0, 0, 0, 0, 0, 0, 0, 0, 1, 6, 15, 20, 15, 6, 1, 0, 0, 0,
    0, 0, 0, 0, 1, 7, 21, 35, 35, 21, 7, 1, 0, 0, 0, 0, 0, 0, 1, 8, 28, 56, 70, 56, 28, 8, 1, 0, 0,
    0, 0, 0, 1, 9, 36, 84, 126, 126, 84, 36, 9, 1, 0, 0, 0, 0, 1, 10, 45, 120, 210, 252, 210, 120,
    45, 10, 1, 0, 0, 0, 1, 11, 55, 165, 330, 462, 462, 330, 165, 55, 11, 1, 0, 0, 1, 12, 66, 220,
    495, 792, 924, 792, 495, 220, 66, 12, 1, 0, 1, 13, 78, 286, 715, 1287, 1716, 1716, 1287, 715,
    286, 78, 13, 1,
];

/// How many pairs of sets of one size below k there are, each of n numbers, at the place 15 n + k.
static PAIRS_BELOW: [u32; 210] = [
    0, 1, 1, 1, 1, 1, 1, 1, 1, 1, 1, 1, 1, 1, 1, 0, 1, 2, 2, 2, 2, 2, 2, 2, 2, 2, 2, 2, 2, 2, 0, 1,
    5, 6, 6, 6, 6, 6, 6, 6, 6, 6, 6, 6, 6, 0, 1, 10, 19, 20, 20, 20, 20, 20, 20, 20, 20, 20, 20,
    20, 0, 1, 17, 53, 69, 70, 70, 70, 70, 70, 70, 70, 70, 70, 70, 0, 1, 26, 126, 226, 251, 252,
    252, 252, 252, 252, 252, 252, 252, 252, 0, 1, 37, 262, 662, 887, 923, 924, 924, 924, 924, 924,
    924, 924, 924, 0, 1, 50, 491, 1716, 2941, 3382, 3431, 3432, 3432, 3432, 3432, 3432, 3432, 3432,
    0, 1, 65, 849, 3985, 8885, 12021, 12805, 12869, 12870, 12870, 12870, 12870, 12870, 12870, 0, 1,
    82, 1378, 8434, 24310, 40186, 47242, 48538, 48619, 48620, 48620, 48620, 48620, 48620, 0, 1,
    101, 2126, 16526, 60626, 124130, 168230, 182630, 184655, 184755, 184756, 184756, 184756,
    184756, 0, 1, 122, 3147, 30372, 139272, 352716, 566160, 675060, 702285, 705310, 705431, 705432,
    705432, 705432, 0, 1, 145, 4501, 52901, 297926, 925190, 1778966, 2406230, 2651255, 2699655,
    2704011, 2704155, 2704156, 2704156, 0, 1, 170, 6254, 88050, 599275, 2255644, 5200300, 8144956,
    9801325, 10312550, 10394346, 10400430, 10400599, 10400600,
];

/// How many sets of so many of these numbers there are.
#[inline]
pub(crate) fn choose(numbers: u32, taken: u32) -> u64
    requires numbers { numbers ≤ 13 }
    requires taken { taken ≤ 13 }
    ensures is { result ≡ choose numbers taken }
    ensures few { result ≤ 8192 }
{
    CHOICES[(14 * numbers + taken) as usize] as u64
}

/// How many pairs of sets there are, each of as many of these numbers as the other, and of fewer than `size`.
#[inline]
pub(crate) fn pairs_below(numbers: u32, size: u32) -> u64
    requires numbers { numbers ≤ 13 }
    requires size { size ≤ 14 }
    ensures is { result ≡ count_below size (λ taken. deals (choose numbers taken) 0) }
    ensures few { result ≤ 2 ^ 27 }
{
    PAIRS_BELOW[(15 * numbers + size) as usize] as u64
}

/// How far the score can be from the first one where these prizes were bid for.
#[inline]
pub(crate) fn spread(pay: Pay, prizes: &[u8]) -> u32
    requires { length prizes.now ≤ 13 }
    ensures is { result ≡ spread pay (sum prizes.now) }
    ensures few { result ≤ 3315 }
{
    match pay {
        Pay::Margin | Pay::Win => prize_sum(prizes),
        Pay::Prizes => 0,
    }
}

/// How far the score can be from the first one where prizes of this sum were bid for.
#[inline]
pub(crate) fn far_by(pay: Pay, spent: u32) -> u32
    requires { spent ≤ 3315 }
    ensures is { result ≡ spread pay spent }
    ensures few { result ≤ 3315 }
{
    match pay {
        Pay::Margin | Pay::Win => spent,
        Pay::Prizes => 0,
    }
}

/// How many deals there are of so many hands of each side, with scores so far from the first one.
#[inline]
pub(crate) fn deals(hands: u64, far: u32) -> u64
    requires hands { hands ≤ 8192 }
    requires far { far ≤ 3315 }
    ensures is { result ≡ deals hands far }
    ensures few { result ≤ 2 ^ 39 }
{
    (2 * far as u64 + 1) * (hands * hands)
}
