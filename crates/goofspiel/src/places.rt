//! Numbers of hands, of sets of places and of scores, which make the places of states.
ghost use Rattle.std.specs.Prelude.{◌≡◌, ℕ, ◌+◌, ◌*◌, ◌/◌, ◌<◌, ◌≤◌, ◌^◌, pos, ◌+ℤ◌, ◌-ℤ◌, ◌≤ℤ◌, unsigned_abs};
ghost use Rattle.std.specs.Int.Count.{ones};
ghost use Rattle.goofspiel.specs.Cards.{members};
ghost use Rattle.goofspiel.specs.Deals.{spread, IsDealt};
ghost use Rattle.goofspiel.specs.Places.{bits_number, deal_number, part_number, HasParts, IsPartOf};
ghost use Rattle.goofspiel.specs.Position.{IsPosition};

use crate::counts::choose;
use crate::sets::size;
use crate::{Setting, State};

/// The number of each set of 7 bits among those of its size.
static FRONT: [u16; 128] = [
    0, 6, 5, 20, 4, 19, 14, 34, 3, 18, 13, 33, 9, 29, 19, 34, 2, 17, 12, 32, 8, 28, 18, 33, 5, 25,
    15, 30, 9, 24, 14, 20, 1, 16, 11, 31, 7, 27, 17, 32, 4, 24, 14, 29, 8, 23, 13, 19, 2, 22, 12,
    27, 6, 21, 11, 17, 3, 18, 8, 14, 4, 10, 5, 6, 0, 15, 10, 30, 6, 26, 16, 31, 3, 23, 13, 28, 7,
    22, 12, 18, 1, 21, 11, 26, 5, 20, 10, 16, 2, 17, 7, 13, 3, 9, 4, 5, 0, 20, 10, 25, 4, 19, 9,
    15, 1, 16, 6, 12, 2, 8, 3, 4, 0, 15, 5, 11, 1, 7, 2, 3, 0, 6, 1, 2, 0, 1, 0, 0,
];

/// At the place 64 k + l, what the lowest 6 bits l add to the number of a set of 13 bits that has k others.
static REST: [u16; 512] = [
    0, 12, 11, 77, 10, 76, 65, 285, 9, 75, 64, 284, 54, 274, 219, 714, 8, 74, 63, 283, 53, 273,
    218, 713, 44, 264, 209, 704, 164, 659, 494, 1286, 7, 73, 62, 282, 52, 272, 217, 712, 43, 263,
    208, 703, 163, 658, 493, 1285, 35, 255, 200, 695, 155, 650, 485, 1277, 119, 614, 449, 1241,
    329, 1121, 791, 1715, 0, 66, 55, 275, 45, 265, 210, 705, 36, 256, 201, 696, 156, 651, 486,
    1278, 28, 248, 193, 688, 148, 643, 478, 1270, 112, 607, 442, 1234, 322, 1114, 784, 1708, 21,
    241, 186, 681, 141, 636, 471, 1263, 105, 600, 435, 1227, 315, 1107, 777, 1701, 77, 572, 407,
    1199, 287, 1079, 749, 1673, 203, 995, 665, 1589, 455, 1379, 917, 1709, 0, 220, 165, 660, 120,
    615, 450, 1242, 84, 579, 414, 1206, 294, 1086, 756, 1680, 56, 551, 386, 1178, 266, 1058, 728,
    1652, 182, 974, 644, 1568, 434, 1358, 896, 1688, 35, 530, 365, 1157, 245, 1037, 707, 1631, 161,
    953, 623, 1547, 413, 1337, 875, 1667, 105, 897, 567, 1491, 357, 1281, 819, 1611, 231, 1155,
    693, 1485, 441, 1233, 771, 1266, 0, 495, 330, 1122, 210, 1002, 672, 1596, 126, 918, 588, 1512,
    378, 1302, 840, 1632, 70, 862, 532, 1456, 322, 1246, 784, 1576, 196, 1120, 658, 1450, 406,
    1198, 736, 1231, 35, 827, 497, 1421, 287, 1211, 749, 1541, 161, 1085, 623, 1415, 371, 1163,
    701, 1196, 91, 1015, 553, 1345, 301, 1093, 631, 1126, 175, 967, 505, 1000, 295, 790, 460, 680,
    0, 792, 462, 1386, 252, 1176, 714, 1506, 126, 1050, 588, 1380, 336, 1128, 666, 1161, 56, 980,
    518, 1310, 266, 1058, 596, 1091, 140, 932, 470, 965, 260, 755, 425, 645, 21, 945, 483, 1275,
    231, 1023, 561, 1056, 105, 897, 435, 930, 225, 720, 390, 610, 49, 841, 379, 874, 169, 664, 334,
    554, 85, 580, 250, 470, 130, 350, 185, 251, 0, 924, 462, 1254, 210, 1002, 540, 1035, 84, 876,
    414, 909, 204, 699, 369, 589, 28, 820, 358, 853, 148, 643, 313, 533, 64, 559, 229, 449, 109,
    329, 164, 230, 7, 799, 337, 832, 127, 622, 292, 512, 43, 538, 208, 428, 88, 308, 143, 209, 15,
    510, 180, 400, 60, 280, 115, 181, 24, 244, 79, 145, 34, 100, 45, 57, 0, 792, 330, 825, 120,
    615, 285, 505, 36, 531, 201, 421, 81, 301, 136, 202, 8, 503, 173, 393, 53, 273, 108, 174, 17,
    237, 72, 138, 27, 93, 38, 50, 1, 496, 166, 386, 46, 266, 101, 167, 10, 230, 65, 131, 20, 86,
    31, 43, 2, 222, 57, 123, 12, 78, 23, 35, 3, 69, 14, 26, 4, 16, 5, 6, 0, 495, 165, 385, 45, 265,
    100, 166, 9, 229, 64, 130, 19, 85, 30, 42, 1, 221, 56, 122, 11, 77, 22, 34, 2, 68, 13, 25, 3,
    15, 4, 5, 0, 220, 55, 121, 10, 76, 21, 33, 1, 67, 12, 24, 2, 14, 3, 4, 0, 66, 11, 23, 1, 13, 2,
    3, 0, 12, 1, 2, 0, 1, 0, 0,
];

/// The number of a set of 13 bits among those of its size.
#[inline]
fn bits_number(set: u16) -> u64
    requires { set < 2 ^ 13 }
    ensures is { result ≡ bits_number 13 set }
    ensures few { result ≤ 2 ^ 17 }
{
    let front = set >> 6;
    let low = front.count_ones() * 64 + (set % 64) as u32;
    FRONT[front as usize] as u64 + REST[low as usize] as u64
}

/// How many numbers of a set are above the one that a bit stands for.
#[inline]
fn above(set: u16, bit: u32) -> u32
    requires small { set < 2 ^ 13 }
    requires bit { bit ≤ 12 }
    ensures is { result ≡ ones (set / 2 ^ (bit + 1)) }
    ensures few { result ≤ 13 }
{
    (set >> (bit + 1)).count_ones()
}

/// The number of a part of a set among its parts of that size, summed up number by number.
fn summed_number(set: u16, part: u16) -> u64
    requires set { set < 2 ^ 13 }
    requires part { part < 2 ^ 13 }
    ensures is { (low : ℕ) → IsPartOf (members 13 low set) (members 13 low part)
        → result ≡ part_number (members 13 low set) (members 13 low part) }
    ensures few { result ≤ 13 * 8192 }
{
    let count = size(part);
    let mut rest = part;
    let mut number: u64 = 0;
    for taken in 0..count {
        number += choose(above(set, rest.trailing_zeros()), count - taken);
        rest &= rest - 1;
    }
    number
}

/// The number of a part of a set among its parts of that size. For a set of all numbers up to some number, as that of
/// all cards is, it is looked up.
#[inline]
pub(crate) fn part_number(set: u16, part: u16) -> u64
    requires set { set < 2 ^ 13 }
    requires part { part < 2 ^ 13 }
    ensures is { (low : ℕ) → IsPartOf (members 13 low set) (members 13 low part)
        → result ≡ part_number (members 13 low set) (members 13 low part) }
    ensures few { result ≤ 2 ^ 17 }
{
    if set & (set + 1) == 0 {
        bits_number((part << (13 - size(set))) % 8192)
    } else {
        summed_number(set, part)
    }
}

/// How far the score is above the least one that is so far from the first one.
#[inline]
fn score_number(setting: &Setting, far: u32, s: State) -> u64
    requires first { unsigned_abs setting.now.score ≤ 1000 }
    requires far { far ≤ 3315 }
    requires low { (setting.now.score -ℤ pos far) ≤ℤ s.score }
    requires high { s.score ≤ℤ (setting.now.score +ℤ pos far) }
    ensures { result ≡ unsigned_abs (s.score -ℤ (setting.now.score -ℤ pos far)) }
{
    (s.score - (setting.score - far as i32)) as u64
}

/// The number of the hands and the score among those with as many cards, with scores so far from the first one.
#[inline]
pub(crate) fn deal_number(setting: &Setting, far: u32, s: State) -> u64
    requires valid { IsPosition setting.now }
    requires dealt { (spent : ℕ) × (far ≡ spread setting.now.pay spent) × IsDealt setting.now spent s }
    requires parts { HasParts setting.now s }
    requires far { far ≤ 3315 }
    ensures is { result ≡ deal_number setting.now far s }
    ensures few { result < 2 ^ 39 }
{
    let hands = choose(setting.count as u32, size(s.one));
    let number = part_number(setting.one, s.one) * hands + part_number(setting.two, s.two);
    number * (2 * far as u64 + 1) + score_number(setting, far, s)
}

/// Whether both sides hold the same cards at first, and neither has won more than the other.
#[inline]
pub(crate) fn is_mirrored(setting: &Setting) -> bool {
    setting.one == setting.two && setting.score == 0
}

/// The number of a deal in which the sides are exchanged, in a position that is its own mirror image. Proposals alone read
/// it.
#[inline]
pub(crate) fn mirrored_number(setting: &Setting, far: u32, s: State) -> u64
    requires cards { setting.now.one < 2 ^ 13 }
    requires count { setting.now.count ≤ 13 }
    requires one { s.one < 2 ^ 13 }
    requires two { s.two < 2 ^ 13 }
    requires far { far ≤ 3315 }
{
    let hands = choose(setting.count as u32, size(s.one));
    let two = part_number(setting.one, s.one);
    let number = part_number(setting.one, s.two)
        .wrapping_mul(hands)
        .wrapping_add(two);
    let score = i64::from(far) - i64::from(s.score);
    number
        .wrapping_mul(2 * u64::from(far) + 1)
        .wrapping_add(score.unsigned_abs())
}
