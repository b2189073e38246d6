//! A weight, shared out in proportion to regrets.

ghost use Rattle.std.specs.Prelude.{◌≡◌, ◌*◌, ◌/◌, ◌^◌, ◌<◌, ◌≤◌, length, map, max, slice_index, sum};
ghost use Rattle.sums.specs.declared.TheConstants.{MOST_WEIGHT};
ghost use Rattle.matrix_game.specs.Rounds.{mixture_of};

use crate::regrets::Regret;
use std::num::f64_to_bits_with_nan;

// What turns a regret into about its share of a weight.
#[derive(Clone, Copy)]
struct Scale {
    // How many of the lowest bits to leave out, so that 52 are left of the sum.
    drop: u32,
    factor: f64,
    // All bits that a share may have.
    mask: u32,
}

impl Scale {
    fn of<R: Regret>(weight: u32, all: R) -> Scale
        ensures { result.mask < 2 ^ 21 }
    {
        let drop = 76u32.saturating_sub(all.wide().leading_zeros());
        Scale {
            drop,
            // With no regret nothing is estimated, and 1 keeps clear of a division by zero; else the sum is at least 1.
            factor: f64::from(weight) / all.about(drop).max(1.0),
            mask: u32::MAX.wrapping_shr(weight.leading_zeros()) & 0x1f_ffff,
        }
    }

    // A number below 2^32, added to 2^32, has its whole part in the bits from the 20th on.
    fn estimate<R: Regret>(self, regret: R) -> u32
        ensures { result ≤ self.mask }
    {
        let share = regret.about(self.drop) * self.factor;
        (f64_to_bits_with_nan(share + 4294967296.0) >> 20 & u64::from(self.mask)) as u32
    }
}

// The quotient: the estimate or a neighbour, and by a division where it is none of these.
fn quotient(number: u64, divisor: u64, estimate: u32) -> u32
    requires some { 0 < divisor }
    requires fits { number / divisor < 2 ^ 32 }
    requires room { estimate * divisor < 2 ^ 63 }
    requires low { estimate < 2 ^ 21 }
    ensures { result ≡ number / divisor }
{
    let base = u64::from(estimate) * divisor;
    if base <= number {
        let rest = number - base;
        if rest < divisor {
            return estimate;
        }
        if rest - divisor < divisor {
            return estimate + 1;
        }
    } else if base - number <= divisor {
        return estimate - 1;
    }
    (number / divisor) as u32
}

// The same in 128 bits.
fn wide_quotient(number: u128, divisor: u128, estimate: u32) -> u32
    requires some { 0 < divisor }
    requires fits { number / divisor < 2 ^ 32 }
    requires room { divisor < 2 ^ 107 }
    requires low { estimate < 2 ^ 21 }
    ensures { result ≡ number / divisor }
{
    let base = u128::from(estimate) * divisor;
    if base <= number {
        let rest = number - base;
        if rest < divisor {
            return estimate;
        }
        if rest - divisor < divisor {
            return estimate + 1;
        }
    } else if base - number <= divisor {
        return estimate - 1;
    }
    (number / divisor) as u32
}

// A row's share of the weight, where `all` is the sum of the regrets, or 1 where there is none.
fn share<R: Regret>(weight: u32, regrets: &[R], row: usize, all: u128, scale: Scale) -> u32
    requires some { 1 ≤ weight }
    requires light { weight ≤ MOST_WEIGHT }
    requires row_in { row < length regrets.now }
    requires all { all ≡ max (sum (map R.number regrets.now)) 1 }
    requires room { all < 2 ^ 107 }
    requires low { scale.mask < 2 ^ 21 }
    ensures { result ≡ weight * slice_index (map R.number regrets.now) row / all }
{
    let regret = regrets[row];
    if regret.wide() == 0 {
        return 0;
    }
    let estimate = scale.estimate(regret);
    if u128::from(scale.mask.max(weight)) * all < 1 << 63 {
        let number = u64::from(weight) * regret.narrow();
        quotient(number, all as u64, estimate)
    } else {
        wide_quotient(u128::from(weight) * regret.wide(), all, estimate)
    }
}

/// Writes the weight shared out by the regrets, rounded down; the first row gets what that leaves over.
pub(crate) fn mix<R: Regret>(weight: u32, regrets: &[R], all: R, p: &mut [u32])
    requires same { length p.old ≡ length regrets.now }
    requires some { 0 < length regrets.now }
    requires positive { 1 ≤ weight }
    requires light { weight ≤ MOST_WEIGHT }
    requires all { R.number all ≡ sum (map R.number regrets.now) }
    requires room { R.number all < R.limit }
    ensures { p.new ≡ mixture_of weight (map R.number regrets.now) }
{
    let scale = Scale::of(weight, all);
    let divisor = all.wide().max(1);
    let mut left = weight;
    for row in 1..regrets.len() {
        let share = share(weight, regrets, row, divisor, scale);
        p[row] = share;
        left -= share;
    }
    p[0] = left;
}
