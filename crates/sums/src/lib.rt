//! Sums over the numbers below a bound, products by weights, and quotients, in whole numbers.
#![tactic(auto)]

ghost use Rattle.std.specs.Prelude.{◌≡◌, ◌*◌, ◌≤◌, pos, neg_ℤ, ◌*ℤ◌, ◌<ℤ◌, unsigned_abs};
ghost use Rattle.sums.specs.declared.TheConstants.{MOST_WEIGHT, MOST_BOUND};
ghost use Rattle.sums.specs.Quotients.{floor_quotient, ceiling_quotient};

/// The most moves of a side: two sets of them are two words of 64 bits, and a move's number fits a byte.
pub const MOST_MOVES: u32 = 64;

/// The least sum of a state's weights.
pub const LEAST_WEIGHT: u32 = 8192;

/// The greatest weight of a move, and the greatest sum of a state's weights.
pub const MOST_WEIGHT: u32 = 1_048_576;

/// The greatest size of a bound, in millionths of a payoff.
pub const MOST_BOUND: u64 = 4_000_000_000;

/// The greatest size of what a turn pays, in millionths of a payoff: twice that of a bound.
pub const MOST_REWARD: u64 = 8_000_000_000;

/// A weight's part of a sum.
pub fn weighted(weight: u32, bound: i64) -> i64
    requires light { weight ≤ MOST_WEIGHT }
    requires small { unsigned_abs bound ≤ MOST_BOUND }
    ensures value { result ≡ pos weight *ℤ bound }
    ensures small { unsigned_abs result ≤ 4194304000000000 }
{
    i64::from(weight) * bound
}

/// The quotient by a positive number, rounded down.
pub fn floor_quotient(x: i64, divisor: u32) -> i64
    requires { 1 ≤ divisor }
    ensures { result ≡ floor_quotient divisor x }
{
    x.div_euclid(i64::from(divisor))
}

/// The quotient by a positive number, rounded up.
pub fn ceiling_quotient(x: i64, divisor: u32) -> i64
    requires positive { 1 ≤ divisor }
    requires negatable { neg_ℤ (pos 9223372036854775808) <ℤ x }
    ensures { result ≡ ceiling_quotient divisor x }
{
    -(-x).div_euclid(i64::from(divisor))
}
