//! The widths in which regrets are held.

ghost use Rattle.std.specs.Prelude.{◌≡◌, ℕ, ◌+◌, ◌^◌, ◌<◌, ◌≤◌, pos, ◌+ℤ◌};
ghost use Rattle.matrix_game.specs.Rounds.{positive_part};

/// A width in which regrets are held: 64 bits where a bound shows that their sum fits, else 128.
pub(crate) trait Regret: Copy {
    /// The regret.
    ghost number: { Self → ℕ };

    /// What all regrets together stay below.
    ghost limit: { ℕ };

    /// No regret.
    fn none() -> Self
        ensures { number result ≡ 0 };

    fn wide(self) -> u128
        ensures { result ≡ number self };

    /// About the number, over 2 to the power `drop`. Only an estimate rests on it, so nothing is promised.
    fn about(self, drop: u32) -> f64;

    fn narrow(self) -> u64
        requires { number self < 2 ^ 64 }
        ensures { result ≡ number self };

    fn plus(self, other: Self) -> Self
        requires { number self + number other < limit }
        ensures { number result ≡ number self + number other };

    /// The regret after a round, never below 0.
    fn raised(self, gain: i64) -> Self
        requires held { number self < limit }
        requires room { positive_part (pos (number self) +ℤ gain) < limit }
        ensures { number result ≡ positive_part (pos (number self) +ℤ gain) };

    ghost products_fit: { limit ≤ 2 ^ 107 };
}

impl Regret for u64 {
    ghost use Rattle.std.specs.Prelude.{◌^◌};
    ghost use Rattle.std.proofs.Common.{rules};

    ghost number = { λ regret. regret };

    ghost limit = { 2 ^ 63 };

    ghost products_fit = { Prim.search rules };

    fn none() -> u64 {
        0
    }

    fn wide(self) -> u128 {
        u128::from(self)
    }

    fn about(self, drop: u32) -> f64 {
        if drop == 0 {
            return (self & 0xf_ffff_ffff_ffff) as f64;
        }
        (self.wrapping_shr(drop) & 0xf_ffff_ffff_ffff) as f64
    }

    fn narrow(self) -> u64 {
        self
    }

    fn plus(self, other: u64) -> u64 {
        self + other
    }

    fn raised(self, gain: i64) -> u64 {
        (self as i64 + gain).max(0) as u64
    }
}

impl Regret for u128 {
    ghost use Rattle.std.specs.Prelude.{◌^◌};
    ghost use Rattle.std.proofs.Common.{rules};

    ghost number = { λ regret. regret };

    ghost limit = { 2 ^ 107 };

    ghost products_fit = { Prim.search rules };

    fn none() -> u128 {
        0
    }

    fn wide(self) -> u128 {
        self
    }

    fn about(self, drop: u32) -> f64 {
        ((self.wrapping_shr(drop) & 0xf_ffff_ffff_ffff) as u64) as f64
    }

    fn narrow(self) -> u64 {
        self as u64
    }

    fn plus(self, other: u128) -> u128 {
        self + other
    }

    fn raised(self, gain: i64) -> u128 {
        (self as i128 + i128::from(gain)).max(0) as u128
    }
}
