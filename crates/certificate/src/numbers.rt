//! Numbers as a report spells them.

ghost use Rattle.std.specs.Prelude.{◌≡◌, ◌<◌, ◌≤◌, ◌^◌, ◌-◌, pos, neg_ℤ, ◌≤ℤ◌, ◌&&◌, ◌||◌, ◌==◌, not, length, slice_index, Some, None, option_map, IfSome, SomeIff};
ghost use Rattle.std.specs.Str.Parse.{AllDigits, digits_value};
ghost use Rattle.certificate.specs.Numbers.{numeral_in, natural_in, signed_in, integer_in};

const MAX: u64 = i64::MAX as u64;

/// Some byte, and no zero before another.
fn is_plain(text: &[u8]) -> bool
    ensures { result ≡ (not (length text.now == 0) && (not (slice_index text.now 0 == 48) || length text.now == 1)) }
{
    !text.is_empty() && (text[0] != b'0' || text.len() == 1)
}

/// The number that the digits make, if it fits.
fn digits(text: &[u8]) -> Option<u64>
    ensures { SomeIff result (AllDigits 10 text.now × digits_value 10 text.now < 2 ^ 64) (digits_value 10 text.now) }
{
    let mut n: u64 = 0;
    for b in text {
        if !b.is_ascii_digit() {
            return None;
        }
        n = n.checked_mul(10)?.checked_add(u64::from(*b - b'0'))?;
    }
    Some(n)
}

/// The number that is written so, if it fits.
fn number(text: &[u8]) -> Option<u64>
    ensures { result ≡ numeral_in text.now }
{
    if !is_plain(text) {
        return None;
    }
    digits(text)
}

/// The number from `low` to `high` that the decimal digits spell, without a zero before others.
#[tactic(auto, unfolding(crate::specs::Numbers::natural_in))]
pub fn natural(text: &[u8], low: u64, high: u64) -> Option<u64>
    ensures exact { result ≡ natural_in low high text.now }
    ensures low { IfSome result (λ n. low ≤ n) }
    ensures high { IfSome result (λ n. n ≤ high) }
{
    let n = number(text)?;
    if n < low || high < n {
        return None;
    }
    Some(n)
}

fn below_zero(digits: &[u8]) -> Option<i64>
    ensures { result ≡ option_map (λ n. neg_ℤ (pos n)) (natural_in 1 (2 ^ 63 - 1) digits.now) }
{
    let n = natural(digits, 1, MAX)?;
    Some(-(n as i64))
}

fn from_zero(digits: &[u8]) -> Option<i64>
    ensures { result ≡ option_map (λ n. pos n) (natural_in 0 (2 ^ 63 - 1) digits.now) }
{
    let n = natural(digits, 0, MAX)?;
    Some(n as i64)
}

/// The whole number that is written so, if it and its negative fit.
fn signed(text: &[u8]) -> Option<i64>
    ensures { result ≡ signed_in text.now }
{
    if text.is_empty() || text[0] != b'-' {
        return from_zero(text);
    }
    below_zero(&text[1..])
}

/// The whole number from `low` to `high` that is written so.
#[tactic(auto, unfolding(crate::specs::Numbers::integer_in))]
pub(crate) fn integer(text: &[u8], low: i64, high: i64) -> Option<i64>
    ensures exact { result ≡ integer_in low high text.now }
    ensures low { IfSome result (λ z. low ≤ℤ z) }
    ensures high { IfSome result (λ z. z ≤ℤ high) }
{
    let z = signed(text)?;
    if z < low || high < z {
        return None;
    }
    Some(z)
}

/// The same, of numbers that fit 32 bits.
pub(crate) fn short_integer(text: &[u8], low: i32, high: i32) -> Option<i32>
    ensures { result ≡ integer_in low high text.now }
{
    let z = integer(text, i64::from(low), i64::from(high))?;
    Some(z as i32)
}
