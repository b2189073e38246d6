//! Lists of numbers.

ghost use Rattle.std.specs.Prelude.{◌≡◌, [], IfOk, IfSome};
ghost use Rattle.certificate.specs.Numbers.{natural_in, integer_in};
ghost use Rattle.certificate.specs.Readers.{each_in, naturals_in, list_parts, list_in, some_list_in};

use crate::numbers::{natural, short_integer};
use crate::parts::{Parts, has_parts};
use seq::Seq;
use std::alloc::{AllocError, Global};

fn bytes(alloc: Global, parts: &mut Parts) -> Result<Option<Seq<u8>>, AllocError>
    ensures { IfOk result (λ o. o ≡ naturals_in 0 255 parts.old) }
{
    let mut numbers = Vec::new(alloc);
    'parts: while let Some(part) = parts.next() {
        let Some(n) = natural(part, 0, 255) else {
            return Ok(None);
        };
        numbers.push(n as u8)?;
    }
    Ok(Some(Seq::from_vec(numbers)))
}

/// The weights that all parts spell.
pub(crate) fn weights(alloc: Global, parts: &mut Parts) -> Result<Option<Seq<u32>>, AllocError>
    ensures exact { IfOk result (λ o. o ≡ naturals_in 0 1048576 parts.old) }
    ensures all { IfOk result (λ o. IfSome o (λ _. parts.new ≡ [])) }
{
    let mut numbers = Vec::new(alloc);
    'parts: while let Some(part) = parts.next() {
        let Some(n) = natural(part, 0, 1_048_576) else {
            return Ok(None);
        };
        numbers.push(n as u32)?;
    }
    Ok(Some(Seq::from_vec(numbers)))
}

/// The counts of turns that all parts spell.
pub(crate) fn turns(alloc: Global, parts: &mut Parts) -> Result<Option<Seq<u64>>, AllocError>
    ensures exact { IfOk result (λ o. o ≡ naturals_in 0 1099511627776 parts.old) }
    ensures all { IfOk result (λ o. IfSome o (λ _. parts.new ≡ [])) }
{
    let mut numbers = Vec::new(alloc);
    'parts: while let Some(part) = parts.next() {
        let Some(n) = natural(part, 0, 1_099_511_627_776) else {
            return Ok(None);
        };
        numbers.push(n)?;
    }
    Ok(Some(Seq::from_vec(numbers)))
}

/// The whole numbers from `low` to `high` that all parts spell.
fn integers(
    alloc: Global,
    parts: &mut Parts,
    low: i32,
    high: i32,
) -> Result<Option<Seq<i32>>, AllocError>
    ensures { IfOk result (λ o. o ≡ each_in (integer_in low high) parts.old) }
{
    let mut numbers = Vec::new(alloc);
    'parts: while let Some(part) = parts.next() {
        let Some(z) = short_integer(part, low, high) else {
            return Ok(None);
        };
        numbers.push(z)?;
    }
    Ok(Some(Seq::from_vec(numbers)))
}

/// The parts of a list: at most `most` with a comma between each two, or a dash for none.
#[tactic(auto, unfolding(crate::specs::Readers::list_parts))]
fn list_parts(text: &[u8], most: usize) -> Option<Parts<'_>>
    ensures { result ≡ list_parts most text.now }
{
    if text == b"-".as_slice() {
        return Some(Parts::none());
    }
    if !has_parts(text, b',', 1, most) {
        return None;
    }
    Some(Parts::new(text, b','))
}

/// A list of at most `most` numbers from 0 to 255.
#[tactic(auto, unfolding(crate::specs::Readers::list_in))]
pub(crate) fn list(alloc: Global, text: &[u8], most: usize) -> Result<Option<Seq<u8>>, AllocError>
    ensures { IfOk result (λ o. o ≡ list_in (natural_in 0 255) most text.now) }
{
    match list_parts(text, most) {
        Some(mut parts) => bytes(alloc, &mut parts),
        None => Ok(None),
    }
}

/// A list of at most `most` whole numbers from `low` to `high`.
#[tactic(auto, unfolding(crate::specs::Readers::list_in))]
pub(crate) fn numbers(
    alloc: Global,
    text: &[u8],
    low: i32,
    high: i32,
    most: usize,
) -> Result<Option<Seq<i32>>, AllocError>
    ensures { IfOk result (λ o. o ≡ list_in (integer_in low high) most text.now) }
{
    match list_parts(text, most) {
        Some(mut parts) => integers(alloc, &mut parts, low, high),
        None => Ok(None),
    }
}

/// The same, if there is some number.
#[tactic(auto, unfolding(crate::specs::Readers::some_list_in))]
pub(crate) fn some_numbers(
    alloc: Global,
    text: &[u8],
    low: i32,
    high: i32,
    most: usize,
) -> Result<Option<Seq<i32>>, AllocError>
    ensures { IfOk result (λ o. o ≡ some_list_in (integer_in low high) most text.now) }
{
    match numbers(alloc, text, low, high, most)? {
        Some(zs) if !zs.is_empty() => Ok(Some(zs)),
        _ => Ok(None),
    }
}
