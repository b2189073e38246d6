//! The parts of a text round a separator, one after the other.

ghost use Rattle.std.specs.Prelude.{◌≡◌, ◌==◌, ◌<◌, [], ◌∷◌, length, position, MatchOption, IfSome};
ghost use Rattle.std.specs.List.{slice_split};
ghost use Rattle.certificate.specs.Readers.{has_parts};

use std::marker::Model;

/// The parts that are still to be read.
#[derive(Drop)]
pub(crate) struct Parts<'a> {
    rest: Option<&'a [u8]>,
    at: u8,
}

impl<'a> Model for Parts<'a> {
    ghost use Rattle.std.specs.Prelude.{ℕ, List, [], ◌==◌};
    ghost use Rattle.std.specs.Option.{option_map_or};
    ghost use Rattle.std.specs.List.{slice_split};

    ghost Value = { List (List ℕ) };

    ghost view = { λ p. option_map_or (λ text. slice_split (λ b. b == p.at) text.now) p.rest [] };
}

impl<'a> Parts<'a> {
    pub(crate) fn new(text: &'a [u8], at: u8) -> Parts<'a>
        ensures { result ≡ slice_split (λ b. b == at) text.now }
    {
        Parts {
            rest: Some(text),
            at,
        }
    }

    /// No part.
    pub(crate) fn none() -> Parts<'a>
        ensures { result ≡ [] }
    {
        Parts { rest: None, at: 0 }
    }

    pub(crate) fn next(&mut self) -> Option<&'a [u8]>
        ensures { MatchOption result ((self.old ≡ []) × (self.new ≡ [])) (λ part. self.old ≡ part.now ∷ self.new) }
    {
        let text = self.rest?;
        match cut(text, self.at) {
            Some((part, rest)) => {
                self.rest = Some(rest);
                Some(part)
            }
            None => {
                self.rest = None;
                Some(text)
            }
        }
    }

    pub(crate) fn copy(&self) -> Parts<'a>
        ensures { result ≡ self.now }
    {
        Parts {
            rest: self.rest,
            at: self.at,
        }
    }

    pub(crate) fn is_empty(&self) -> bool
        ensures { result ≡ (length self.now == 0) }
    {
        self.rest.is_none()
    }
}

/// Whether the text has from `least` to `most` parts, none of them empty.
pub(crate) fn has_parts(text: &[u8], at: u8, least: usize, most: usize) -> bool
    ensures { result ≡ has_parts least most (slice_split (λ b. b == at) text.now) }
{
    let mut parts = Parts::new(text, at);
    let mut count = 0;
    'parts: while let Some(part) = parts.next() {
        if part.is_empty() {
            return false;
        }
        if count == most {
            return false;
        }
        count += 1;
    }
    least <= count
}

/// The place of the first such byte.
fn first_at(text: &[u8], at: u8) -> Option<usize>
    ensures exact { result ≡ position (λ b. b == at) text.now }
    ensures within { IfSome result (λ i. i < length text.now) }
{
    text.iter().position(|b| *b == at)
}

/// What stands before the first such byte, and what stands behind it.
fn cut(text: &[u8], at: u8) -> Option<(&[u8], &[u8])>
    ensures { MatchOption result (slice_split (λ b. b == at) text.now ≡ text.now ∷ [])
        (λ x. slice_split (λ b. b == at) text.now ≡ x.0.now ∷ slice_split (λ b. b == at) x.1.now) }
{
    let i = first_at(text, at)?;
    let (front, back) = text.split_at(i);
    Some((front, &back[1..]))
}
