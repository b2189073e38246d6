//! A source and a sink that never fail.

ghost use Rattle.std.specs.Prelude.{◌≡◌, ◌<◌, ◌≤◌, ◌+◌, ◌-◌, ◌^◌, min, length, IfOk, OnOk, Ok, Some, None};
ghost use Rattle.std.specs.Io.KnownBytes.{WriteAppends};
ghost use Rattle.devices.specs.Causes.{HasCause, IsCalm};

use crate::pieces::copy_from;
use crate::{Failed, Sink, Source};
use std::marker::Model;

/// A source over bytes in memory.
#[derive(Drop)]
pub struct PlainSource {
    bytes: Vec<u8>,
    at: usize,
}

impl Model for PlainSource {
    ghost use Rattle.std.specs.Prelude.{List, ℕ, drop, ◌≤◌, length};

    ghost Value = { List ℕ };

    ghost view = { λ s. drop s.at s.bytes.items };

    ghost invariant = { λ s. s.at ≤ length s.bytes.items };
}

impl PlainSource {
    pub fn new(bytes: Vec<u8>) -> PlainSource
        ensures { result ≡ bytes.items }
    {
        PlainSource { bytes, at: 0 }
    }
}

impl Source for PlainSource {
    ghost state = { λ s. record { left = Some s; faults = 0 } };

    #[tactic(auto, using(crate::proofs::SourceLemmas::left_after, crate::proofs::SourceLemmas::at_end))]
    fn read(&mut self, into: &mut [u8]) -> Result<usize, Failed> {
        let n = copy_from(&self.bytes, self.at, into);
        self.at += n;
        Ok(n)
    }
}

/// A sink that counts the bytes and keeps none.
#[derive(Drop)]
pub struct PlainSink {
    taken: u64,
}

impl Model for PlainSink {
    ghost use Rattle.std.specs.Prelude.{ℕ};

    ghost Value = { ℕ };

    ghost view = { λ s. s.taken };
}

impl PlainSink {
    pub fn new() -> PlainSink
        ensures { result ≡ 0 }
    {
        PlainSink { taken: 0 }
    }

    /// How many bytes were taken, up to the last value of the type.
    pub fn taken(&self) -> u64
        ensures { result ≡ self.now }
    {
        self.taken
    }
}

impl Sink for PlainSink {
    ghost state = { λ _. record { written = None; faults = 0 } };

    fn write(&mut self, piece: &[u8]) -> Result<usize, Failed>
        requires { 0 < length piece.now }
        ensures all { result ≡ Ok (length piece.now) }
        ensures taken { self.new ≡ min (self.old + length piece.now) (2 ^ 64 - 1) }
        ensures some { IfOk result (λ n. 0 < n) }
        ensures bound { IfOk result (λ n. n ≤ length piece.now) }
        ensures bytes { WriteAppends None None result piece.now }
        ensures cause { HasCause 0 0 result }
        ensures calm { OnOk result (IsCalm 0 0) }
    {
        self.taken = self.taken.saturating_add(piece.len() as u64);
        Ok(piece.len())
    }
}
