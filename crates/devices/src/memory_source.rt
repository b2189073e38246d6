//! A source over bytes in memory whose chosen calls fail.

ghost use Rattle.std.specs.Prelude.{◌≡◌, ◌<◌, ◌≤◌, ◌+◌, ◌-◌, ◌^◌, ◌↔◌, min, length, Some, Contains, IsErr, IfOk, OnOk, MatchResult};
ghost use Rattle.std.specs.Io.KnownBytes.{ReadConsumes};
ghost use Rattle.devices.specs.Causes.{HasCause, IsCalm};

use crate::pieces::{copy_from, is_listed};
use crate::{Failed, Source};
use std::marker::Model;

/// A source over bytes in memory. The calls whose numbers, from 0, stand in a list fail.
#[derive(Drop)]
pub struct MemorySource {
    bytes: Vec<u8>,
    at: usize,
    failing: Vec<u32>,
    calls: u64,
    faults: u64,
}

impl Model for MemorySource {
    ghost use Rattle.devices.specs.Memory.{Feed};
    ghost use Rattle.std.specs.Prelude.{drop, ◌≤◌, length};

    ghost Value = { Feed };

    ghost view = { λ s. record {
      left = drop s.at s.bytes.items;
      failing = s.failing.items;
      calls = s.calls;
      faults = s.faults;
    } };

    ghost invariant = { λ s. s.at ≤ length s.bytes.items };
}

impl MemorySource {
    pub fn new(bytes: Vec<u8>, fail: Vec<u32>) -> MemorySource
        ensures { result ≡ record { left = bytes.items; failing = fail.items; calls = 0; faults = 0 } }
    {
        MemorySource {
            bytes,
            at: 0,
            failing: fail,
            calls: 0,
            faults: 0,
        }
    }
}

impl Source for MemorySource {
    ghost state = { λ s. record { left = Some s.left; faults = s.faults } };

    #[tactic(auto, using(crate::proofs::SourceLemmas::left_after, crate::proofs::SourceLemmas::at_end))]
    fn read(&mut self, into: &mut [u8]) -> Result<usize, Failed>
        requires { 0 < length into.old }
        ensures bound { IfOk result (λ n. n ≤ length into.new) }
        ensures bytes { ReadConsumes (Some self.old.left) (Some self.new.left) result into.new }
        ensures cause { HasCause self.old.faults self.new.faults result }
        ensures calm { OnOk result (IsCalm self.old.faults self.new.faults) }
        // The calls in the list fail, and others give as much as the piece has room for.
        ensures fails { IsErr result ↔ Contains self.old.failing self.old.calls }
        ensures fills { IfOk result (λ n. n ≡ min (length into.old) (length self.old.left)) }
        // Each call that fails is counted and each call, both up to the last value of the type, and the list stays.
        ensures faults { MatchResult result (λ _. self.new.faults ≡ self.old.faults)
            (λ _. self.new.faults ≡ min (self.old.faults + 1) (2 ^ 64 - 1)) }
        ensures counted { self.new.calls ≡ min (self.old.calls + 1) (2 ^ 64 - 1) }
        ensures listed { self.new.failing ≡ self.old.failing }
    {
        let number = self.calls;
        self.calls = self.calls.saturating_add(1);
        if is_listed(&self.failing, number) {
            self.faults = self.faults.saturating_add(1);
            return Err(Failed);
        }
        let n = copy_from(&self.bytes, self.at, into);
        self.at += n;
        Ok(n)
    }
}
