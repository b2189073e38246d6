//! A sink into memory of a given room, whose chosen calls fail.

ghost use Rattle.std.specs.Prelude.{◌≡◌, [], ◌<◌, ◌≤◌, ◌+◌, ◌-◌, ◌^◌, ◌↔◌, ◌⊎◌, min, length, Some, Contains, IsErr, IfOk, OnOk, MatchResult, vec_capacity};
ghost use Rattle.std.specs.Io.KnownBytes.{WriteAppends};
ghost use Rattle.devices.specs.Causes.{HasCause, IsCalm};
ghost use Rattle.devices.specs.Memory.{room_left, CountsCall};

use crate::pieces::is_listed;
use crate::{Failed, Sink};
use std::marker::Model;

/// A sink into a vector's spare room. A call takes at most a chunk. The calls whose numbers, from 0, stand in
/// a list fail, and so does a call that finds no room.
#[derive(Drop)]
pub struct MemorySink {
    bytes: Vec<u8>,
    room: usize,
    chunk: u32,
    failing: Vec<u32>,
    calls: u64,
    faults: u64,
}

impl Model for MemorySink {
    ghost use Rattle.devices.specs.Memory.{Store};
    ghost use Rattle.std.specs.Prelude.{◌<◌, ◌≤◌, length, vec_capacity};

    ghost Value = { Store };

    ghost view = { λ s. record {
      written = s.bytes.items;
      room = s.room;
      chunk = s.chunk;
      failing = s.failing.items;
      calls = s.calls;
      faults = s.faults;
    } };

    ghost invariant = { λ s. 0 < s.chunk × length s.bytes.items ≤ s.room × s.room ≤ vec_capacity s.bytes };
}

impl MemorySink {
    pub fn new(room: Vec<u8>, chunk: u32, fail: Vec<u32>) -> MemorySink
        requires empty { room.items ≡ [] }
        requires some { 0 < chunk }
        ensures { result ≡ record {
          written = [];
          room = vec_capacity room;
          chunk = chunk;
          failing = fail.items;
          calls = 0;
          faults = 0;
        } }
    {
        MemorySink {
            room: room.capacity(),
            bytes: room,
            chunk,
            failing: fail,
            calls: 0,
            faults: 0,
        }
    }

    /// What was written.
    pub fn written(&self) -> &[u8]
        ensures { result.now ≡ self.now.written }
    {
        self.bytes.as_slice()
    }

    fn count_fault(&mut self) -> Failed
        ensures { self.new ≡ record self.old { faults = min (self.old.faults + 1) (2 ^ 64 - 1) } }
    {
        self.faults = self.faults.saturating_add(1);
        Failed
    }
}

impl Sink for MemorySink {
    ghost state = { λ s. record { written = Some s.written; faults = s.faults } };

    fn write(&mut self, piece: &[u8]) -> Result<usize, Failed>
        requires { 0 < length piece.now }
        ensures some { IfOk result (λ n. 0 < n) }
        ensures bound { IfOk result (λ n. n ≤ length piece.now) }
        ensures bytes { WriteAppends (Some self.old.written) (Some self.new.written) result piece.now }
        ensures cause { HasCause self.old.faults self.new.faults result }
        ensures calm { OnOk result (IsCalm self.old.faults self.new.faults) }
        // The calls in the list fail, and so does one that finds no room. Others take what they can.
        ensures fails { IsErr result ↔ (Contains self.old.failing self.old.calls ⊎ (room_left self.old ≡ 0)) }
        ensures takes { IfOk result (λ n. n ≡ min (min (length piece.now) (room_left self.old)) self.old.chunk) }
        // Each call that fails is counted and each call, both up to the last value of the type. All else stays.
        ensures faults { MatchResult result (λ _. self.new.faults ≡ self.old.faults)
            (λ _. self.new.faults ≡ min (self.old.faults + 1) (2 ^ 64 - 1)) }
        ensures counted { CountsCall self.old self.new }
    {
        let number = self.calls;
        self.calls = self.calls.saturating_add(1);
        if is_listed(&self.failing, number) {
            return Err(self.count_fault());
        }
        let room = self.room - self.bytes.len();
        let n = piece.len().min(room).min(self.chunk as usize);
        if n == 0 {
            return Err(self.count_fault());
        }
        match self.bytes.extend_from_slice(&piece[..n]) {
            Ok(()) => Ok(n),
            Err(_) => unreachable!(),
        }
    }
}
