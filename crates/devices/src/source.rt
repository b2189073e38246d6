//! A source of bytes.

ghost use Rattle.std.specs.Prelude.{◌≡◌, ◌≢◌, ◌<◌, ◌≤◌, ◌+◌, length, IfOk, OnOk};
ghost use Rattle.std.specs.Io.KnownBytes.{ReadConsumes, Consumes, IsAtEnd};
ghost use Rattle.devices.specs.Causes.{Rose, HasCause, IsCalm};
ghost use Rattle.devices.specs.Taken.{SourceState, Takes, TakesPast, TakesWithin, ConsumesAtMost, limit_for};
ghost use Rattle.devices.specs.declared.source.ReadError.TheVariants.{NoMemory};

use std::alloc::{AllocError, AllocFailed, Global};
use thiserror::Error;

/// A call of a device failed.
#[derive(Clone, Copy, Debug, PartialEq, Eq)]
pub struct Failed;

pub trait Source {
    /// The bytes still to come, where the source tells them, and how often a call failed.
    ghost state: { Self → SourceState };

    /// Moves the next bytes into the front of the piece, and says how many. None is the end.
    fn read(&mut self, into: &mut [u8]) -> Result<usize, Failed>
        requires { 0 < length into.old }
        ensures bound { IfOk result (λ n. n ≤ length into.new) }
        ensures bytes { ReadConsumes (state self.old).left (state self.new).left result into.new }
        ensures cause { HasCause (state self.old).faults (state self.new).faults result }
        ensures calm { OnOk result (IsCalm (state self.old).faults (state self.new).faults) };
}

/// Why a source was not read to its end.
#[derive(Clone, Copy, Debug, PartialEq, Eq, Error)]
pub enum ReadError {
    /// One byte more than the limit was taken.
    #[error("the input is too long")]
    TooLong,
    /// The source failed.
    #[error("the source failed")]
    Failed,
    #[error("out of memory")]
    NoMemory,
}

impl From<Failed> for ReadError {
    ghost use Rattle.std.specs.Prelude.{◌≡◌};
    ghost use Rattle.devices.specs.declared.source.ReadError.TheVariants as errors;

    ghost from_gives = { λ _ e. e ≡ errors.Failed };

    fn from(_: Failed) -> Self {
        ReadError::Failed
    }
}

impl From<AllocError> for ReadError {
    ghost from_gives = { λ _ e. e ≡ NoMemory };

    fn from(_: AllocError) -> Self {
        ReadError::NoMemory
    }
}

impl<T: Drop> From<AllocFailed<T>> for ReadError {
    ghost from_gives = { λ _ e. e ≡ NoMemory };

    fn from(_: AllocFailed<T>) -> Self {
        ReadError::NoMemory
    }
}

const PIECE: usize = 4096;

/// All bytes of a source up to its end, if there are at most `limit`.
pub fn read_all<S: Source>(alloc: Global, source: &mut S, limit: u64) -> Result<Vec<u8>, ReadError>
    ensures ok { IfOk result (λ v. Consumes (S.state source.old).left (S.state source.new).left v.items
        × IsAtEnd (S.state source.new).left) }
    ensures within { IfOk result (λ v. length v.items ≤ limit) }
    // Too long is one byte more than the limit, and with any other answer no more than the limit is taken.
    ensures too_long { result ≡ Err ReadError.TooLong
        → Takes (S.state source.old).left (S.state source.new).left (limit + 1) }
    ensures others { result ≢ Err ReadError.TooLong
        → ConsumesAtMost (S.state source.old).left (S.state source.new).left limit }
    ensures failed { result ≡ Err ReadError.Failed → Rose (S.state source.old).faults (S.state source.new).faults }
    ensures calm { result ≢ Err ReadError.Failed → IsCalm (S.state source.old).faults (S.state source.new).faults }
{
    read_within(alloc, source, limit, &[], limit)
}

/// How many bytes may be read: `most`, or `with_head` where they begin with the head.
pub fn limit_for(most: u64, head: &[u8], with_head: u64, bytes: &[u8]) -> u64
    ensures { result ≡ limit_for most head.now with_head bytes.now }
{
    if bytes.starts_with(head) {
        with_head
    } else {
        most
    }
}

/// How many bytes to ask for next: up to the end of the head, so that the limit of all that follows is known, and else at
/// most one more than there is room for.
fn next_size(read: usize, head: usize, room: u64) -> usize
    ensures some { 1 ≤ result }
    ensures piece { result ≤ 4096 }
    ensures head { read < head → read + result ≤ head }
    ensures room { head ≤ read → result ≤ room + 1 }
{
    if read < head {
        (head - read).min(PIECE)
    } else {
        room.min(PIECE as u64 - 1) as usize + 1
    }
}

/// All bytes of a source up to its end, if there are at most `most`, or at most `with_head` where they begin with the
/// head.
pub fn read_within<S: Source>(
    alloc: Global,
    source: &mut S,
    most: u64,
    head: &[u8],
    with_head: u64,
) -> Result<Vec<u8>, ReadError>
    requires short { length head.now ≤ most }
    requires wide { most ≤ with_head }
    ensures ok { IfOk result (λ v. Consumes (S.state source.old).left (S.state source.new).left v.items
        × IsAtEnd (S.state source.new).left) }
    ensures within { IfOk result (λ v. length v.items ≤ limit_for most head.now with_head v.items) }
    // Too long is one byte more than the limit, and with any other answer no more than the limit is taken.
    ensures too_long { result ≡ Err ReadError.TooLong
        → TakesPast (limit_for most head.now with_head) (S.state source.old).left (S.state source.new).left }
    ensures others { result ≢ Err ReadError.TooLong
        → TakesWithin (limit_for most head.now with_head) (S.state source.old).left (S.state source.new).left }
    ensures failed { result ≡ Err ReadError.Failed → Rose (S.state source.old).faults (S.state source.new).faults }
    ensures calm { result ≢ Err ReadError.Failed → IsCalm (S.state source.old).faults (S.state source.new).faults }
{
    let mut bytes = Vec::new(alloc);
    let mut piece = [0u8; PIECE];
    'pieces: loop {
        let room = limit_for(most, head, with_head, &bytes) - bytes.len() as u64;
        let size = next_size(bytes.len(), head.len(), room);
        let n = source.read(&mut piece[..size])?;
        if n == 0 {
            return Ok(bytes);
        }
        if n as u64 > room {
            return Err(ReadError::TooLong);
        }
        bytes.extend_from_slice(&piece[..n])?;
    }
}
