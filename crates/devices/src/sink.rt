//! A sink of bytes.

ghost use Rattle.std.specs.Prelude.{◌<◌, ◌≤◌, length, IfOk, OnOk, OnErr};
ghost use Rattle.std.specs.Io.KnownBytes.{WriteAppends, Appends};
ghost use Rattle.devices.specs.Causes.{HasCause, IsCalm};
ghost use Rattle.devices.specs.Taken.{SinkState, AppendsFront};

use crate::Failed;

pub trait Sink {
    /// The bytes written so far, where the sink tells them, and how often a call failed.
    ghost state: { Self → SinkState };

    /// Appends the front of the piece, and says how many bytes.
    fn write(&mut self, piece: &[u8]) -> Result<usize, Failed>
        requires { 0 < length piece.now }
        ensures some { IfOk result (λ n. 0 < n) }
        ensures bound { IfOk result (λ n. n ≤ length piece.now) }
        ensures bytes { WriteAppends (state self.old).written (state self.new).written result piece.now }
        ensures cause { HasCause (state self.old).faults (state self.new).faults result }
        ensures calm { OnOk result (IsCalm (state self.old).faults (state self.new).faults) };
}

/// Writes all of the bytes.
pub fn write_all<K: Sink>(sink: &mut K, bytes: &[u8]) -> Result<(), Failed>
    ensures ok { OnOk result (Appends (K.state sink.old).written (K.state sink.new).written bytes.now) }
    // A proper prefix was written.
    ensures err { OnErr result (AppendsFront (K.state sink.old).written (K.state sink.new).written bytes.now) }
    ensures cause { HasCause (K.state sink.old).faults (K.state sink.new).faults result }
    ensures calm { OnOk result (IsCalm (K.state sink.old).faults (K.state sink.new).faults) }
{
    let mut at = 0;
    while at < bytes.len() {
        at += sink.write(&bytes[at..])?;
    }
    Ok(())
}
