//! Sinks of bytes.
ghost use Rattle.std.specs.Prelude.{◌≡◌, ◌<◌, ◌≤◌, length, OnErr, OnOk};
ghost use Rattle.std.specs.Io.KnownBytes.{append_known};
ghost use Rattle.outside.specs.Faults.{Rose};
ghost use Rattle.outside.specs.Sink.{IsWithin, SinkCause, SinkSeen, Takes, TookPart};

use thiserror::Error;

/// What a sink answers to a piece.
#[derive(Clone, Copy, Debug, PartialEq, Eq)]
pub enum Put {
    /// It took so many bytes of the piece, from the first on.
    Took(usize),
    /// It took nothing, and its count of faults rose.
    Failed,
}

/// What takes bytes. Seen of it is all that it took, where it tells that, and the count of its faults; a
/// count that stands at 2^64 - 1 no longer rises.
pub trait Sink {
    ghost seen: { Self → SinkSeen };

    /// Takes bytes of the piece from its first on: one at least, or it fails.
    fn write(&mut self, piece: &[u8]) -> Put
        requires { 0 < length piece.now }
        ensures within { IsWithin result piece.now }
        ensures bytes { Takes (seen self.old) (seen self.new) result piece.now }
        ensures cause { SinkCause (seen self.old) (seen self.new) result };
}

/// A sink failed.
#[derive(Clone, Copy, Debug, PartialEq, Eq, Error)]
#[error("a sink failed")]
pub struct SinkFault;

/// Writes all of the bytes, in as many pieces as the sink asks for. No bytes are written without a call.
pub fn put_all<K: Sink>(sink: &mut K, bytes: &[u8]) -> Result<(), SinkFault>
    ensures ok { OnOk result ((K.seen sink.new).held ≡ append_known (K.seen sink.old).held bytes.now) }
    ensures err { OnErr result (TookPart (K.seen sink.old).held (K.seen sink.new).held bytes.now) }
    ensures unfailed { OnOk result ((K.seen sink.new).faults ≡ (K.seen sink.old).faults) }
    ensures failed { OnErr result (Rose (K.seen sink.old).faults (K.seen sink.new).faults) }
    ensures later { (K.seen sink.old).faults ≤ (K.seen sink.new).faults }
{
    let mut done = 0;
    while done < bytes.len() {
        match sink.write(&bytes[done..]) {
            Put::Took(count) => done += count,
            Put::Failed => return Err(SinkFault),
        }
    }
    Ok(())
}
