//! Sources of bytes.
ghost use Rattle.std.specs.Prelude.{◌≡◌, ◌<◌, length};
ghost use Rattle.outside.specs.Source.{Gives, IsGot, SourceCause, SourceSeen, Stays};

/// What a source answers to a buffer.
#[derive(Clone, Copy, Debug, PartialEq, Eq)]
pub enum Got {
    /// It gave so many bytes, which stand at the front of the buffer.
    Bytes(usize),
    /// It has nothing more to give.
    End,
    /// It gave nothing, and its count of faults rose.
    Failed,
}

/// What gives bytes. Seen of it is all that it has left to give, where it tells that, whether it is at its
/// end, and the count of its faults; a count that stands at 2^64 - 1 no longer rises.
pub trait Source {
    ghost seen: { Self → SourceSeen };

    /// Puts the next bytes at the front of the buffer: one at least, unless it fails or is at its end. A
    /// source that is at its end stays there. What stands behind the bytes that it gave is unknown.
    fn read(&mut self, buf: &mut [u8]) -> Got
        requires { 0 < length buf.old }
        ensures room { length buf.new ≡ length buf.old }
        ensures within { IsGot result (length buf.old) }
        ensures bytes { Gives (seen self.old) (seen self.new) result buf.new }
        ensures stays { Stays (seen self.old) (seen self.new) result }
        ensures cause { SourceCause (seen self.old) (seen self.new) result };
}
