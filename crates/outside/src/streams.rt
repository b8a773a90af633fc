//! The standard streams as sinks.
ghost use Rattle.std.specs.Prelude.{◌≡◌, ◌<◌, length};
ghost use Rattle.outside.specs.Sink.{IsWithin, SinkCause, Takes};
ghost use Rattle.outside.specs.Stream.{Hands, faults_of, seen_of, writer_of};

use crate::calls::one_more;
use crate::sink::{Put, Sink};
use std::io::{Stderr, Stdout, Write};

/// A sink over a writer of std, which is handed each piece at once: there is no buffer between. It tells
/// nothing of what it took. A writer that takes nothing of a piece has failed.
#[derive(Drop)]
pub struct Stream<W> {
    writer: W,
    faults: u64,
}

/// The standard output.
pub type StdOut = Stream<Stdout>;

/// The standard error.
pub type StdErr = Stream<Stderr>;

impl<W: Write> Stream<W> {
    pub fn new(writer: W) -> Stream<W>
        ensures writer { writer_of result ≡ writer }
        ensures faults { faults_of result ≡ 0 }
    {
        Stream { writer, faults: 0 }
    }
}

impl<W: Write> Sink for Stream<W> {
    ghost seen = { λ s. seen_of s };

    fn write(&mut self, piece: &[u8]) -> Put
        requires { 0 < length piece.now }
        ensures within { IsWithin result piece.now }
        ensures bytes { Takes (seen_of self.old) (seen_of self.new) result piece.now }
        ensures cause { SinkCause (seen_of self.old) (seen_of self.new) result }
        ensures handed { Hands (W.contents (writer_of self.old)) (W.contents (writer_of self.new)) result piece.now }
    {
        match self.writer.write(piece) {
            Ok(count) if count > 0 => Put::Took(count),
            _ => {
                self.faults = one_more(self.faults);
                Put::Failed
            }
        }
    }
}
