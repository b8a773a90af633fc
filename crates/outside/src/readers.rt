//! The standard input as a source.
ghost use Rattle.std.specs.Prelude.{◌≡◌, ◌<◌, length, false, IsTrue};
ghost use Rattle.std.specs.Io.{ReadsAtMost};
ghost use Rattle.std.specs.Io.KnownBytes.{IsAtEnd, ReadConsumes};
ghost use Rattle.outside.specs.Reader.{Hands, faults_of, is_ended, reader_of, seen_of};
ghost use Rattle.outside.specs.Source.{Gives, IsGot, SourceCause, Stays};

use crate::calls::one_more;
use crate::source::{Got, Source};
use std::io::{self, ErrorKind, Read, Stdin};

/// A source over a reader of std, which is asked at each call: there is no buffer between. It tells
/// nothing of what is left. Where a signal interrupts a read, it is begun again; each other error of the
/// reader is a fault. Once the reader gives nothing the source is at its end, and asks it no more.
#[derive(Drop)]
pub struct Reader<R> {
    reader: R,
    ended: bool,
    faults: u64,
}

/// The standard input.
pub type StdIn = Reader<Stdin>;

impl<R: Read> Reader<R> {
    pub fn new(reader: R) -> Reader<R>
        ensures reader { reader_of result ≡ reader }
        ensures going { is_ended result ≡ false }
        ensures faults { faults_of result ≡ 0 }
    {
        Reader {
            reader,
            ended: false,
            faults: 0,
        }
    }
}

impl<R: Read> Source for Reader<R> {
    ghost seen = { λ s. seen_of s };

    fn read(&mut self, buf: &mut [u8]) -> Got
        requires { 0 < length buf.old }
        ensures room { length buf.new ≡ length buf.old }
        ensures within { IsGot result (length buf.old) }
        ensures bytes { Gives (seen_of self.old) (seen_of self.new) result buf.new }
        ensures stays { Stays (seen_of self.old) (seen_of self.new) result }
        ensures cause { SourceCause (seen_of self.old) (seen_of self.new) result }
        ensures handed { Hands (R.remaining (reader_of self.old)) (R.remaining (reader_of self.new)) result buf.new }
        ensures ended { IsTrue (is_ended self.old) → result ≡ Got.End }
        ensures all { is_ended self.old ≡ false → result ≡ Got.End → IsAtEnd (R.remaining (reader_of self.new)) }
    {
        if self.ended {
            return Got::End;
        }
        match read_uninterrupted(&mut self.reader, buf) {
            Ok(0) => {
                self.ended = true;
                Got::End
            }
            Ok(count) => Got::Bytes(count),
            Err(_) => {
                self.faults = one_more(self.faults);
                Got::Failed
            }
        }
    }
}

/// One read, begun again where a signal interrupts it.
fn read_uninterrupted<R: Read>(reader: &mut R, buf: &mut [u8]) -> io::Result<usize>
    ensures room { length buf.new ≡ length buf.old }
    ensures bound { ReadsAtMost result buf.new }
    ensures bytes { ReadConsumes (R.remaining reader.old) (R.remaining reader.new) result buf.new }
{
    for _ in 1..u64::MAX {
        match reader.read(buf) {
            Err(error) if error.kind() == ErrorKind::Interrupted => {}
            answer => return answer,
        }
    }
    reader.read(buf)
}
