//! Packets out of a stream of bytes that comes in pieces. A packet ends in a zero byte.
#![tactic(auto)]

ghost use Rattle.std.specs.Prelude.{◌≡◌, [], ◌++◌, List, ℕ, IfOk, OnOk, OnErr, slice_get};
ghost use Rattle.std.specs.Borrow.{sem};
ghost use Rattle.std.specs.Io.BufRead.{Rests};
ghost use Rattle.frame_zero.specs.Packets.{packets, Begins, packet_in, Leaves};

use memchr::memchr;
use sim_base::NoMemory;
use std::alloc::Global;
use std::marker::Model;

/// The most bytes that a packet has, its zero byte not counted.
pub const MAX_PACKET: usize = 1_048_576;

/// The bytes that a new Framer has room for.
const FIRST_ROOM: usize = 4096;

/// What stands first among the bytes that were fed and not taken.
#[derive(Clone, Copy, Debug, PartialEq, Eq)]
pub enum Frame<'a> {
    /// A packet, without its zero byte.
    Whole(&'a [u8]),
    /// More than [`MAX_PACKET`] bytes without a zero byte. No packet comes any more.
    TooLong,
    /// Less than a packet.
    NotYet,
}

/// Cuts a stream of bytes into packets. A contract sees the bytes that were fed and that no answer
/// has taken yet.
///
/// All calls together take time in proportion to the bytes that are fed: no byte is searched twice,
/// and what is left is moved to the front only where at least as many bytes were taken before it.
#[derive(Debug, Drop)]
pub struct Framer {
    bytes: Vec<u8>,
    // where the bytes begin that no answer has taken
    start: usize,
    // from `start` up to here no byte is zero
    seen: usize,
}

impl Model for Framer {
    ghost use Rattle.std.specs.Prelude.{List, ℕ, ◌≤◌, ◌<◌, ◌+◌, ◌≢◌, drop, length, slice_index};
    ghost use Rattle.frame_zero.specs.Packets.{limit};

    ghost Value = { List ℕ };

    ghost view = { λ f. drop f.start f.bytes.items };

    ghost invariant = { λ f. (f.start ≤ f.seen) × (f.seen ≤ length f.bytes.items) × (f.seen ≤ f.start + (limit + 1))
        × ((k : ℕ) → f.start ≤ k → k < f.seen → slice_index f.bytes.items k ≢ 0) };
}

impl Framer {
    ghost use Rattle.frame_zero.specs.contracts.Framer.{the_row};

    /// A Framer that was fed nothing.
    pub fn new(alloc: Global) -> Result<Framer, NoMemory>
        ensures { IfOk result (λ framer. framer ≡ []) }
    {
        Ok(Framer {
            bytes: Vec::with_capacity(alloc, FIRST_ROOM)?,
            start: 0,
            seen: 0,
        })
    }

    /// Takes the next piece of the stream, which may be cut anywhere.
    pub fn feed(&mut self, piece: &[u8]) -> Result<(), NoMemory>
        ensures fed { OnOk result (self.new ≡ self.old ++ piece.now) }
        ensures refused { OnErr result (self.new ≡ self.old) }
    {
        if self.start > self.bytes.len() - self.start {
            self.move_to_front();
        }
        self.bytes.extend_from_slice(piece)?;
        Ok(())
    }

    /// The first packet of the bytes that are left, which is taken with its zero byte; any other answer
    /// takes nothing. Once the answer is `TooLong` it stays so, whatever is fed.
    pub fn take(&mut self) -> Frame<'_>
        ensures first { packet_in result ≡ slice_get (packets self.old) 0 }
        ensures* left { sem 𝓛 (Rests the_row self.entry (λ new. Leaves result self.old new)) }
    {
        let room = (self.bytes.len() - self.start).min(MAX_PACKET + 1);
        let stop = self.start + room;
        match memchr(0, &self.bytes[self.seen..stop]) {
            Some(at) => {
                let packet = self.start..self.seen + at;
                self.start = packet.end + 1;
                self.seen = packet.end + 1;
                Frame::Whole(&self.bytes[packet])
            }
            None => {
                self.seen = stop;
                if room > MAX_PACKET {
                    Frame::TooLong
                } else {
                    Frame::NotYet
                }
            }
        }
    }

    fn move_to_front(&mut self)
        ensures { self.new ≡ self.old }
    {
        let left = self.bytes.len() - self.start;
        self.bytes.copy_within(self.start.., 0);
        self.bytes.truncate(left);
        self.seen -= self.start;
        self.start = 0;
    }
}

/// What comes later changes no packet: the packets of the beginning of a stream begin the packets of
/// the stream.
pub fn law_of_beginnings()
    ensures { (stream more : List ℕ) → Begins (packets stream) (packets (stream ++ more)) }
{}

#[cfg(test)]
mod tests {
    use super::{Frame, Framer, MAX_PACKET, law_of_beginnings};
    use sim_base::NoMemory;
    use std::test::Fail;

    const GREETING: &[u8] = b"{\"type\":\"greeting\",\"version\":0}\0";

    #[test]
    fn a_packet_is_the_same_wherever_the_stream_is_cut(rt: HostRuntime) -> Result<(), Fail> {
        assert_eq!(rt; GREETING.len(), 32);
        for cut in 1..=GREETING.len() {
            let (first, second) = GREETING.split_at(cut);
            let mut framer = Framer::new(rt.alloc())?;
            framer.feed(first)?;
            if cut < GREETING.len() {
                assert_eq!(rt; framer.take(), Frame::NotYet, "cut at {cut}");
            }
            framer.feed(second)?;
            assert_eq!(rt;
                framer.take(),
                Frame::Whole(&GREETING[..31]),
                "cut at {cut}"
            );
            assert_eq!(rt; framer.take(), Frame::NotYet, "cut at {cut}");
        }
        Ok(())
    }

    #[test]
    fn one_piece_may_hold_many_packets(rt: HostRuntime) -> Result<(), Fail> {
        let mut framer = Framer::new(rt.alloc())?;
        framer.feed(b"ab\0\0c\0de")?;
        assert_eq!(rt; framer.take(), Frame::Whole(b"ab"));
        assert_eq!(rt; framer.take(), Frame::Whole(b""));
        assert_eq!(rt; framer.take(), Frame::Whole(b"c"));
        assert_eq!(rt; framer.take(), Frame::NotYet);
        law_of_beginnings();
        framer.feed(b"\0")?;
        assert_eq!(rt; framer.take(), Frame::Whole(b"de"));
        assert_eq!(rt; framer.take(), Frame::NotYet);
        Ok(())
    }

    #[test]
    fn a_packet_has_at_most_1048576_bytes(rt: HostRuntime) -> Result<(), Fail> {
        let spaces = vec![in rt.alloc(); b' '; 1_048_576]?;
        let mut whole = Framer::new(rt.alloc())?;
        whole.feed(&spaces)?;
        assert_eq!(rt; whole.take(), Frame::NotYet);
        whole.feed(b"\0x\0")?;
        assert_eq!(rt; whole.take(), Frame::Whole(&spaces));
        assert_eq!(rt; whole.take(), Frame::Whole(b"x"));

        let endings: [&[u8]; 2] = [b" ", b" \0x\0"];
        for ending in endings {
            let mut long = Framer::new(rt.alloc())?;
            long.feed(b"a\0")?;
            long.feed(&spaces)?;
            long.feed(ending)?;
            assert_eq!(rt; long.take(), Frame::Whole(b"a"));
            assert_eq!(rt; long.take(), Frame::TooLong);
            long.feed(b"\0y\0")?;
            assert_eq!(rt; long.take(), Frame::TooLong);
        }
        Ok(())
    }

    fn feed_until_it_is_taken(framer: &mut Framer, piece: &[u8]) -> Result<(), NoMemory> {
        match framer.feed(piece) {
            Ok(()) => Ok(()),
            Err(_) => framer.feed(piece),
        }
    }

    // Where one allocation is refused, the same piece is fed again.
    #[test]
    fn a_refused_piece_leaves_all_as_it_was(rt: HostRuntime) -> Result<(), Fail> {
        let mut framer = match Framer::new(rt.alloc()) {
            Ok(framer) => framer,
            Err(_) => Framer::new(rt.alloc())?,
        };
        let mut piece = [b'a'; 3000];
        for place in 0..40u8 {
            piece[..2].copy_from_slice(&[0, place + 1]);
            feed_until_it_is_taken(&mut framer, &piece)?;
        }
        assert_eq!(rt; framer.take(), Frame::Whole(b""));
        for place in 0..39u8 {
            piece[1] = place + 1;
            assert_eq!(rt; framer.take(), Frame::Whole(&piece[1..]));
        }
        feed_until_it_is_taken(&mut framer, b"bcd\0")?;
        let last = framer.take();
        assert!(rt;
            matches!(last, Frame::Whole(last) if last.len() == 3002 && last[0] == 40 && last.ends_with(b"abcd"))
        );
        assert_eq!(rt; framer.take(), Frame::NotYet);
        Ok(())
    }

    // Where each take searched or moved what is left again, this would go over half a million million bytes.
    #[test]
    fn bytes_that_come_one_by_one_are_searched_once(rt: HostRuntime) -> Result<(), Fail> {
        let mut framer = Framer::new(rt.alloc())?;
        for _ in 0..MAX_PACKET {
            framer.feed(b" ")?;
            assert!(rt; framer.take() == Frame::NotYet);
        }
        framer.feed(b"\0")?;
        let packet = framer.take();
        assert!(rt; matches!(packet, Frame::Whole(bytes) if bytes.len() == MAX_PACKET));
        Ok(())
    }

    #[test]
    fn many_small_packets_of_one_piece_are_taken_in_turn(rt: HostRuntime) -> Result<(), Fail> {
        let zeros = vec![in rt.alloc(); 0u8; 1_048_576]?;
        let mut framer = Framer::new(rt.alloc())?;
        framer.feed(&zeros)?;
        for _ in 0..zeros.len() {
            assert!(rt; framer.take() == Frame::Whole(b""));
        }
        assert!(rt; framer.take() == Frame::NotYet);
        Ok(())
    }
}
