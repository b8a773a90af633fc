//! Signals, read from the least bit on.
ghost use Rattle.std.specs.Prelude.{◌≡◌, ◌-◌, ◌/◌, ◌%◌, ◌^◌, ◌<◌, ◌≤◌};
ghost use Rattle.sim_base.specs.BitValue.{bit_value};
ghost use Rattle.circuit.specs.Signal.{sig_value, sig_width};
ghost use Rattle.signal_words.specs.Values.{digits_in, AreInside};

use crate::piece::piece_field;
use circuit::Piece;
use sim_base::Values;
use std::marker::Model;

/// A signal that is read from its least bit on, seen as the value of the bits that are left. To read
/// it to its end takes a time that grows with its pieces and words alone.
#[derive(Drop)]
pub struct SigReader<'a> {
    nets: &'a Values,
    pieces: &'a [Piece],
    /// How many bits of the first piece are read.
    at: u32,
}

impl<'a> Model for SigReader<'a> {
    ghost use Rattle.std.specs.Prelude.{◌-◌, ◌/◌, ◌^◌};
    ghost use Rattle.sim_base.specs.BitValue.{BitValue, bit_value};
    ghost use Rattle.circuit.specs.Signal.{sig_number, sig_width};
    ghost use Rattle.signal_words.specs.Values.{digits_in, IsPlace};

    ghost Value = { BitValue };

    ghost view = { λ r. bit_value (sig_width r.pieces.now - r.at) (sig_number (digits_in r.nets.now) r.pieces.now / 2 ^ r.at) };

    ghost invariant = { λ r. IsPlace r.nets.now r.pieces.now r.at };
}

impl<'a> SigReader<'a> {
    /// A signal of which nothing is read.
    pub fn new(sig: &'a [Piece], nets: &'a Values) -> SigReader<'a>
        requires inside { AreInside nets.now sig.now }
        requires fits { sig_width sig.now < 2 ^ 32 }
        ensures { result ≡ sig_value (digits_in nets.now) sig.now }
    {
        SigReader {
            nets,
            pieces: sig,
            at: 0,
        }
    }

    /// Reads `n` bits, at most 64. Beyond the end they are 0.
    #[inline]
    pub fn take(&mut self, n: u32) -> u64
        requires { n ≤ 64 }
        ensures word { result ≡ self.old.number % 2 ^ n }
        ensures rest { self.new ≡ bit_value (self.old.width - n) (self.old.number / 2 ^ n) }
    {
        if let Some((piece, _)) = self.pieces.split_first() {
            let at = self.at;
            let left = piece.width() - at;
            if n < left {
                let word = piece_field(piece, self.nets, at, n);
                self.at = at + n;
                return word;
            }
        }
        self.take_across(n)
    }

    /// Reads `n` bits where the first piece may end before them.
    #[inline(never)]
    fn take_across(&mut self, n: u32) -> u64
        requires { n ≤ 64 }
        ensures word { result ≡ self.old.number % 2 ^ n }
        ensures rest { self.new ≡ bit_value (self.old.width - n) (self.old.number / 2 ^ n) }
    {
        let (mut pieces, mut at) = (self.pieces, self.at);
        let mut word = 0u64;
        let mut taken = 0u32;
        while taken < n {
            let Some((piece, behind)) = pieces.split_first() else {
                break;
            };
            let left = piece.width() - at;
            let width = left.min(n - taken);
            word += piece_field(piece, self.nets, at, width) << taken;
            taken += width;
            if width < left {
                at += width;
            } else {
                pieces = behind;
                at = 0;
            }
        }
        self.pieces = pieces;
        self.at = at;
        word
    }

    /// Passes over `n` bits.
    pub fn skip(&mut self, n: u32)
        ensures { self.new ≡ bit_value (self.old.width - n) (self.old.number / 2 ^ n) }
    {
        let (mut pieces, mut at) = (self.pieces, self.at);
        let mut more = n;
        while more > 0 {
            let Some((piece, behind)) = pieces.split_first() else {
                break;
            };
            let left = piece.width() - at;
            let width = left.min(more);
            more -= width;
            if width < left {
                at += width;
            } else {
                pieces = behind;
                at = 0;
            }
        }
        self.pieces = pieces;
        self.at = at;
    }
}
