//! One piece, read from its least bit on.
ghost use Rattle.std.specs.Prelude.{◌≡◌, ◌-◌, ◌/◌, ◌%◌, ◌^◌, ◌<◌, ◌≤◌, ◌↔◌, length, IfSome, IsSome};
ghost use Rattle.sim_base.specs.BitValue.{bit_value};
ghost use Rattle.circuit.specs.Signal.{piece_number, piece_width, sig_value};
ghost use Rattle.signal_words.specs.Values.{digits_in, AreInside, IsInside};

use circuit::Piece;
use sim_base::{BitsView, Values};
use std::marker::Model;

/// A piece that is read from its least bit on, seen as the value of the bits that are left. It is looked up
/// once, so that to read a word takes no more than that word's place.
#[derive(Drop)]
pub struct PieceReader<'a> {
    value: BitsView<'a>,
    /// The first bit of the value that is not read.
    at: u32,
    /// How many bits are left.
    left: u32,
}

impl<'a> Model for PieceReader<'a> {
    ghost use Rattle.std.specs.Prelude.{◌+◌, ◌/◌, ◌%◌, ◌^◌, ◌≤◌};
    ghost use Rattle.sim_base.specs.BitValue.{BitValue, bit_value};

    ghost Value = { BitValue };

    ghost view = { λ r. bit_value r.left (r.value.number / 2 ^ r.at % 2 ^ r.left) };

    ghost invariant = { λ r. r.at + r.left ≤ r.value.width };
}

impl<'a> PieceReader<'a> {
    /// A piece of which nothing is read.
    fn new(piece: &'a Piece, nets: &'a Values) -> PieceReader<'a>
        requires { IsInside nets.now piece.now }
        ensures value { result ≡ bit_value (piece_width piece.now) (piece_number (digits_in nets.now) piece.now) }
        ensures below { result.number < 2 ^ result.width }
    {
        match piece {
            Piece::Const(value) => PieceReader {
                value: value.view(),
                at: 0,
                left: value.width(),
            },
            Piece::Part { net, at, width } => PieceReader {
                value: nets.view(*net),
                at: *at,
                left: *width,
            },
        }
    }

    /// How many bits are left.
    pub fn width(&self) -> u32
        ensures { result ≡ self.now.width }
    {
        self.left
    }

    /// Reads `n` bits, at most 64. Beyond the end they are 0.
    #[inline(always)]
    pub fn take(&mut self, n: u32) -> u64
        requires { n ≤ 64 }
        ensures word { result ≡ self.old.number % 2 ^ n }
        ensures rest { self.new ≡ bit_value (self.old.width - n) (self.old.number / 2 ^ n) }
    {
        if n > self.left {
            return self.take_last(n);
        }
        let _ = self.value.width();
        let word = self.value.field(self.at, n);
        self.at += n;
        self.left -= n;
        word
    }

    /// Reads all bits that are left, which are fewer than those that are asked for.
    #[inline(always)]
    fn take_last(&mut self, n: u32) -> u64
        requires small { n ≤ 64 }
        requires few { self.old.width < n }
        ensures word { result ≡ self.old.number % 2 ^ n }
        ensures rest { self.new ≡ bit_value (self.old.width - n) (self.old.number / 2 ^ n) }
    {
        let word = self.value.field(self.at, self.left);
        self.left = 0;
        word
    }
}

/// A signal that is one piece, to be read, or none.
pub fn one_piece<'a>(sig: &'a [Piece], nets: &'a Values) -> Option<PieceReader<'a>>
    requires { AreInside nets.now sig.now }
    ensures value { IfSome result (λ reader. reader ≡ sig_value (digits_in nets.now) sig.now) }
    ensures below { IfSome result (λ reader. reader.number < 2 ^ reader.width) }
    ensures some { IsSome result ↔ (length sig.now ≡ 1) }
{
    match sig {
        [piece] => Some(PieceReader::new(piece, nets)),
        _ => None,
    }
}
