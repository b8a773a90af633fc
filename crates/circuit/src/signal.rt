//! What drives, pieces and signals: their first bits and their widths.
ghost use Rattle.std.specs.Prelude.{◌≡◌, ◌^◌, ◌<◌};
ghost use Rattle.circuit.specs.Below.{AreConstantsBelow};
ghost use Rattle.circuit.specs.Signal.{AreBits, Digits, piece_number, piece_width, sig_number, sig_width};
ghost use Rattle.circuit.specs.Valuation.{offset_of};

use crate::netlist::{By, Piece};

impl By {
    /// The first bit that is taken of what drives.
    #[inline]
    pub fn offset(&self) -> u32
        ensures { result ≡ offset_of self.now }
    {
        match self {
            By::Const(_) => 0,
            By::Input(_, at)
            | By::Wire(_, at)
            | By::Cell(_, at)
            | By::Reg(_, at)
            | By::Read(_, _, at) => *at,
        }
    }
}

impl Piece {
    /// How many bits the piece has. Its number is below 2 to their number.
    #[inline]
    pub fn width(&self) -> u32
        ensures value { result ≡ piece_width self.now }
        ensures fits { piece_width self.now < 2 ^ 32 }
        ensures below { (digits : Digits) → AreBits digits → piece_number digits self.now < 2 ^ piece_width self.now }
    {
        match self {
            Piece::Const(value) => value.width(),
            Piece::Part { width, .. } => *width,
        }
    }
}

/// The width of a signal in bits. Its number is below 2 to the width.
#[inline]
pub fn sig_width(sig: &[Piece]) -> u32
    requires { sig_width sig.now < 2 ^ 32 }
    ensures value { result ≡ sig_width sig.now }
    ensures below { (digits : Digits) → AreBits digits → sig_number digits sig.now < 2 ^ sig_width sig.now }
    ensures constants { AreConstantsBelow sig.now }
{
    let mut width = 0u32;
    for piece in sig {
        width += piece.width();
    }
    width
}
