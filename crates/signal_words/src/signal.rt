//! Signals in words.
ghost use Rattle.std.specs.Prelude.{◌≡◌, ◌+◌, ◌/◌, ◌%◌, ◌^◌, ◌<◌, ◌≤◌};
ghost use Rattle.std.specs.Int.{bit_at};
ghost use Rattle.sim_base.specs.BitValue.{digit_of};
ghost use Rattle.circuit.specs.Signal.{sig_number, sig_width};
ghost use Rattle.signal_words.specs.Values.{digits_in, AreInside};

use crate::piece::{piece_field, piece_sig_word};
use crate::reader::SigReader;
use circuit::Piece;
use sim_base::Values;

/// The number of a signal of at most 64 bits.
#[inline]
pub fn sig_word(sig: &[Piece], nets: &Values) -> u64
    requires inside { AreInside nets.now sig.now }
    requires small { sig_width sig.now ≤ 64 }
    ensures value { result ≡ sig_number (digits_in nets.now) sig.now }
    ensures below { result < 2 ^ sig_width sig.now }
{
    let mut word = 0u64;
    let mut offset = 0u32;
    for piece in sig {
        let part = piece_sig_word(piece, nets);
        if part.width > 0 {
            word += part.number << offset;
        }
        offset += part.width;
    }
    word
}

/// The number of `n` bits of a signal of any pieces. It stands apart so that `sig_field` stays small.
#[inline(never)]
fn field_of_pieces(sig: &[Piece], nets: &Values, at: u32, n: u32) -> u64
    requires inside { AreInside nets.now sig.now }
    requires fits { sig_width sig.now < 2 ^ 32 }
    requires small { n ≤ 64 }
    ensures { result ≡ sig_number (digits_in nets.now) sig.now / 2 ^ at % 2 ^ n }
{
    let mut reader = SigReader::new(sig, nets);
    reader.skip(at);
    reader.take(n)
}

/// The number of `n` bits, at most 64, of a signal from its bit `at` on.
#[inline]
pub fn sig_field(sig: &[Piece], nets: &Values, at: u32, n: u32) -> u64
    requires inside { AreInside nets.now sig.now }
    requires fits { sig_width sig.now < 2 ^ 32 }
    requires small { n ≤ 64 }
    ensures { result ≡ sig_number (digits_in nets.now) sig.now / 2 ^ at % 2 ^ n }
{
    if let [piece] = sig {
        let width = piece.width();
        if at <= width && n <= width - at {
            return piece_field(piece, nets, at, n);
        }
    }
    field_of_pieces(sig, nets, at, n)
}

/// Whether bit `i` of a signal is 1.
pub fn sig_bit(sig: &[Piece], nets: &Values, i: u32) -> bool
    requires inside { AreInside nets.now sig.now }
    requires fits { sig_width sig.now < 2 ^ 32 }
    ensures { digit_of result ≡ bit_at (sig_number (digits_in nets.now) sig.now) i }
{
    sig_field(sig, nets, i, 1) == 1
}
