//! The ports of cells, of at most 128 bits.
ghost use Rattle.std.specs.Prelude.{◌≡◌, ◌<◌, ◌≤◌, ◌^◌};
ghost use Rattle.circuit.specs.Signal.{sig_number, sig_width};
ghost use Rattle.signal_words.specs.Values.{digits_in, AreInside};

use circuit::{Piece, sig_width};
use signal_words::{SigReader, SigWord, sig_word};
use sim_base::Values;

/// The value of a port of at most 128 bits.
#[derive(Clone, Copy, Debug)]
pub struct Port {
    /// In bits.
    pub width: u32,
    pub number: u128,
}

impl Port {
    /// The value of a port of at most 64 bits.
    #[inline(always)]
    pub fn of(word: SigWord) -> Port
        ensures width { result.width ≡ word.width }
        ensures number { result.number ≡ word.number }
    {
        Port {
            width: word.width,
            number: u128::from(word.number),
        }
    }
}

/// The value of a port of any pieces.
pub fn port_of(sig: &[Piece], nets: &Values) -> Port
    requires inside { AreInside nets.now sig.now }
    requires narrow { sig_width sig.now ≤ 128 }
    ensures width { result.width ≡ sig_width sig.now }
    ensures number { result.number ≡ sig_number (digits_in nets.now) sig.now }
    ensures below { result.number < 2 ^ result.width }
{
    let width = sig_width(sig);
    if width <= 64 {
        let number = u128::from(sig_word(sig, nets));
        return Port { width, number };
    }
    let mut reader = SigReader::new(sig, nets);
    let low = reader.take(64);
    let high = reader.take(64);
    let number = (u128::from(high) << 64) + u128::from(low);
    Port { width, number }
}
