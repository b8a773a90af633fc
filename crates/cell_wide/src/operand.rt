//! The operands of cells.
ghost use Rattle.std.specs.Prelude.{◌≡◌, ℕ, ◌==◌};
ghost use Rattle.circuit.specs.Output.{modulo, operand};
ghost use Rattle.circuit.specs.Signal.{sig_number, sig_width};
ghost use Rattle.signal_words.specs.Values.{digits_in, IsSignalOf};
ghost use Rattle.cell_wide.specs.Words.{low_of_operand};

use crate::words::{Chain, Fill, Words};
use crate::write::same;
use circuit::{Piece, sig_width};
use signal_words::{SigReader, one_piece, sig_bit, sig_word};
use sim_base::Values;

/// A signal, and behind its last bit that bit again where it is signed, or zeros.
pub type Operand<'a> = Chain<SigReader<'a>, Fill>;

/// The operand that a signal stands for, in two's complement where it is signed.
pub fn operand<'a>(sig: &'a [Piece], nets: &'a Values, signed: bool) -> Operand<'a>
    requires { IsSignalOf nets.now sig.now }
    ensures { (w : ℕ) → low_of_operand result.low result.left result.high.ones w
        ≡ modulo w (operand signed (sig_width sig.now) (sig_number (digits_in nets.now) sig.now)) }
{
    let width = sig_width(sig);
    let ones = signed && sig_bit(sig, nets, width.saturating_sub(1));
    Chain {
        low: SigReader::new(sig, nets),
        left: width,
        high: Fill { ones },
    }
}

/// Whether the number of a signal is 0.
pub fn is_zero(sig: &[Piece], nets: &Values) -> bool
    requires { IsSignalOf nets.now sig.now }
    ensures { result ≡ (sig_number (digits_in nets.now) sig.now == 0) }
{
    let width = sig_width(sig);
    if width <= 64 {
        return sig_word(sig, nets) == 0;
    }
    let mut zeros = Fill { ones: false };
    match one_piece(sig, nets) {
        Some(digits) => {
            let mut digits = digits;
            same(&mut digits, &mut zeros, width)
        }
        None => same(&mut SigReader::new(sig, nets), &mut zeros, width),
    }
}
