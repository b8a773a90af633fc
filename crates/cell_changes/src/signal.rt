//! Signals in two lists of the values of nets.
ghost use Rattle.std.specs.Prelude.{◌≡◌, ◌==◌};
ghost use Rattle.circuit.specs.Signal.{sig_number};
ghost use Rattle.signal_words.specs.Values.{digits_in, IsSignalOf};

use circuit::{Piece, sig_width};
use signal_words::{SigReader, sig_word};
use sim_base::Values;

/// Whether a signal has the same number in both, a word of 64 bits after the other.
#[inline(never)]
fn is_same_wide(sig: &[Piece], before: &Values, now: &Values) -> bool
    requires before { IsSignalOf before.now sig.now }
    requires now { IsSignalOf now.now sig.now }
    ensures { result ≡ (sig_number (digits_in before.now) sig.now == sig_number (digits_in now.now) sig.now) }
{
    let mut left = sig_width(sig);
    let mut old = SigReader::new(sig, before);
    let mut new = SigReader::new(sig, now);
    while left > 0 {
        if old.take(64) != new.take(64) {
            return false;
        }
        left = left.saturating_sub(64);
    }
    true
}

/// Whether a signal has the same number in both.
#[inline]
pub fn is_same(sig: &[Piece], before: &Values, now: &Values) -> bool
    requires before { IsSignalOf before.now sig.now }
    requires now { IsSignalOf now.now sig.now }
    ensures { result ≡ (sig_number (digits_in before.now) sig.now == sig_number (digits_in now.now) sig.now) }
{
    if sig_width(sig) <= 64 {
        return sig_word(sig, before) == sig_word(sig, now);
    }
    is_same_wide(sig, before, now)
}
