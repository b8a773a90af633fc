//! The digits of a moved operand, read from the least on.
ghost use Rattle.std.specs.Prelude.{◌≡◌, ◌+◌, ◌-◌, ◌*◌, ◌/◌, ◌%◌, ◌^◌, ◌<◌, ◌≤◌, ◌==◌, not, length};
ghost use Rattle.sim_base.specs.BitValue.{bit_value};
ghost use Rattle.circuit.specs.Signal.{sig_value, sig_width};
ghost use Rattle.signal_words.specs.Values.{digits_in, AreInside};
ghost use Rattle.sim_base.specs.Values.{IsPut, width_at};
ghost use Rattle.cell_words.specs.Shifts.{extended, moved};

use crate::shift::Shift;
use circuit::{Piece, sig_width};
use signal_words::{SigReader, ones_word};
use sim_base::Values;
use std::marker::Model;

/// A signal with digits 1 in front of its own, seen as the number of the digits that are left to be read.
#[derive(Drop)]
pub struct Extended<'a> {
    signal: SigReader<'a>,
    /// How many digits of the signal are left.
    own: u32,
    /// How many digits 1 are left.
    ones: u32,
}

impl<'a> Model for Extended<'a> {
    ghost use Rattle.std.specs.Prelude.{◌≡◌, ℕ, ◌^◌, ◌<◌};
    ghost use Rattle.cell_words.specs.Shifts.{extended};

    ghost Value = { ℕ };

    ghost view = { λ e. extended e.ones e.signal };

    ghost invariant = { λ e. (e.signal.width ≡ e.own) × (e.signal.number < 2 ^ e.own) };
}

/// A word of `own` digits with `ones` digits 1 in front.
fn with_ones(word: u64, own: u32, ones: u32) -> u64
    requires inside { own + ones ≤ 64 }
    requires below { word < 2 ^ own }
    ensures { result ≡ (2 ^ ones - 1) * 2 ^ own + word }
{
    if ones == 0 {
        return word;
    }
    word + (ones_word(ones) << own)
}

impl<'a> Extended<'a> {
    /// A signal with so many digits 1 in front.
    pub fn new(sig: &'a [Piece], nets: &'a Values, ones: u32) -> Extended<'a>
        requires inside { AreInside nets.now sig.now }
        requires fits { sig_width sig.now < 2 ^ 32 }
        ensures { result ≡ extended ones (sig_value (digits_in nets.now) sig.now) }
    {
        Extended {
            own: sig_width(sig),
            signal: SigReader::new(sig, nets),
            ones,
        }
    }

    /// Reads `n` digits.
    pub fn take(&mut self, n: u32) -> u64
        requires { n ≤ 64 }
        ensures word { result ≡ self.old % 2 ^ n }
        ensures rest { self.new ≡ self.old / 2 ^ n }
    {
        let own = n.min(self.own);
        let word = self.signal.take(own);
        self.own -= own;
        let more = (n - own).min(self.ones);
        self.ones -= more;
        with_ones(word, own, more)
    }

    /// Passes over `n` digits.
    pub fn skip(&mut self, n: u32)
        ensures { self.new ≡ self.old / 2 ^ n }
    {
        let own = n.min(self.own);
        self.signal.skip(own);
        self.own -= own;
        self.ones -= (n - own).min(self.ones);
    }
}

/// Digits 0, and behind them those of an extended signal, seen as the number of the digits that are left to be read.
#[derive(Drop)]
pub struct MovedDigits<'a> {
    /// How many digits 0 are left.
    zeros: u32,
    digits: Extended<'a>,
}

impl<'a> Model for MovedDigits<'a> {
    ghost use Rattle.std.specs.Prelude.{ℕ, ◌*◌, ◌^◌};

    ghost Value = { ℕ };

    ghost view = { λ s. s.digits * 2 ^ s.zeros };
}

impl<'a> MovedDigits<'a> {
    /// A signal that is moved.
    pub fn new(sig: &'a [Piece], nets: &'a Values, shift: Shift) -> MovedDigits<'a>
        requires inside { AreInside nets.now sig.now }
        requires fits { sig_width sig.now < 2 ^ 32 }
        ensures { result ≡ moved shift (sig_value (digits_in nets.now) sig.now) }
    {
        let mut digits = Extended::new(sig, nets, shift.ones);
        digits.skip(shift.right);
        MovedDigits {
            zeros: shift.left,
            digits,
        }
    }

    /// Reads `n` digits.
    pub fn take(&mut self, n: u32) -> u64
        requires { n ≤ 64 }
        ensures word { result ≡ self.old % 2 ^ n }
        ensures rest { self.new ≡ self.old / 2 ^ n }
    {
        let below = n.min(self.zeros);
        let word = self.digits.take(n - below);
        self.zeros -= below;
        if word == 0 {
            return 0;
        }
        word << below
    }
}

/// Makes the value's number that of the digits, as far as it has bits, and answers whether that changed it.
pub fn fill(into: &mut Values, out: u32, source: &mut MovedDigits) -> bool
    requires { out < length into.old }
    ensures { IsPut out (source.old % 2 ^ (width_at into.old out)) into.old into.new result }
{
    let width = into.width(out);
    let mut changed = false;
    let mut done = 0u32;
    while done < width {
        let n = (width - done).min(64);
        let word = source.take(n);
        let part = into.put_word_at(out, done / 64, word);
        changed |= part;
        done += n;
    }
    changed
}
