//! Whole numbers of up to 64 digits and a sign, as operands of cells that stay in words.
ghost use Rattle.std.specs.Prelude.{◌≡◌, pos, ℤ, ◌+◌, ◌-◌, ◌<◌, ◌≤◌, ◌^◌, ◌+ℤ◌, ◌-ℤ◌, ◌*ℤ◌, int_lt};
ghost use Rattle.circuit.specs.Output.{modulo, operand};
ghost use Rattle.cell_words.specs.Shifts.{is_below_zero};

use signal_words::{SigWord, is_negative, ones_word};
use std::marker::Model;

/// A whole number above -2^64 and below 2^64, which is what a contract sees of it.
#[derive(Debug, Drop)]
pub struct Narrow {
    negative: bool,
    /// The number modulo 2^64.
    low: u64,
}

impl Model for Narrow {
    ghost use Rattle.std.specs.Prelude.{◌≡◌, ℤ, ◌<◌, ◌^◌, true};
    ghost use Rattle.cell_words.specs.Wholes.{narrow};

    ghost Value = { ℤ };

    ghost view = { λ w. narrow w.negative w.low };

    ghost invariant = { λ w. (w.low < 2 ^ 64) × (w.negative ≡ true → 0 < w.low) };
}

impl Narrow {
    /// The number that the digits of a word stand for, in two's complement where signed.
    #[inline(always)]
    pub fn operand(signed: bool, word: SigWord) -> Narrow
        requires narrow { word.width ≤ 64 }
        requires below { word.number < 2 ^ word.width }
        ensures { result ≡ operand signed word.width word.number }
    {
        if is_below_zero(word, signed) {
            Narrow {
                negative: true,
                low: word.number + (u64::MAX - ones_word(word.width)),
            }
        } else {
            Narrow {
                negative: false,
                low: word.number,
            }
        }
    }

    /// The number modulo 2^64.
    #[inline(always)]
    pub fn low(&self) -> u64
        ensures { result ≡ modulo 64 self.now }
    {
        self.low
    }

    /// Whether the number is below the other one.
    #[inline(always)]
    pub fn is_below(&self, other: &Narrow) -> bool
        ensures { result ≡ int_lt self.now other.now }
    {
        if self.negative == other.negative {
            self.low < other.low
        } else {
            self.negative
        }
    }

    /// The number with the other sign, modulo 2^64.
    #[inline(always)]
    pub fn negated(&self) -> u64
        ensures { result ≡ modulo 64 (pos 0 -ℤ self.now) }
    {
        0u64.wrapping_sub(self.low)
    }

    /// The sum, modulo 2^64.
    #[inline(always)]
    pub fn sum(&self, other: &Narrow) -> u64
        ensures { result ≡ modulo 64 (self.now +ℤ other.now) }
    {
        self.low().wrapping_add(other.low())
    }

    /// The difference, modulo 2^64.
    #[inline(always)]
    pub fn difference(&self, other: &Narrow) -> u64
        ensures { result ≡ modulo 64 (self.now -ℤ other.now) }
    {
        self.low().wrapping_sub(other.low())
    }

    /// The product, modulo 2^64.
    #[inline(always)]
    pub fn product(&self, other: &Narrow) -> u64
        ensures { result ≡ modulo 64 (self.now *ℤ other.now) }
    {
        self.low().wrapping_mul(other.low())
    }
}

/// Whether a word stands for a number below 0, in two's complement where signed.
#[inline(always)]
pub fn is_below_zero(word: SigWord, signed: bool) -> bool
    requires narrow { word.width ≤ 64 }
    requires below { word.number < 2 ^ word.width }
    ensures { result ≡ is_below_zero signed word.width word.number }
{
    signed && is_negative(word.number, word.width)
}
