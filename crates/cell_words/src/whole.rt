//! Whole numbers of up to 128 digits and a sign.
ghost use Rattle.std.specs.Prelude.{◌≡◌, ◌≢◌, pos, ℤ, ◌+◌, ◌-◌, ◌<◌, ◌≤◌, ◌^◌, ◌+ℤ◌, ◌-ℤ◌, ◌*ℤ◌, int_lt, ◌↔◌, IsTrue};
ghost use Rattle.circuit.specs.Output.{modulo, operand, truncated_quotient, floor_quotient};
ghost use Rattle.cell_words.specs.Wholes.{magnitude};

use std::marker::Model;

/// A whole number above -2^128 and below 2^128, which is what a contract sees of it.
#[derive(Debug, Drop)]
pub struct Whole {
    negative: bool,
    /// The number modulo 2^128.
    low: u128,
}

impl Model for Whole {
    ghost use Rattle.std.specs.Prelude.{◌≡◌, ℤ, ◌<◌, ◌^◌, true};
    ghost use Rattle.cell_words.specs.Wholes.{whole};

    ghost Value = { ℤ };

    ghost view = { λ w. whole w.negative w.low };

    ghost invariant = { λ w. (w.low < 2 ^ 128) × (w.negative ≡ true → 0 < w.low) };
}

/// The number with `n` digits that are all 1.
pub fn low_ones(n: u32) -> u128
    requires { n ≤ 128 }
    ensures { result ≡ 2 ^ n - 1 }
{
    if n == 128 {
        u128::MAX
    } else {
        (1u128 << n) - 1
    }
}

impl Whole {
    /// The number that `width` digits stand for, in two's complement where signed.
    #[inline(always)]
    pub fn operand(signed: bool, width: u32, number: u128) -> Whole
        requires narrow { width ≤ 128 }
        requires below { number < 2 ^ width }
        ensures { result ≡ operand signed width number }
    {
        if signed && width > 0 && (number >> (width - 1)) & 1 == 1 {
            Whole {
                negative: true,
                low: number + (u128::MAX - low_ones(width)),
            }
        } else {
            Whole {
                negative: false,
                low: number,
            }
        }
    }

    /// The number modulo 2^128.
    pub fn low(&self) -> u128
        ensures { result ≡ modulo 128 self.now }
    {
        self.low
    }

    fn magnitude(&self) -> u128
        ensures { result ≡ magnitude self.now }
    {
        if self.negative {
            u128::MAX - self.low + 1
        } else {
            self.low
        }
    }

    /// Whether the number is 0.
    pub fn is_zero(&self) -> bool
        ensures { IsTrue result ↔ (self.now ≡ pos 0) }
    {
        self.low == 0
    }

    /// Whether the number is below the other one.
    pub fn is_below(&self, other: &Whole) -> bool
        ensures { result ≡ int_lt self.now other.now }
    {
        if self.negative == other.negative {
            self.low < other.low
        } else {
            self.negative
        }
    }

    /// The quotient truncated toward zero, modulo 2^128.
    pub fn truncated_quotient(&self, divisor: &Whole) -> u128
        requires { divisor.now ≢ pos 0 }
        ensures { result ≡ modulo 128 (truncated_quotient self.now divisor.now) }
    {
        let quotient = self.magnitude() / divisor.magnitude();
        if self.negative == divisor.negative {
            quotient
        } else {
            0u128.wrapping_sub(quotient)
        }
    }

    /// The quotient rounded down, modulo 2^128.
    pub fn floor_quotient(&self, divisor: &Whole) -> u128
        requires { divisor.now ≢ pos 0 }
        ensures { result ≡ modulo 128 (floor_quotient self.now divisor.now) }
    {
        let magnitude = self.magnitude();
        let by = divisor.magnitude();
        if self.negative == divisor.negative || magnitude == 0 {
            magnitude / by
        } else {
            u128::MAX - (magnitude - 1) / by
        }
    }

    /// The number with the other sign, modulo 2^128.
    pub fn negated(&self) -> u128
        ensures { result ≡ modulo 128 (pos 0 -ℤ self.now) }
    {
        0u128.wrapping_sub(self.low)
    }

    /// The sum, modulo 2^128.
    pub fn sum(&self, other: &Whole) -> u128
        ensures { result ≡ modulo 128 (self.now +ℤ other.now) }
    {
        self.low().wrapping_add(other.low())
    }

    /// The difference, modulo 2^128.
    pub fn difference(&self, other: &Whole) -> u128
        ensures { result ≡ modulo 128 (self.now -ℤ other.now) }
    {
        self.low().wrapping_sub(other.low())
    }

    /// The product, modulo 2^128.
    pub fn product(&self, other: &Whole) -> u128
        ensures { result ≡ modulo 128 (self.now *ℤ other.now) }
    {
        self.low().wrapping_mul(other.low())
    }

    /// What is left of the number after so many times the divisor, modulo 2^128.
    fn remainder(&self, divisor: &Whole, times: u128) -> u128
        ensures { (quotient : ℤ) → times ≡ modulo 128 quotient → result ≡ modulo 128 (self.now -ℤ divisor.now *ℤ quotient) }
    {
        self.low().wrapping_sub(divisor.low().wrapping_mul(times))
    }

    /// The remainder of the quotient that is truncated toward zero, modulo 2^128.
    pub fn truncated_remainder(&self, divisor: &Whole) -> u128
        requires { divisor.now ≢ pos 0 }
        ensures { result ≡ modulo 128 (self.now -ℤ divisor.now *ℤ truncated_quotient self.now divisor.now) }
    {
        self.remainder(divisor, self.truncated_quotient(divisor))
    }

    /// The remainder of the quotient that is rounded down, modulo 2^128.
    pub fn floor_remainder(&self, divisor: &Whole) -> u128
        requires { divisor.now ≢ pos 0 }
        ensures { result ≡ modulo 128 (self.now -ℤ divisor.now *ℤ floor_quotient self.now divisor.now) }
    {
        self.remainder(divisor, self.floor_quotient(divisor))
    }
}
