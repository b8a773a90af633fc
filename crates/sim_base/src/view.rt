//! Values of bits that are read where they stand.
ghost use Rattle.std.specs.Prelude.{◌≡◌, ◌+◌, ◌*◌, ◌/◌, ◌%◌, ◌^◌, ◌<◌, ◌≤◌, length, slice_get, Some};
ghost use Rattle.sim_base.specs.BitValue.{AreWords, bit_value, number_of_words};
ghost use Rattle.sim_base.specs.Parts.{halves_of};
ghost use Rattle.sim_base.specs.Shape.{words_of_width};

use crate::bits::field_of;
use std::marker::Model;

/// A value of bits that is read where it stands: in a `Bits`, or among the `Values` of a circuit's parts. A contract
/// sees the value.
#[derive(Debug, Drop)]
pub struct BitsView<'a> {
    pub(crate) words: &'a [u64],
    pub(crate) width: u32,
}

impl<'a> Model for BitsView<'a> {
    ghost use Rattle.std.specs.Prelude.{◌≡◌, ◌<◌, ◌+◌, ◌/◌, ◌^◌, length};
    ghost use Rattle.sim_base.specs.BitValue.{BitValue, bit_value, number_of_words, AreWords};

    ghost Value = { BitValue };

    ghost view = { λ v. bit_value v.width (number_of_words v.words.now) };

    ghost invariant = { λ v. (length v.words.now ≡ (v.width + 63) / 64) × (number_of_words v.words.now < 2 ^ v.width) × AreWords v.words.now };
}

impl<'a> BitsView<'a> {
    /// The width in bits.
    #[inline(always)]
    pub fn width(&self) -> u32
        ensures value { result ≡ self.now.width }
        ensures fits { self.now.width < 2 ^ 32 }
        ensures below { self.now.number < 2 ^ self.now.width }
    {
        self.width
    }

    /// The number of a value of at most 64 bits.
    #[inline(always)]
    pub fn word(&self) -> u64
        requires { self.now.width ≤ 64 }
        ensures value { result ≡ self.now.number }
        ensures below { result < 2 ^ self.now.width }
    {
        if self.width == 0 { 0 } else { self.words[0] }
    }

    /// The number in words of 64 bits, the least first.
    #[inline(always)]
    pub fn words(&self) -> &[u64]
        ensures number { number_of_words result.now ≡ self.now.number }
        ensures length { length result.now ≡ (self.now.width + 63) / 64 }
        ensures fit { AreWords result.now }
    {
        self.words
    }

    /// The number of the `n` bits, at most 64, from `at` on.
    #[inline]
    pub fn field(&self, at: u32, n: u32) -> u64
        requires small { n ≤ 64 }
        requires inside { at + n ≤ self.now.width }
        ensures { result ≡ self.now.number / 2 ^ at % 2 ^ n }
    {
        let _ = &self.width;
        field_of(self.words, at, n)
    }

    /// The word of 32 bits at this place of those that the value has, the least being the first.
    #[inline]
    pub fn half(&self, place: u32) -> u32
        requires { place < words_of_width self.now.width }
        ensures value { result ≡ self.now.number / 2 ^ (place * 32) % 2 ^ 32 }
        ensures listed { slice_get (halves_of self.now) place ≡ Some result }
    {
        let _ = self.width();
        field_of(self.words, 32 * place, 32) as u32
    }
}
