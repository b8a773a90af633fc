//! A value of bits: a width and a number below 2 to that width, kept in words of 64 bits.
ghost use Rattle.std.specs.Prelude.{◌≡◌, ◌↔◌, ℕ, ◌+◌, ◌-◌, ◌*◌, ◌/◌, ◌%◌, ◌^◌, ◌<◌, ◌≤◌, ◌==◌, not, length, slice_index, slice_set, nat_lt, if◌then◌else◌, IfOk, IsTrue};
ghost use Rattle.std.specs.Int.{bit_at};
ghost use Rattle.sim_base.specs.BitValue.{AreWords, number_of_words, BitValue, digit_of, zeros, digit_after_set, digit_after_copy, bit_value};

use crate::memory::NoMemory;
use crate::view::BitsView;
use std::alloc::Global;
use std::marker::Model;

/// A value of bits. A contract sees its `width` and its `number`, which is below 2 to the width; bit i of
/// the value is `bit_at number i`, the least bit having the number 0.
#[derive(Debug, Drop)]
pub struct Bits {
    words: Vec<u64>,
    width: u32,
}

impl Model for Bits {
    ghost use Rattle.std.specs.Prelude.{◌≡◌, ◌<◌, ◌+◌, ◌/◌, ◌^◌, length};
    ghost use Rattle.sim_base.specs.BitValue.{BitValue, number_of_words, AreWords};

    ghost Value = { BitValue };

    ghost view = { λ b. record { width = b.width; number = number_of_words b.words.items } };

    ghost invariant = { λ b. (length b.words.items ≡ (b.width + 63) / 64) × (number_of_words b.words.items < 2 ^ b.width) × AreWords b.words.items };
}

impl Bits {
    /// The value 0 of this width in bits.
    pub fn zero(alloc: Global, width: u32) -> Result<Bits, NoMemory>
        ensures { IfOk result (λ b. b ≡ zeros width) }
    {
        let words = vec![in alloc; 0u64; (width as usize + 63) / 64]?;
        Ok(Bits { words, width })
    }

    /// A copy of the value.
    pub fn try_clone(&self, alloc: Global) -> Result<Bits, NoMemory>
        ensures { IfOk result (λ copy. copy ≡ self.now) }
    {
        let words = Vec::from_slice(alloc, self.words.as_slice())?;
        Ok(Bits {
            words,
            width: self.width,
        })
    }

    /// The `width` bits from `at` on, as a value of their own.
    pub fn part(&self, alloc: Global, at: u32, width: u32) -> Result<Bits, NoMemory>
        requires { at + width ≤ self.now.width }
        ensures { IfOk result (λ part. part ≡ bit_value width (self.now.number / 2 ^ at % 2 ^ width)) }
    {
        let mut part = Bits::zero(alloc, width)?;
        part.copy(0, self, at, width);
        Ok(part)
    }

    /// Makes the number 0.
    pub fn clear(&mut self)
        ensures { self.new ≡ zeros self.old.width }
    {
        self.words.fill(0);
    }

    /// The width in bits.
    pub fn width(&self) -> u32
        ensures value { result ≡ self.now.width }
        ensures fits { self.now.width < 2 ^ 32 }
        ensures below { self.now.number < 2 ^ self.now.width }
    {
        self.width
    }

    /// Whether bit `i` is 1.
    pub fn bit(&self, i: u32) -> bool
        requires { i < self.now.width }
        ensures { digit_of result ≡ bit_at self.now.number i }
    {
        (self.words[(i / 64) as usize] >> (i % 64)) & 1 == 1
    }

    /// Makes bit `i` 1 or 0.
    pub fn set(&mut self, i: u32, v: bool)
        requires { i < self.old.width }
        ensures width { self.new.width ≡ self.old.width }
        ensures below { self.new.number < 2 ^ self.new.width }
        ensures bits { (j : ℕ) → bit_at self.new.number j ≡ digit_after_set i (digit_of v) self.old.number j }
    {
        let at = (i / 64) as usize;
        let word = with_digit(self.words[at], i % 64, v);
        self.words[at] = word;
    }

    /// Copies `n` bits of `from`, beginning with its bit `from_at`, to the bits from `at` on, and tells whether the
    /// number changed.
    pub fn copy(&mut self, at: u32, from: &Bits, from_at: u32, n: u32) -> bool
        requires inside { at + n ≤ self.old.width }
        requires from_inside { from_at + n ≤ from.now.width }
        ensures width { self.new.width ≡ self.old.width }
        ensures below { self.new.number < 2 ^ self.new.width }
        ensures bits { (j : ℕ) → bit_at self.new.number j ≡ digit_after_copy at from.now.number from_at n self.old.number j }
        ensures changed { result ≡ not (self.new.number == self.old.number) }
    {
        let _ = self.width();
        let _ = from.width();
        let mut changed = false;
        let mut done = 0u32;
        while done < n {
            let part = (n - done).min(64);
            let v = from.field(from_at + done, part);
            let more = self.put_field(at + done, part, v);
            changed |= more;
            done += part;
        }
        changed
    }

    /// Writes the lowest `n` digits of `v`, at most 64, to the bits from `at` on, and tells whether the number changed.
    pub fn put_field(&mut self, at: u32, n: u32, v: u64) -> bool
        requires small { n ≤ 64 }
        requires inside { at + n ≤ self.old.width }
        ensures width { self.new.width ≡ self.old.width }
        ensures below { self.new.number < 2 ^ self.new.width }
        ensures bits { (j : ℕ) → bit_at self.new.number j ≡ digit_after_copy at v 0 n self.old.number j }
        ensures changed { result ≡ not (self.new.number == self.old.number) }
    {
        let _ = self.width();
        if n == 0 {
            return false;
        }
        put_fields(&mut self.words, at as usize, n, v)
    }

    /// The number of the `n` bits, at most 64, from `at` on.
    pub fn field(&self, at: u32, n: u32) -> u64
        requires small { n ≤ 64 }
        requires inside { at + n ≤ self.now.width }
        ensures { result ≡ self.now.number / 2 ^ at % 2 ^ n }
    {
        let _ = &self.width;
        field_of(self.words.as_slice(), at, n)
    }

    /// The number of a value of at most 64 bits.
    #[inline(always)]
    pub fn word(&self) -> u64
        requires { self.now.width ≤ 64 }
        ensures { result ≡ self.now.number }
    {
        match self.words.first() {
            Some(word) => *word,
            None => 0,
        }
    }

    /// The number in words of 64 bits, the least first.
    #[inline(always)]
    pub fn words(&self) -> &[u64]
        ensures number { number_of_words result.now ≡ self.now.number }
        ensures length { length result.now ≡ (self.now.width + 63) / 64 }
        ensures fit { AreWords result.now }
    {
        self.words.as_slice()
    }

    /// The value, to be read where it stands.
    #[inline(always)]
    pub fn view(&self) -> BitsView<'_>
        ensures { result ≡ self.now }
    {
        BitsView {
            words: self.words.as_slice(),
            width: self.width,
        }
    }

    /// Makes `word` the one at this place of the words of 64 bits: the bits from `64 * place` on.
    #[inline(always)]
    pub fn put_word(&mut self, place: usize, word: u64)
        requires inside { 64 * place < self.old.width }
        requires below { word < 2 ^ (self.old.width - 64 * place) }
        ensures width { self.new.width ≡ self.old.width }
        ensures below { self.new.number < 2 ^ self.new.width }
        ensures bits { (j : ℕ) → bit_at self.new.number j ≡ digit_after_copy (64 * place) word 0 64 self.old.number j }
    {
        self.words[place] = word;
    }

    /// Makes `v` the number of a value of at most 64 bits.
    pub fn put(&mut self, v: u64)
        requires small { self.old.width ≤ 64 }
        requires below { v < 2 ^ self.old.width }
        ensures { self.new ≡ bit_value self.old.width v }
    {
        if self.width > 0 {
            self.words[0] = v;
        }
    }

    /// Whether width and number are the same.
    pub fn same(&self, other: &Bits) -> bool
        ensures { IsTrue result ↔ (self.now ≡ other.now) }
    {
        self.width == other.width && self.words == other.words
    }
}

fn with_digit(word: u64, at: u32, v: bool) -> u64
    requires { at < 64 }
    ensures { (j : ℕ) → j < 64 → bit_at result j ≡ digit_after_set at (digit_of v) word j }
{
    let mask = 1u64 << at;
    if v { word | mask } else { word & !mask }
}

/// The number of the `n` bits of words, at most 64, from `at` on.
#[inline]
pub(crate) fn field_of(words: &[u64], at: u32, n: u32) -> u64
    requires small { n ≤ 64 }
    requires inside { at + n ≤ 64 * length words.now }
    requires fit { AreWords words.now }
    ensures { result ≡ number_of_words words.now / 2 ^ at % 2 ^ n }
{
    if n == 0 {
        return 0;
    }
    let k = (at / 64) as usize;
    let off = at % 64;
    let high = if off + n > 64 { words[k + 1] } else { 0 };
    low_digits(joined(words[k], high, off), n)
}

/// The lowest digits of a word, 1 to 64 of them.
#[inline(always)]
pub fn low_digits(v: u64, n: u32) -> u64
    requires some { 0 < n }
    requires small { n ≤ 64 }
    ensures { result ≡ v % 2 ^ n }
{
    v & (u64::MAX >> (64 - n))
}

fn joined(low: u64, high: u64, off: u32) -> u64
    requires { off < 64 }
    ensures { (j : ℕ) → j < 64 → bit_at result j ≡ (if nat_lt (off + j) 64 then bit_at low (off + j) else bit_at high (off + j - 64)) }
{
    if off == 0 {
        low
    } else {
        (low >> off) | (high << (64 - off))
    }
}

pub(crate) fn merged(word: u64, off: u32, n: u32, v: u64) -> u64
    requires inside { off + n ≤ 64 }
    requires low { off < 64 }
    ensures { (j : ℕ) → j < 64 → bit_at result j ≡ digit_after_copy off v 0 n word j }
{
    let ones = if n == 64 { u64::MAX } else { (1u64 << n) - 1 };
    (word & !(ones << off)) | ((v & ones) << off)
}

/// Writes a word, and tells whether it was another.
#[inline(always)]
pub(crate) fn store(words: &mut Vec<u64>, place: usize, v: u64) -> bool
    requires { place < length words.old.items }
    ensures items { words.new.items ≡ slice_set words.old.items place v }
    ensures changed { (old : ℕ) → slice_index words.old.items place ≡ old → result ≡ not (old == v) }
{
    let old = words[place];
    words[place] = v;
    old != v
}

fn put_digits(words: &mut Vec<u64>, at: usize, n: u32, v: u64) -> bool
    requires there { at / 64 < length words.old.items }
    requires inside { at % 64 + n ≤ 64 }
    requires fit { AreWords words.old.items }
    ensures length { length words.new.items ≡ length words.old.items }
    ensures fit { AreWords words.new.items }
    ensures bits { (j : ℕ) → bit_at (number_of_words words.new.items) j ≡ digit_after_copy at v 0 n (number_of_words words.old.items) j }
    ensures changed { result ≡ not (number_of_words words.new.items == number_of_words words.old.items) }
{
    let k = at / 64;
    let word = merged(words[k], (at % 64) as u32, n, v);
    store(words, k, word)
}

fn put_fields(words: &mut Vec<u64>, at: usize, n: u32, v: u64) -> bool
    requires small { n ≤ 64 }
    requires some { 0 < n }
    requires place { at < 2 ^ 32 }
    requires there { at + n ≤ 64 * length words.old.items }
    requires fit { AreWords words.old.items }
    ensures length { length words.new.items ≡ length words.old.items }
    ensures fit { AreWords words.new.items }
    ensures bits { (j : ℕ) → bit_at (number_of_words words.new.items) j ≡ digit_after_copy at v 0 n (number_of_words words.old.items) j }
    ensures changed { result ≡ not (number_of_words words.new.items == number_of_words words.old.items) }
{
    let first = n.min(64 - (at % 64) as u32);
    let changed = put_digits(words, at, first, v);
    if first < n {
        let more = put_digits(words, at + first as usize, n - first, v >> first);
        changed | more
    } else {
        changed
    }
}
