//! The values of many parts of a circuit in one array of words.
ghost use Rattle.std.specs.Prelude.{◌≡◌, ℕ, ◌+◌, ◌-◌, ◌*◌, ◌/◌, ◌%◌, ◌^◌, ◌<◌, ◌≤◌, ◌==◌, not, length, map, slice_get, slice_index, slice_set, Some, IfOk, IfSome, IsSome, ◌↔◌};
ghost use Rattle.std.specs.Int.{bit_at};
ghost use Rattle.sim_base.specs.BitValue.{BitValue, bit_value, digit_after_copy, zeros};
ghost use Rattle.sim_base.specs.Values.{IsPut, number_at, first_word, room_of, width_at, widths, with_number, words_of};

use crate::bits::{Bits, merged, store};
use crate::memory::NoMemory;
use crate::view::BitsView;
use std::alloc::Global;
use std::marker::Model;

/// Where a value stands among the words of all.
#[derive(Clone, Copy, Debug)]
struct Span {
    /// The place of its first word.
    place: u32,
    /// In bits.
    width: u32,
}

/// Values of bits, which contracts see as the list of them. All stand in one array of words, so that a value of at most
/// 64 bits takes 16 bytes.
#[derive(Debug, Drop)]
pub struct Values {
    /// The words of all values, one value after another, the least word of each first. Each has one word at least.
    words: Vec<u64>,
    /// For each value where it stands. One look-up gives its place and its width.
    spans: Vec<Span>,
}

impl Model for Values {
    ghost use Rattle.std.specs.Prelude.{List, map};
    ghost use Rattle.sim_base.specs.BitValue.{BitValue};
    ghost use Rattle.sim_base.specs.Values.{values_of, IsLaidOut};

    ghost Value = { List BitValue };

    ghost view = { λ v. values_of (map (λ s. s.width) v.spans.items) v.words.items };

    ghost invariant = { λ v. IsLaidOut v.words.items (map (λ s. s.width) v.spans.items) (map (λ s. s.place) v.spans.items) };
}

impl Values {
    /// How many words of 64 bits a value of this width takes; one without a bit takes one, too.
    pub fn words_of(width: u32) -> u32
        ensures { result ≡ words_of width }
    {
        width.saturating_sub(1) / 64 + 1
    }

    /// Zeros of these widths.
    pub fn new(alloc: Global, widths: &[u32]) -> Result<Values, NoMemory>
        requires few { room_of widths.now < 2 ^ 32 }
        ensures { IfOk result (λ values. values ≡ map zeros widths.now) }
    {
        let mut spans = Vec::with_capacity(alloc, widths.len())?;
        let mut place = 0u32;
        for width in widths {
            spans.push(Span {
                place,
                width: *width,
            })?;
            place += Values::words_of(*width);
        }
        let words = vec![in alloc; 0u64; place as usize]?;
        Ok(Values { words, spans })
    }

    /// These values.
    pub fn of(alloc: Global, values: &[Bits]) -> Result<Values, NoMemory>
        requires few { room_of (widths values.now) < 2 ^ 32 }
        ensures { IfOk result (λ all. all ≡ values.now) }
    {
        let mut all = zeros_like(alloc, values)?;
        let _ = all.len();
        for (n, value) in values.iter().enumerate() {
            all.put(n as u32, &value.view());
        }
        Ok(all)
    }

    /// How many values there are.
    pub fn len(&self) -> usize
        ensures value { result ≡ length self.now }
        ensures few { length self.now < 2 ^ 32 }
    {
        let _ = &self.words;
        self.spans.len()
    }

    /// Where the value at a place stands.
    #[inline(always)]
    fn span(&self, n: u32) -> Span
        requires { n < length self.now }
        ensures place { result.place ≡ first_word (widths self.now) n }
        ensures width { result.width ≡ width_at self.now n }
    {
        let _ = &self.words;
        self.spans[n as usize]
    }

    /// The width of the value at a place, in bits.
    #[inline(always)]
    pub fn width(&self, n: u32) -> u32
        requires { n < length self.now }
        ensures value { result ≡ width_at self.now n }
        ensures below { number_at self.now n < 2 ^ width_at self.now n }
    {
        let _ = &self.words;
        self.span(n).width
    }

    /// The number of the value at a place, of at most 64 bits.
    #[inline(always)]
    pub fn word(&self, n: u32) -> u64
        requires there { n < length self.now }
        requires small { width_at self.now n ≤ 64 }
        ensures { result ≡ number_at self.now n }
    {
        let place = self.span(n).place as usize;
        self.words[place]
    }

    /// The number of the value at a place, where it has this width, at most 64.
    #[inline(always)]
    pub fn word_of_width(&self, n: u32, width: u32) -> Option<u64>
        requires there { n < length self.now }
        requires small { width ≤ 64 }
        ensures width { IfSome result (λ number. width_at self.now n ≡ width) }
        ensures value { IfSome result (λ number. number ≡ number_at self.now n) }
        ensures below { IfSome result (λ number. number < 2 ^ width) }
        ensures some { IsSome result ↔ (width_at self.now n ≡ width) }
    {
        let span = self.span(n);
        if span.width != width {
            return None;
        }
        Some(self.words[span.place as usize])
    }

    /// The value at a place.
    #[inline(always)]
    pub fn view(&self, n: u32) -> BitsView<'_>
        requires { n < length self.now }
        ensures { result ≡ bit_value (width_at self.now n) (number_at self.now n) }
    {
        let span = self.span(n);
        let start = span.place as usize;
        let len = (span.width as usize + 63) / 64;
        BitsView {
            words: &self.words[start..start + len],
            width: span.width,
        }
    }

    /// Gives the value at a place, of at most 64 bits, another number, and tells whether it changed.
    #[inline(always)]
    pub fn put_word(&mut self, n: u32, v: u64) -> bool
        requires there { n < length self.old }
        requires small { width_at self.old n ≤ 64 }
        requires below { v < 2 ^ width_at self.old n }
        ensures { IsPut n v self.old self.new result }
    {
        let place = self.span(n).place as usize;
        store(&mut self.words, place, v)
    }

    /// Writes the lowest `k` digits of `v`, at most 64, to the bits from `at` on of the value at a place, and tells
    /// whether it changed.
    pub fn put_field(&mut self, n: u32, at: u32, k: u32, v: u64) -> bool
        requires there { n < length self.old }
        requires small { k ≤ 64 }
        requires inside { at + k ≤ width_at self.old n }
        ensures value { self.new ≡ with_number self.old n (number_at self.new n) }
        ensures bits { (j : ℕ) → bit_at (number_at self.new n) j ≡ digit_after_copy at v 0 k (number_at self.old n) j }
        ensures changed { result ≡ not (number_at self.new n == number_at self.old n) }
    {
        let _ = self.width(n);
        if k == 0 {
            return false;
        }
        let first = k.min(64 - at % 64);
        let changed = self.put_digits(n, at, first, v);
        if first < k {
            let more = self.put_digits(n, at + first, k - first, v >> first);
            changed | more
        } else {
            changed
        }
    }

    /// The same for digits of one word.
    fn put_digits(&mut self, n: u32, at: u32, k: u32, v: u64) -> bool
        requires there { n < length self.old }
        requires some { 0 < k }
        requires small { at % 64 + k ≤ 64 }
        requires inside { at + k ≤ width_at self.old n }
        ensures value { self.new ≡ with_number self.old n (number_at self.new n) }
        ensures bits { (j : ℕ) → bit_at (number_at self.new n) j ≡ digit_after_copy at v 0 k (number_at self.old n) j }
        ensures changed { result ≡ not (number_at self.new n == number_at self.old n) }
    {
        let place = self.span(n).place as usize + (at / 64) as usize;
        let word = merged(self.words[place], at % 64, k, v);
        store(&mut self.words, place, word)
    }

    /// Makes `word` the one at this place of the words of 64 bits of a value: the bits from `64 * place` on. It tells
    /// whether the value changed.
    #[inline(always)]
    pub fn put_word_at(&mut self, n: u32, place: u32, word: u64) -> bool
        requires there { n < length self.old }
        requires inside { 64 * place < width_at self.old n }
        requires below { word < 2 ^ (width_at self.old n - 64 * place) }
        ensures value { self.new ≡ with_number self.old n (number_at self.new n) }
        ensures bits { (j : ℕ) → bit_at (number_at self.new n) j ≡ digit_after_copy (64 * place) word 0 64 (number_at self.old n) j }
        ensures changed { result ≡ not (number_at self.new n == number_at self.old n) }
    {
        let at = self.span(n).place as usize + place as usize;
        store(&mut self.words, at, word)
    }

    /// Copies `k` bits of `from`, beginning with its bit `from_at`, to the bits from `at` on of the value at a place,
    /// and tells whether it changed.
    pub fn copy(&mut self, n: u32, at: u32, from: &BitsView, from_at: u32, k: u32) -> bool
        requires there { n < length self.old }
        requires inside { at + k ≤ width_at self.old n }
        requires from_inside { from_at + k ≤ from.now.width }
        ensures value { self.new ≡ with_number self.old n (number_at self.new n) }
        ensures bits { (j : ℕ) → bit_at (number_at self.new n) j ≡ digit_after_copy at from.now.number from_at k (number_at self.old n) j }
        ensures changed { result ≡ not (number_at self.new n == number_at self.old n) }
    {
        let _ = self.width(n);
        let _ = from.width();
        let mut changed = false;
        let mut done = 0u32;
        while done < k {
            let part = (k - done).min(64);
            let v = from.field(from_at + done, part);
            let more = self.put_field(n, at + done, part, v);
            changed |= more;
            done += part;
        }
        changed
    }

    /// Gives the value at a place the number of another value of its width, and tells whether it changed.
    pub fn put(&mut self, n: u32, from: &BitsView) -> bool
        requires there { n < length self.old }
        requires width { from.now.width ≡ width_at self.old n }
        ensures { IsPut n from.now.number self.old self.new result }
    {
        let width = from.width();
        let _ = self.width(n);
        self.copy(n, 0, from, 0, width)
    }

    /// Gives each value the number of the one at its place in another list of the same widths.
    pub fn copy_all(&mut self, from: &Values)
        requires { widths self.old ≡ widths from.now }
        ensures { self.new ≡ from.now }
    {
        let _ = &self.spans;
        let _ = &from.spans;
        self.words.copy_from_slice(from.words.as_slice());
    }
}

/// Zeros of the widths of these values.
fn zeros_like(alloc: Global, values: &[Bits]) -> Result<Values, NoMemory>
    requires few { room_of (widths values.now) < 2 ^ 32 }
    ensures { IfOk result (λ all. all ≡ map zeros (widths values.now)) }
{
    let mut widths = Vec::new(alloc);
    for value in values {
        widths.push(value.width())?;
    }
    Values::new(alloc, widths.as_slice())
}
