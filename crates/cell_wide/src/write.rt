//! What is done with the digits of a number.
ghost use Rattle.std.specs.Prelude.{◌≡◌, ◌==◌, ◌+◌, ◌/◌, ◌%◌, ◌<◌, ◌≤◌, ◌^◌, length};
ghost use Rattle.sim_base.specs.Values.{IsPut, width_at};
ghost use Rattle.cell_wide.specs.Words.{Passes};

use crate::words::Words;
use sim_base::Values;

/// Reads the next `n` digits. Most are whole words, which are told apart so that they are read without a mask.
#[inline(always)]
fn next_word<W: Words>(words: &mut W, n: u32) -> u64
    requires { n ≤ 64 }
    ensures word { result ≡ W.low words.old n }
    ensures rest { Passes (W.low words.old) n result (W.low words.new) }
{
    if n == 64 {
        words.next(64)
    } else {
        words.next(n)
    }
}

/// Writes as many of the digits as the value has bits, and tells whether that changed it.
pub fn write<W: Words>(words: &mut W, into: &mut Values, out: u32) -> bool
    requires { out < length into.old }
    ensures { IsPut out (W.low words.old (width_at into.old out)) into.old into.new result }
{
    let width = into.width(out);
    if width <= 64 {
        let word = words.next(width);
        return into.put_word(out, word);
    }
    let mut changed = false;
    let mut at = 0u32;
    while at < width {
        let n = (width - at).min(64);
        let word = next_word(words, n);
        let part = into.put_word_at(out, at / 64, word);
        changed |= part;
        at += n;
    }
    changed
}

/// Whether the lowest `width` digits of two numbers are the same.
pub fn same<A: Words, B: Words>(one: &mut A, other: &mut B, width: u32) -> bool
    ensures { result ≡ (A.low one.old width == B.low other.old width) }
{
    let mut at = 0u32;
    while at < width {
        let n = (width - at).min(64);
        if next_word(one, n) != next_word(other, n) {
            return false;
        }
        at += n;
    }
    true
}
