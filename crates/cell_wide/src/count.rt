//! What is counted among the digits of a number.
ghost use Rattle.std.specs.Prelude.{◌≡◌, ◌==◌, ◌%◌, count_ones};
ghost use Rattle.circuit.specs.Output.{lowest_from};

use crate::words::Words;

/// Whether the number of ones among the lowest `width` digits is odd.
pub fn is_odd<W: Words>(words: &mut W, width: u32) -> bool
    ensures { result ≡ (count_ones (W.low words.old width) % 2 == 1) }
{
    let mut ones = 0u32;
    let mut at = 0u32;
    while at < width {
        let n = (width - at).min(64);
        ones ^= words.next(n).count_ones() & 1;
        at += n;
    }
    ones == 1
}

/// The place of the lowest 1 among the lowest `width` digits, and `width` where there is none.
pub fn lowest<W: Words>(words: &mut W, width: u32) -> u32
    ensures { result ≡ lowest_from width 0 (W.low words.old width) }
{
    let mut at = 0u32;
    while at < width {
        let n = (width - at).min(64);
        let word = words.next(n);
        if word != 0 {
            return at + word.trailing_zeros();
        }
        at += n;
    }
    width
}
