//! Operands of at most 64 bits.
ghost use Rattle.std.specs.Prelude.{◌≡◌, ◌<◌, ◌≤◌, ◌^◌};
ghost use Rattle.circuit.specs.Output.{modulo, operand};

use signal_words::{SigWord, is_negative, ones_word};

/// An operand, extended to `to` bits.
#[inline]
fn longer(number: u64, width: u32, signed: bool, to: u32) -> u64
    requires longer { width < to }
    requires below { number < 2 ^ width }
    requires to { to ≤ 64 }
    ensures { result ≡ modulo to (operand signed width number) }
{
    if signed && is_negative(number, width) {
        number + (ones_word(to) - ones_word(width))
    } else {
        number
    }
}

/// An operand, extended or cut to `to` bits. Most have as many already, and stay as they are.
#[inline(always)]
fn extended(number: u64, width: u32, signed: bool, to: u32) -> u64
    requires small { width ≤ 64 }
    requires below { number < 2 ^ width }
    requires to { to ≤ 64 }
    ensures { result ≡ modulo to (operand signed width number) }
{
    if width == to {
        number
    } else if width > to {
        number & ones_word(to)
    } else {
        longer(number, width, signed, to)
    }
}

/// The operand that a word stands for, extended or cut to `to` bits.
#[inline(always)]
pub fn operand_word(word: SigWord, signed: bool, to: u32) -> u64
    requires small { word.width ≤ 64 }
    requires below { word.number < 2 ^ word.width }
    requires to { to ≤ 64 }
    ensures { result ≡ modulo to (operand signed word.width word.number) }
{
    extended(word.number, word.width, signed, to)
}
