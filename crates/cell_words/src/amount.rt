//! How far a shift cell moves digits: its second operand, read as far as it matters.
ghost use Rattle.std.specs.Prelude.{◌≡◌, ◌-◌, ◌<◌, ◌≤◌, ◌^◌, ◌==◌, min, if◌then◌else◌};
ghost use Rattle.circuit.specs.Output.{operand};
ghost use Rattle.circuit.specs.Signal.{sig_number, sig_width};
ghost use Rattle.signal_words.specs.Values.{digits_in, AreInside};
ghost use Rattle.cell_words.specs.Shifts.{farthest, all_ones, is_below_zero, IsAmount};

use crate::narrow::is_below_zero as is_word_below_zero;
use crate::shift::Amount;
use circuit::{Piece, sig_width};
use signal_words::{SigReader, SigWord, one_word, ones_word, sig_bit, word_of};
use sim_base::Values;

/// No shift moves digits by more places: twice the largest width.
const FARTHEST: u32 = 131_072;

/// The word with `n` digits that are all 1, or all 0.
fn all_ones(ones: bool, n: u32) -> u64
    requires { n ≤ 64 }
    ensures { result ≡ all_ones ones n }
{
    if ones { ones_word(n) } else { 0 }
}

/// Whether all digits that are left are 1, or all are 0.
fn is_rest(reader: &mut SigReader, left: u32, ones: bool) -> bool
    requires { reader.old.number < 2 ^ left }
    ensures { result ≡ (reader.old.number == all_ones ones left) }
{
    let mut left = left;
    while left > 0 {
        let n = left.min(64);
        let word = reader.take(n);
        if word != all_ones(ones, n) {
            return false;
        }
        left -= n;
    }
    true
}

/// How far a word is above 0, or below the digits that are all 1.
fn flipped(word: u64, n: u32, ones: bool) -> u64
    requires small { n ≤ 64 }
    requires below { word < 2 ^ n }
    ensures { result ≡ (if ones then 2 ^ n - 1 - word else word) }
{
    if ones { ones_word(n) - word } else { word }
}

/// How far a number of so many digits is above 0, or below the digits that are all 1.
fn distance(sig: &[Piece], nets: &Values, ones: bool) -> u32
    requires inside { AreInside nets.now sig.now }
    requires fits { sig_width sig.now ≤ 65536 }
    ensures below { sig_number (digits_in nets.now) sig.now < 2 ^ sig_width sig.now }
    ensures value { result ≡ min (if ones then 2 ^ sig_width sig.now - 1 - sig_number (digits_in nets.now) sig.now else sig_number (digits_in nets.now) sig.now) farthest }
{
    let width = sig_width(sig);
    let n = width.min(64);
    let mut reader = SigReader::new(sig, nets);
    let word = reader.take(n);
    if !is_rest(&mut reader, width - n, ones) {
        return FARTHEST;
    }
    flipped(word, n, ones).min(u64::from(FARTHEST)) as u32
}

/// The number of places that an operand of at most 64 bits asks for.
fn amount_of_word(word: SigWord, signed: bool) -> Amount
    requires narrow { word.width ≤ 64 }
    requires below { word.number < 2 ^ word.width }
    ensures { IsAmount result (operand signed word.width word.number) }
{
    if is_word_below_zero(word, signed) {
        let below = (ones_word(word.width) - word.number).min(u64::from(FARTHEST)) as u32;
        let by = (below + 1).min(FARTHEST);
        return Amount { negative: true, by };
    }
    Amount {
        negative: false,
        by: word.number.min(u64::from(FARTHEST)) as u32,
    }
}

/// The number of places that an operand of any width asks for, which is read word by word.
#[inline(never)]
fn amount_of_words(sig: &[Piece], nets: &Values, signed: bool) -> Amount
    requires inside { AreInside nets.now sig.now }
    requires fits { sig_width sig.now ≤ 65536 }
    ensures { IsAmount result (operand signed (sig_width sig.now) (sig_number (digits_in nets.now) sig.now)) }
{
    if is_below_zero(sig, nets, signed) {
        let by = (distance(sig, nets, true) + 1).min(FARTHEST);
        return Amount { negative: true, by };
    }
    let by = distance(sig, nets, false);
    Amount {
        negative: false,
        by,
    }
}

/// The number of places that an operand of any pieces asks for.
#[inline(never)]
fn amount_of_pieces(sig: &[Piece], nets: &Values, signed: bool) -> Amount
    requires inside { AreInside nets.now sig.now }
    requires fits { sig_width sig.now ≤ 65536 }
    ensures { IsAmount result (operand signed (sig_width sig.now) (sig_number (digits_in nets.now) sig.now)) }
{
    match word_of(sig, nets) {
        Some(word) => amount_of_word(word, signed),
        None => amount_of_words(sig, nets, signed),
    }
}

/// The number of places that an operand asks for, in two's complement where signed.
#[inline(always)]
pub fn amount_of(sig: &[Piece], nets: &Values, signed: bool) -> Amount
    requires inside { AreInside nets.now sig.now }
    requires fits { sig_width sig.now ≤ 65536 }
    ensures { IsAmount result (operand signed (sig_width sig.now) (sig_number (digits_in nets.now) sig.now)) }
{
    match one_word(sig, nets) {
        Some(word) => amount_of_word(word, signed),
        None => amount_of_pieces(sig, nets, signed),
    }
}

/// Whether a signal stands for a number below 0, in two's complement where signed.
pub fn is_below_zero(sig: &[Piece], nets: &Values, signed: bool) -> bool
    requires inside { AreInside nets.now sig.now }
    requires fits { sig_width sig.now ≤ 65536 }
    ensures { result ≡ is_below_zero signed (sig_width sig.now) (sig_number (digits_in nets.now) sig.now) }
{
    let width = sig_width(sig);
    signed && width > 0 && sig_bit(sig, nets, width - 1)
}
