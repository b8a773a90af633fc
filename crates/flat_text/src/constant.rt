//! Words as numbers, binary digits, quoted texts and identifiers.
ghost use Rattle.std.specs.Prelude.{◌≡◌, ◌≤◌, ◌==◌, Some, None, IfOk, IsTrue, Err, length, position, option_copied};
ghost use Rattle.std.specs.List.{list_all};
ghost use Rattle.flat_text.specs.Constants.{number_of, bits_of, bits_of_digits, constant_of, identifier_of, is_identifier, is_plain, is_quoted, operand_of, text_of};

use crate::fault::FlatFault;
use crate::module::{Constant, Operand};
use crate::words::place_of;
use sim_base::{Bits, Name, NoMemory, number_in_digits};
use std::alloc::Global;

/// How many decimal digits a number has at most.
const MOST_DIGITS: usize = 9;

/// The greatest width of a value in binary digits.
const WIDEST: u32 = 67_108_864;

/// The number of 1 to 9 decimal digits.
pub(crate) fn number_of(word: &[u8]) -> Option<u32>
    ensures { result ≡ number_of word.now }
{
    let number = number_in_digits(word, MOST_DIGITS)?;
    Some(number as u32)
}

/// The value of so many binary digits, the most significant first.
fn bits_of_digits(alloc: Global, width: u32, digits: &[u8]) -> Result<Option<Bits>, NoMemory>
    ensures { IfOk result (λ bits. bits ≡ bits_of_digits width digits.now) }
{
    if width > WIDEST || digits.len() != width as usize {
        return Ok(None);
    }
    let mut bits = Bits::zero(alloc, width)?;
    for (at, digit) in digits.iter().enumerate() {
        if *digit == b'1' {
            bits.set(width - 1 - at as u32, true);
        } else if *digit != b'0' {
            return Ok(None);
        }
    }
    Ok(Some(bits))
}

/// The value of a width, a quote and so many binary digits.
#[tactic(auto, unfolding(crate::specs::Constants::bits_of))]
fn bits_of(alloc: Global, word: &[u8]) -> Result<Option<Bits>, NoMemory>
    ensures { IfOk result (λ bits. bits ≡ bits_of word.now) }
{
    let Some(quote) = place_of(b'\'', word) else {
        return Ok(None);
    };
    let Some(width) = number_of(&word[..quote]) else {
        return Ok(None);
    };
    bits_of_digits(alloc, width, &word[quote + 1..])
}

fn is_plain(text: &[u8]) -> bool
    ensures { result ≡ list_all is_plain text.now }
{
    text.iter().all(|byte| *byte != b'"' && *byte != b'\\')
}

/// Whether a word begins and ends with a double quote.
fn is_quoted(word: &[u8]) -> bool
    ensures value { result ≡ is_quoted word.now }
    ensures long { IsTrue result → 2 ≤ length word.now }
{
    word.len() >= 2 && word[0] == b'"' && word[word.len() - 1] == b'"'
}

/// What stands between double quotes.
#[tactic(auto, unfolding(crate::specs::Constants::text_of))]
fn text_of(word: &[u8]) -> Option<&[u8]>
    ensures { option_copied result ≡ text_of word.now }
{
    if !is_quoted(word) {
        return None;
    }
    let text = &word[1..word.len() - 1];
    if is_plain(text) { Some(text) } else { None }
}

/// Reads a number, binary digits or a quoted text.
#[tactic(auto, unfolding(crate::specs::Constants::constant_of))]
pub(crate) fn constant_of(alloc: Global, word: &[u8]) -> Result<Constant, FlatFault>
    ensures ok { IfOk result (λ constant. constant_of word.now ≡ Some constant) }
    ensures not_built { result ≡ Err FlatFault.NotBuilt → constant_of word.now ≡ None }
{
    if let Some(number) = number_of(word) {
        return Ok(Constant::Number(number));
    }
    if let Some(bits) = bits_of(alloc, word)? {
        return Ok(Constant::Digits(bits));
    }
    let Some(text) = text_of(word) else {
        return Err(FlatFault::NotBuilt);
    };
    Ok(Constant::Text(Name::copy_of(alloc, text)?))
}

/// Whether a word is an identifier.
fn is_identifier(word: &[u8]) -> bool
    ensures { result ≡ is_identifier word.now }
{
    word.len() >= 2 && (word[0] == b'\\' || word[0] == b'$')
}

/// Reads an identifier.
pub(crate) fn identifier_of(alloc: Global, word: &[u8]) -> Result<Name, FlatFault>
    ensures ok { IfOk result (λ name. identifier_of word.now ≡ Some name) }
    ensures not_built { result ≡ Err FlatFault.NotBuilt → identifier_of word.now ≡ None }
{
    if !is_identifier(word) {
        return Err(FlatFault::NotBuilt);
    }
    Ok(Name::copy_of(alloc, word)?)
}

/// Reads what a port of a cell is joined to.
#[tactic(auto, unfolding(crate::specs::Constants::operand_of))]
pub(crate) fn operand_of(alloc: Global, word: &[u8]) -> Result<Operand, FlatFault>
    ensures ok { IfOk result (λ operand. operand_of word.now ≡ Some operand) }
    ensures not_built { result ≡ Err FlatFault.NotBuilt → operand_of word.now ≡ None }
{
    if is_identifier(word) {
        return Ok(Operand::Wire(Name::copy_of(alloc, word)?));
    }
    let Some(bits) = bits_of(alloc, word)? else {
        return Err(FlatFault::NotBuilt);
    };
    Ok(Operand::Digits(bits))
}
