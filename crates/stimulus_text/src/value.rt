//! Values of bits, kept in as little memory as their text takes.
ghost use Rattle.std.specs.Prelude.{◌≡◌, ◌^◌, ◌<◌, ◌≤◌, Some, None, Ok, Err, IfOk, IsTrue, false, length, nat_lt, unwrap_or};
ghost use Rattle.std.specs.Char.{digit_value};
ghost use Rattle.std.specs.Option.{option_map};
ghost use Rattle.sim_base.specs.BitValue.{bit_value};
ghost use Rattle.sim_base.specs.Digits.{hexadecimal_number};
ghost use Rattle.stimulus_text.specs.Numbers.{number_of, number_within};

use sim_base::{Bits, Name, NoMemory};
use sqlite_items::Boxed;
use std::alloc::Global;

/// So many hexadecimal digits fit a word of 64 bits.
const WORD_DIGITS: usize = 16;

/// The number of a value, whatever the width is.
#[derive(Debug, Drop)]
pub enum Value {
    /// The number itself.
    Word(u64),
    /// The number's hexadecimal digits, where there are more than 16.
    Digits(Boxed<Name>),
}

/// The digit that a character stands for in bases up to 36, and 36 where it stands for none.
fn digit_of(byte: u8) -> u64
    ensures { result ≡ digit_value byte }
{
    u64::from(char::from(byte).to_digit(36).unwrap_or(36))
}

/// The number of 1 to 16 hexadecimal digits; none for every other text.
fn word_of(text: &[u8]) -> Option<u64>
    requires { length text.now ≤ 16 }
    ensures { result ≡ hexadecimal_number text.now }
{
    if text.is_empty() {
        return None;
    }
    let mut number = 0u64;
    for byte in text {
        let digit = digit_of(*byte);
        if digit >= 16 {
            return None;
        }
        number = number * 16 + digit;
    }
    Some(number)
}

/// Whether a number is below 2 to the width.
fn fits(number: u64, width: u32) -> bool
    ensures { result ≡ nat_lt number (2 ^ width) }
{
    width >= 64 || number >> width == 0
}

/// The value of a word of at most 16 digits.
fn read_word(width: u32, word: &[u8]) -> Option<u64>
    requires { length word.now ≤ 16 }
    ensures { result ≡ number_within width word.now }
{
    let number = word_of(word)?;
    if fits(number, width) {
        Some(number)
    } else {
        None
    }
}

/// The value of a word of more digits.
fn read_digits(alloc: Global, width: u32, word: &[u8]) -> Result<Option<Value>, NoMemory>
    ensures { IfOk result (λ read. option_map number_of read ≡ number_within width word.now) }
{
    let mut value = Bits::zero(alloc, width)?;
    if !value.put_hexadecimal(word) {
        return Ok(None);
    }
    let digits = Name::copy_of(alloc, word)?;
    Ok(Some(Value::Digits(Boxed::new(alloc, digits)?)))
}

/// The value of a word of hexadecimal digits, where it is below 2 to the width; none for every other word.
pub fn read_value(alloc: Global, width: u32, word: &[u8]) -> Result<Option<Value>, NoMemory>
    ensures { IfOk result (λ read. option_map number_of read ≡ number_within width word.now) }
{
    if word.len() > WORD_DIGITS {
        return read_digits(alloc, width, word);
    }
    Ok(read_word(width, word).map(Value::Word))
}

/// Writes a value's number into bits that hold it, where it is a word and there are at most 64 bits; it tells whether it
/// did, and leaves them as they are where not.
#[inline(always)]
pub fn put_narrow(value: &Value, into: &mut Bits) -> bool
    requires { number_of value.now < 2 ^ into.old.width }
    ensures put { IsTrue result → into.new ≡ bit_value into.old.width (number_of value.now) }
    ensures kept { result ≡ false → into.new ≡ into.old }
{
    match value {
        Value::Word(number) if into.width() <= 64 => {
            into.put(*number);
            true
        }
        _ => false,
    }
}

/// Writes a value's number into bits that hold it.
#[inline(always)]
pub fn put_value(value: &Value, into: &mut Bits)
    requires { number_of value.now < 2 ^ into.old.width }
    ensures { into.new ≡ bit_value into.old.width (number_of value.now) }
{
    match value {
        Value::Word(number) => put_word(*number, into),
        Value::Digits(digits) => put_digits(digits, into),
    }
}

/// Writes the number of digits into bits that hold it.
#[cold]
#[inline(never)]
fn put_digits(digits: &Boxed<Name>, into: &mut Bits)
    requires { unwrap_or (hexadecimal_number digits.now) 0 < 2 ^ into.old.width }
    ensures { into.new ≡ bit_value into.old.width (unwrap_or (hexadecimal_number digits.now) 0) }
{
    into.clear();
    into.put_hexadecimal(digits.get().as_bytes());
}

/// Writes a number of 64 bits into bits that hold it.
#[inline(always)]
fn put_word(number: u64, into: &mut Bits)
    requires { number < 2 ^ into.old.width }
    ensures { into.new ≡ bit_value into.old.width number }
{
    if into.width() <= 64 {
        into.put(number);
    } else {
        put_low(number, into);
    }
}

/// Writes a number of 64 bits into more bits.
#[cold]
#[inline(never)]
fn put_low(number: u64, into: &mut Bits)
    requires { 64 < into.old.width }
    ensures { into.new ≡ bit_value into.old.width number }
{
    into.clear();
    into.put_field(0, 64, number);
}
