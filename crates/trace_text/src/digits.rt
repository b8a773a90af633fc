//! Numbers in digits.
ghost use Rattle.std.specs.Prelude.{◌≡◌, ◌-◌, ◌*◌, ◌^◌, ◌<◌, ◌≤◌, ◌++◌, OnOk, decimal, length, min};
ghost use Rattle.sim_base.specs.Digits.{lowest_digits};
ghost use Rattle.sim_base.specs.Shape.{words_of_width};
ghost use Rattle.sim_base.specs.TimeText.{time_text};
ghost use Rattle.spool_format.specs.Records.{slot_number};
ghost use Rattle.trace_text.specs.Text.{value_text};

use itoa::Buffer;
use sim_base::{NoMemory, Time, write_lowest_digits};

/// A word of 32 bits has so many hexadecimal digits.
const WORD_DIGITS: usize = 8;

/// Puts a number in decimal behind the text.
pub fn push_decimal(text: &mut Vec<u8>, number: u64) -> Result<(), NoMemory>
    ensures { OnOk result (text.new.items ≡ text.old.items ++ decimal number) }
{
    let mut buffer = Buffer::new();
    text.extend_from_slice(buffer.format(number).as_bytes())?;
    Ok(())
}

/// Puts a time behind the text.
pub fn push_time(text: &mut Vec<u8>, time: Time) -> Result<(), NoMemory>
    ensures { OnOk result (text.new.items ≡ text.old.items ++ time_text time) }
{
    let mut buffer = [0u8; 26];
    let count = time.write(&mut buffer);
    text.extend_from_slice(&buffer[..count])?;
    Ok(())
}

/// Puts the lowest hexadecimal digits of a word behind the text.
fn push_word(text: &mut Vec<u8>, digits: usize, word: u32) -> Result<(), NoMemory>
    requires { digits ≤ 8 }
    ensures { OnOk result (text.new.items ≡ text.old.items ++ lowest_digits 16 digits word) }
{
    let mut buffer = [b'0'; WORD_DIGITS];
    write_lowest_digits(&mut buffer[..digits], 16, u64::from(word));
    text.extend_from_slice(&buffer[..digits])?;
    Ok(())
}

/// How many of so many digits stand in the word at a place, of which the least has the place 0.
fn digits_at(digits: usize, place: usize) -> usize
    requires { place < 2 ^ 32 }
    ensures { result ≡ min 8 (digits - 8 * place) }
{
    digits.saturating_sub(WORD_DIGITS * place).min(WORD_DIGITS)
}

/// Puts the lowest hexadecimal digits of the number that words stand for, the least first, behind the text. The words
/// have that many.
fn push_number(text: &mut Vec<u8>, digits: usize, words: &[u32]) -> Result<(), NoMemory>
    requires within { digits ≤ 8 * length words.now }
    requires few { length words.now ≤ 2 ^ 32 }
    ensures { OnOk result (text.new.items ≡ text.old.items ++ lowest_digits 16 digits (slot_number words.now)) }
{
    for place in (0..words.len()).rev() {
        push_word(text, digits_at(digits, place), words[place])?;
    }
    Ok(())
}

/// Puts a value behind the text, after a blank.
pub fn push_value(text: &mut Vec<u8>, width: u32, words: &[u32]) -> Result<(), NoMemory>
    requires { length words.now ≡ words_of_width width }
    ensures { OnOk result (text.new.items ≡ text.old.items ++ value_text width (slot_number words.now)) }
{
    text.push(b' ')?;
    let digits = (width as usize + 3) / 4;
    if digits == 0 {
        text.push(b'0')?;
        return Ok(());
    }
    push_number(text, digits, words)
}
