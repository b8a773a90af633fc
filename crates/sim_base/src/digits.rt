//! Numbers in digits, read and written.
ghost use Rattle.std.specs.Prelude.{◌≡◌, ◌<◌, ◌≤◌, length};
ghost use Rattle.sim_base.specs.Digits.{digit_character, digits_number, lowest_digits};

/// The number of a text of 1 to `most` decimal digits; none for every other text. At most 18 digits are read.
pub fn number_in_digits(text: &[u8], most: usize) -> Option<u64>
    requires { most ≤ 18 }
    ensures { result ≡ digits_number most text.now }
{
    if text.is_empty() || text.len() > most {
        return None;
    }
    let mut number = 0u64;
    for byte in text {
        if !byte.is_ascii_digit() {
            return None;
        }
        number = number * 10 + u64::from(*byte - b'0');
    }
    Some(number)
}

/// Fills the slice with the lowest digits of the number to this base, the most significant first.
/// Digits above 9 are lower-case letters.
pub fn write_lowest_digits(into: &mut [u8], base: u64, number: u64)
    requires least { 2 ≤ base }
    requires most { base ≤ 36 }
    ensures { into.new ≡ lowest_digits base (length into.old) number }
{
    let mut rest = number;
    for at in (0..into.len()).rev() {
        into[at] = digit_character(rest % base);
        rest /= base;
    }
}

pub(crate) fn digit_character(digit: u64) -> u8
    requires { digit < 36 }
    ensures { result ≡ digit_character digit }
{
    let digit = digit as u8;
    if digit < 10 {
        b'0' + digit
    } else {
        b'a' + (digit - 10)
    }
}
