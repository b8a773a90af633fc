//! Decimal digits as numbers.
ghost use Rattle.std.specs.Prelude.{◌≡◌, ◌≤◌, ◌+◌, ◌-◌, ◌*◌, true, min, length};
ghost use Rattle.std.specs.List.{list_all};
ghost use Rattle.std.specs.Char.{is_ascii_digit};
ghost use Rattle.rtlil_lexer.specs.Numbers.{decimal, integer_of};

/// Every number from here on is as good as this one: it is above all that a token may have.
const CAP: u64 = 4_294_967_296;

/// A front of a number and one decimal digit more, or the cap where that is greater.
fn with_digit(front: u64, digit: u8) -> u64
    requires front { front ≤ 4294967296 }
    requires digit { is_ascii_digit digit ≡ true }
    ensures { result ≡ min 4294967296 (front * 10 + (digit - 48)) }
{
    (front * 10 + u64::from(digit - b'0')).min(CAP)
}

/// The number of decimal digits, or 2 to 32 for each greater one.
pub(crate) fn capped_decimal(digits: &[u8]) -> u64
    requires { list_all is_ascii_digit digits.now ≡ true }
    ensures { result ≡ min 4294967296 (decimal digits.now) }
{
    let mut number = 0u64;
    for digit in digits {
        number = with_digit(number, *digit);
    }
    number
}

/// The number of decimal digits behind a minus or without one, where it has 32 bits with its sign.
pub(crate) fn integer_of(negative: bool, digits: &[u8]) -> Option<i32>
    requires { list_all is_ascii_digit digits.now ≡ true }
    ensures { result ≡ integer_of negative digits.now }
{
    let number = capped_decimal(digits) as i64;
    i32::try_from(if negative { -number } else { number }).ok()
}
