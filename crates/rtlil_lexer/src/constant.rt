//! Constants: values of bits, written in digits.
ghost use Rattle.std.specs.Prelude.{◌≡◌, ◌≤◌, ◌<◌, ◌+◌, ◌^◌, length, IfOk};
ghost use Rattle.sim_base.specs.BitValue.{bit_value};
ghost use Rattle.rtlil_lexer.specs.Constants.{filled, filler, number_where, passes, widest};
ghost use Rattle.rtlil_lexer.specs.ConstantText.{IsConstantText, constant_in, digits_in, width_digits};
ghost use Rattle.rtlil_lexer.specs.Numbers.{decimal};

use crate::classes::{leading_decimals, sign_length};
use crate::number::capped_decimal;
use sim_base::{Bits, NoMemory};
use std::alloc::Global;
use std::marker::Model;

/// The most bits that a constant has.
pub const WIDEST: u32 = 67_108_864;

/// A constant, as it stands in the text: nothing is copied, and a constant takes the same small room
/// however many digits it stands for. A contract sees its width in bits and three numbers below 2 to
/// the width: its `value`, in which a bit is 1 where the digit is 1; `known`, in which a bit is 1 where
/// the digit is 0 or 1; and `any`, in which a bit is 1 where the digit is `-`. The digits that were not
/// written are counted as the Yosys manual fills them.
#[derive(Debug, Drop)]
pub struct Constant<'a> {
    spelled: &'a [u8],
}

impl<'a> Model for Constant<'a> {
    ghost use Rattle.rtlil_lexer.specs.Constants.{ConstantValue};
    ghost use Rattle.rtlil_lexer.specs.ConstantText.{IsConstantText, constant_in};

    ghost Value = { ConstantValue };

    ghost view = { λ c. constant_in c.spelled.now };

    ghost invariant = { λ c. IsConstantText c.spelled.now };
}

impl<'a> Constant<'a> {
    /// The same constant of the text.
    pub fn copied(&self) -> Constant<'a>
        ensures { result ≡ self.now }
    {
        Constant {
            spelled: self.spelled,
        }
    }

    /// The constant that a text stands for: the digits of its width in bits, a quote, an `s` or none, and
    /// its digits, the most significant first. Each of these is one of `0 1 x z m -`, and there are not
    /// more of them than bits.
    pub fn of(spelled: &'a [u8]) -> Constant<'a>
        requires { IsConstantText spelled.now }
        ensures { result ≡ constant_in spelled.now }
    {
        Constant { spelled }
    }

    /// The width in bits.
    pub fn width(&self) -> u32
        ensures { result ≡ self.now.width }
    {
        width_in(self.spelled)
    }

    /// The bits that are 1 where the digit is 1.
    pub fn value(&self, alloc: Global) -> Result<Bits, NoMemory>
        ensures { IfOk result (λ bits. bits ≡ bit_value self.now.width self.now.value) }
    {
        bits_where(
            alloc,
            width_in(self.spelled),
            digits_in(self.spelled),
            Sought::One,
        )
    }

    /// The bits that are 1 where the digit is 0 or 1.
    pub fn known(&self, alloc: Global) -> Result<Bits, NoMemory>
        ensures { IfOk result (λ bits. bits ≡ bit_value self.now.width self.now.known) }
    {
        bits_where(
            alloc,
            width_in(self.spelled),
            digits_in(self.spelled),
            Sought::Known,
        )
    }

    /// The bits that are 1 where the digit is `-`.
    pub fn any(&self, alloc: Global) -> Result<Bits, NoMemory>
        ensures { IfOk result (λ bits. bits ≡ bit_value self.now.width self.now.any) }
    {
        bits_where(
            alloc,
            width_in(self.spelled),
            digits_in(self.spelled),
            Sought::Any,
        )
    }
}

/// The width of a constant in bits.
fn width_in(spelled: &[u8]) -> u32
    requires { decimal (width_digits spelled.now) ≤ widest }
    ensures { result ≡ decimal (width_digits spelled.now) }
{
    capped_decimal(leading_decimals(spelled)) as u32
}

/// The digits of a constant, as they are written.
pub(crate) fn digits_in(spelled: &[u8]) -> &[u8]
    requires { length (width_digits spelled.now) < length spelled.now }
    ensures { result.now ≡ digits_in spelled.now }
{
    let rest = &spelled[leading_decimals(spelled).len() + 1..];
    &rest[sign_length(rest)..]
}

/// The digits that are sought.
#[derive(Clone, Copy)]
enum Sought {
    /// `1`
    One,
    /// `0` and `1`
    Known,
    /// `-`
    Any,
}

fn passes(sought: Sought, digit: u8) -> bool
    ensures { result ≡ passes sought digit }
{
    match sought {
        Sought::One => digit == b'1',
        Sought::Known => digit == b'0' || digit == b'1',
        Sought::Any => digit == b'-',
    }
}

/// The digit that stands for each one that was not written.
fn filler(digits: &[u8]) -> u8
    ensures { result ≡ filler digits.now }
{
    if digits.is_empty() {
        return b'x';
    }
    if digits[0] == b'1' { b'0' } else { digits[0] }
}

/// The bits of this width that are 1 where the digits are sought, the ones that were not written as they
/// are filled.
fn bits_where(alloc: Global, width: u32, digits: &[u8], sought: Sought) -> Result<Bits, NoMemory>
    requires { length digits.now ≤ width }
    ensures { IfOk result (λ bits. bits ≡ bit_value width (number_where (passes sought) (filled width digits.now))) }
{
    let mut bits = Bits::zero(alloc, width)?;
    set_written(&mut bits, digits, sought);
    if passes(sought, filler(digits)) {
        set_from(&mut bits, digits.len() as u32);
    }
    Ok(bits)
}

/// Sets the lowest bits where these digits are sought, the last digit being that of the least bit.
fn set_written(bits: &mut Bits, digits: &[u8], sought: Sought)
    requires room { length digits.now ≤ bits.old.width }
    requires zero { bits.old.number ≡ 0 }
    ensures width { bits.new.width ≡ bits.old.width }
    ensures number { bits.new.number ≡ number_where (passes sought) digits.now }
{
    let _ = bits.width();
    for at in 0..digits.len() {
        if passes(sought, digits[digits.len() - 1 - at]) {
            bits.set(at as u32, true);
        }
    }
}

/// Sets all bits from one on.
fn set_from(bits: &mut Bits, from: u32)
    requires inside { from ≤ bits.old.width }
    requires below { bits.old.number < 2 ^ from }
    ensures width { bits.new.width ≡ bits.old.width }
    ensures number { bits.new.number + 2 ^ from ≡ 2 ^ bits.old.width + bits.old.number }
{
    let width = bits.width();
    let mut at = from;
    while at < width {
        let part = (width - at).min(64);
        bits.put_field(at, part, u64::MAX);
        at += part;
    }
}
