//! Values of one width, digit by digit.
ghost use Rattle.std.specs.Prelude.{◌≡◌, ◌==◌, ◌<◌, ◌≤◌, ◌^◌, length, true};
ghost use Rattle.sim_base.specs.Values.{IsPut, width_at, with_number};
ghost use Rattle.cell_wide.specs.Kinds.{is_bitwise, is_unary};
ghost use Rattle.cell_wide.specs.Words.{digitwise};

use circuit::Op;
use signal_words::ones_word;
use sim_base::{BitsView, Values};

/// What a type of cell makes of `n` digits of its two operands. A type that is none of these keeps the first.
#[inline(always)]
pub fn digitwise(op: Op, n: u32, one: u64, other: u64) -> u64
    requires small { n ≤ 64 }
    requires one { one < 2 ^ n }
    requires other { other < 2 ^ n }
    ensures value { result ≡ digitwise op n one other }
    ensures below { result < 2 ^ n }
{
    match op {
        Op::And => one & other,
        Op::Or => one | other,
        Op::Xor => one ^ other,
        Op::Xnor => ones_word(n) - (one ^ other),
        Op::Not => ones_word(n) - one,
        _ => one,
    }
}

/// Whether a value is what a type of cell makes of two others, word by word. The last word may have fewer digits.
#[inline(always)]
fn is_written<'a>(op: Op, one: &BitsView<'a>, other: &BitsView<'a>, value: &BitsView) -> bool
    requires one { one.now.width ≡ value.now.width }
    requires other { other.now.width ≡ value.now.width }
    ensures { result ≡ (value.now.number == digitwise op value.now.width one.now.number other.now.number) }
{
    let _ = (one.width(), other.width());
    let width = value.width();
    let whole = (width / 64) as usize;
    let (left, right, old) = (one.words(), other.words(), value.words());
    let mut changed = 0u64;
    let mut place = 0usize;
    while place < whole {
        changed |= old[place] ^ digitwise(op, 64, left[place], right[place]);
        place += 1;
    }
    let rest = width % 64;
    if rest > 0 {
        changed |= old[whole] ^ digitwise(op, rest, left[whole], right[whole]);
    }
    changed == 0
}

/// Makes a value what a type of cell makes of two others, word by word.
#[inline(always)]
fn put_words<'a>(op: Op, one: &BitsView<'a>, other: &BitsView<'a>, into: &mut Values, out: u32)
    requires there { out < length into.old }
    requires one { one.now.width ≡ width_at into.old out }
    requires other { other.now.width ≡ width_at into.old out }
    ensures { into.new ≡ with_number into.old out (digitwise op (width_at into.old out) one.now.number other.now.number) }
{
    let _ = (one.width(), other.width());
    let width = into.width(out);
    let whole = (width / 64) as usize;
    let (left, right) = (one.words(), other.words());
    let mut place = 0usize;
    while place < whole {
        let word = digitwise(op, 64, left[place], right[place]);
        into.put_word_at(out, place as u32, word);
        place += 1;
    }
    let rest = width % 64;
    if rest > 0 {
        let word = digitwise(op, rest, left[whole], right[whole]);
        into.put_word_at(out, whole as u32, word);
    }
}

/// Writes what a type of cell makes of two values, where that is something else than what is there, and tells
/// whether it is.
#[inline(always)]
fn write_words<'a>(
    op: Op,
    one: &BitsView<'a>,
    other: &BitsView<'a>,
    into: &mut Values,
    out: u32,
) -> bool
    requires there { out < length into.old }
    requires one { one.now.width ≡ width_at into.old out }
    requires other { other.now.width ≡ width_at into.old out }
    ensures { IsPut out (digitwise op (width_at into.old out) one.now.number other.now.number) into.old into.new result }
{
    if is_written(op, one, other, &into.view(out)) {
        return false;
    }
    put_words(op, one, other, into, out);
    true
}

/// Writes what `$and`, `$or`, `$xor` or `$xnor` makes of two values of the output's width, with a loop of its own for each
/// type, and tells whether that changed it.
#[inline(always)]
pub fn write_bitwise<'a>(
    op: Op,
    one: &BitsView<'a>,
    other: &BitsView<'a>,
    into: &mut Values,
    out: u32,
) -> bool
    requires kind { is_bitwise op ≡ true }
    requires there { out < length into.old }
    requires one { one.now.width ≡ width_at into.old out }
    requires other { other.now.width ≡ width_at into.old out }
    ensures { IsPut out (digitwise op (width_at into.old out) one.now.number other.now.number) into.old into.new result }
{
    match op {
        Op::And => write_words(Op::And, one, other, into, out),
        Op::Or => write_words(Op::Or, one, other, into, out),
        Op::Xor => write_words(Op::Xor, one, other, into, out),
        _ => write_words(Op::Xnor, one, other, into, out),
    }
}

/// Writes what `$not` or `$pos` makes of a value of the output's width, with a loop of its own for each type, and tells
/// whether that changed it.
#[inline(always)]
pub fn write_unary<'a>(op: Op, value: &BitsView<'a>, into: &mut Values, out: u32) -> bool
    requires kind { is_unary op ≡ true }
    requires there { out < length into.old }
    requires width { value.now.width ≡ width_at into.old out }
    ensures { IsPut out (digitwise op (width_at into.old out) value.now.number value.now.number) into.old into.new result }
{
    match op {
        Op::Not => write_words(Op::Not, value, value, into, out),
        _ => write_words(Op::Pos, value, value, into, out),
    }
}

/// Whether two values of one width are the same.
#[inline(always)]
pub fn are_same(one: &BitsView, other: &BitsView) -> bool
    requires { one.now.width ≡ other.now.width }
    ensures { result ≡ (one.now.number == other.now.number) }
{
    is_written(Op::Pos, other, other, one)
}
