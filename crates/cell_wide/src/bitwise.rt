//! Cells that work digit by digit.
ghost use Rattle.std.specs.Prelude.{◌≡◌, ℕ, ◌<◌, ◌≤◌, ◌^◌, true, IfSome, length};
ghost use Rattle.sim_base.specs.BitValue.{bit_value};
ghost use Rattle.circuit.specs.Output.{first, cell_inputs, left, modulo, output, right};
ghost use Rattle.circuit.specs.Signal.{Digits, sig_value};
ghost use Rattle.signal_words.specs.Values.{digits_in, IsSignalOf, IsWordOf};
ghost use Rattle.cell_wide.specs.Kinds.{IsWideReady, is_bitwise, is_unary};
ghost use Rattle.sim_base.specs.Values.{IsPut, width_at};
ghost use Rattle.cell_wide.specs.Words.{low_of_operand};

use crate::operand::{Operand, operand};
use crate::word::operand_word;
use crate::words::{Bitwise, Inverse, Pair, Words};
use crate::write::write;
use circuit::{Cell, Op};
use signal_words::{SigWord, are_signed, one_piece, ones_word};
use sim_base::Values;

/// The output of a unary cell whose port and output have at most 64 bits.
#[inline(always)]
fn unary_word(cell: &Cell, a: SigWord) -> u64
    requires kind { is_unary cell.now.op ≡ true }
    requires a_small { a.width ≤ 64 }
    requires a_below { a.number < 2 ^ a.width }
    requires small { cell.now.width ≤ 64 }
    ensures value { (digits : Digits) → sig_value digits cell.now.a ≡ bit_value a.width a.number → result ≡ output digits cell.now }
    ensures below { result < 2 ^ cell.now.width }
{
    let a = operand_word(a, cell.a_signed, cell.width);
    match cell.op {
        Op::Not => ones_word(cell.width) - a,
        _ => a,
    }
}

/// `$not` and `$pos`.
#[inline(always)]
pub fn unary(cell: &Cell, nets: &Values, a: Option<SigWord>, into: &mut Values, out: u32) -> bool
    requires kind { is_unary cell.now.op ≡ true }
    requires ready { IsWideReady nets.now cell.now into.old out }
    requires a { IfSome a (λ word. IsWordOf nets.now cell.now.a word.width word.number) }
    ensures { IsPut out (output (digits_in nets.now) cell.now) into.old into.new result }
{
    match a {
        Some(a) if cell.width <= 64 => into.put_word(out, unary_word(cell, a)),
        _ => unary_wide(cell, nets, into, out),
    }
}

/// `$not` and `$pos` of any width.
#[inline(never)]
fn unary_wide<'a>(cell: &'a Cell, nets: &'a Values, into: &mut Values, out: u32) -> bool
    requires kind { is_unary cell.now.op ≡ true }
    requires ready { IsWideReady nets.now cell.now into.old out }
    ensures { IsPut out (output (digits_in nets.now) cell.now) into.old into.new result }
{
    let a = cell.a.as_slice();
    match one_piece(a, nets) {
        Some(digits) if digits.width() >= cell.width => unary_by(cell, digits, into, out),
        _ => unary_by(cell, operand(a, nets, cell.a_signed), into, out),
    }
}

/// `$not` and `$pos` of these digits of the operand.
fn unary_by<A: Words>(cell: &Cell, digits: A, into: &mut Values, out: u32) -> bool
    requires kind { is_unary cell.now.op ≡ true }
    requires there { out < length into.old }
    requires into { width_at into.old out ≡ cell.now.width }
    ensures { (nets : Digits) → A.low digits (width_at into.old out) ≡ modulo (width_at into.old out) (first (cell_inputs nets cell.now)) → IsPut out (output nets cell.now) into.old into.new result }
{
    let mut digits = digits;
    match cell.op {
        Op::Not => write(&mut Inverse { of: digits }, into, out),
        _ => write(&mut digits, into, out),
    }
}

/// The two operands of a cell, which are signed where both flags are set.
pub fn operands<'a>(cell: &'a Cell, nets: &'a Values) -> (Operand<'a>, Operand<'a>)
    requires a { IsSignalOf nets.now cell.now.a }
    requires b { IsSignalOf nets.now cell.now.b }
    ensures one { (w : ℕ) → low_of_operand result.0.low result.0.left result.0.high.ones w ≡ modulo w (left (cell_inputs (digits_in nets.now) cell.now)) }
    ensures other { (w : ℕ) → low_of_operand result.1.low result.1.left result.1.high.ones w ≡ modulo w (right (cell_inputs (digits_in nets.now) cell.now)) }
{
    let signed = are_signed(cell);
    (
        operand(cell.a.as_slice(), nets, signed),
        operand(cell.b.as_slice(), nets, signed),
    )
}

/// The output of a binary cell whose ports and output have at most 64 bits.
#[inline(always)]
fn bitwise_word(cell: &Cell, a: SigWord, b: SigWord) -> u64
    requires kind { is_bitwise cell.now.op ≡ true }
    requires a_small { a.width ≤ 64 }
    requires a_below { a.number < 2 ^ a.width }
    requires b_small { b.width ≤ 64 }
    requires b_below { b.number < 2 ^ b.width }
    requires small { cell.now.width ≤ 64 }
    ensures value { (digits : Digits) → sig_value digits cell.now.a ≡ bit_value a.width a.number → sig_value digits cell.now.b ≡ bit_value b.width b.number
        → result ≡ output digits cell.now }
    ensures below { result < 2 ^ cell.now.width }
{
    let signed = are_signed(cell);
    let a = operand_word(a, signed, cell.width);
    let b = operand_word(b, signed, cell.width);
    match cell.op {
        Op::And => a & b,
        Op::Or => a | b,
        Op::Xor => a ^ b,
        _ => ones_word(cell.width) - (a ^ b),
    }
}

/// `$and`, `$or`, `$xor` and `$xnor`.
#[inline(always)]
pub fn bitwise(
    cell: &Cell,
    nets: &Values,
    a: Option<SigWord>,
    b: Option<SigWord>,
    into: &mut Values,
    out: u32,
) -> bool
    requires kind { is_bitwise cell.now.op ≡ true }
    requires ready { IsWideReady nets.now cell.now into.old out }
    requires a { IfSome a (λ word. IsWordOf nets.now cell.now.a word.width word.number) }
    requires b { IfSome b (λ word. IsWordOf nets.now cell.now.b word.width word.number) }
    ensures { IsPut out (output (digits_in nets.now) cell.now) into.old into.new result }
{
    match (a, b) {
        (Some(a), Some(b)) if cell.width <= 64 => into.put_word(out, bitwise_word(cell, a, b)),
        _ => bitwise_wide(cell, nets, into, out),
    }
}

/// `$and`, `$or`, `$xor` and `$xnor` of any width.
#[inline(never)]
fn bitwise_wide<'a>(cell: &'a Cell, nets: &'a Values, into: &mut Values, out: u32) -> bool
    requires kind { is_bitwise cell.now.op ≡ true }
    requires ready { IsWideReady nets.now cell.now into.old out }
    ensures { IsPut out (output (digits_in nets.now) cell.now) into.old into.new result }
{
    if let Some(a) = one_piece(cell.a.as_slice(), nets) {
        if let Some(b) = one_piece(cell.b.as_slice(), nets) {
            if a.width() >= cell.width && b.width() >= cell.width {
                return bitwise_by(cell, a, b, into, out);
            }
        }
    }
    bitwise_of_pieces(cell, nets, into, out)
}

/// `$and`, `$or`, `$xor` and `$xnor` of operands of any pieces.
#[inline(never)]
fn bitwise_of_pieces<'a>(cell: &'a Cell, nets: &'a Values, into: &mut Values, out: u32) -> bool
    requires kind { is_bitwise cell.now.op ≡ true }
    requires ready { IsWideReady nets.now cell.now into.old out }
    ensures { IsPut out (output (digits_in nets.now) cell.now) into.old into.new result }
{
    let (one, other) = operands(cell, nets);
    bitwise_by(cell, one, other, into, out)
}

/// `$and`, `$or`, `$xor` and `$xnor` of these digits of the operands.
fn bitwise_by<A: Words, B: Words>(
    cell: &Cell,
    one: A,
    other: B,
    into: &mut Values,
    out: u32,
) -> bool
    requires kind { is_bitwise cell.now.op ≡ true }
    requires there { out < length into.old }
    requires into { width_at into.old out ≡ cell.now.width }
    ensures { (nets : Digits) → A.low one (width_at into.old out) ≡ modulo (width_at into.old out) (left (cell_inputs nets cell.now)) → B.low other (width_at into.old out) ≡ modulo (width_at into.old out) (right (cell_inputs nets cell.now))
        → IsPut out (output nets cell.now) into.old into.new result }
{
    match cell.op {
        Op::And => {
            let by = Bitwise::And;
            write(&mut Pair { one, other, by }, into, out)
        }
        Op::Or => {
            let by = Bitwise::Or;
            write(&mut Pair { one, other, by }, into, out)
        }
        Op::Xor => {
            let by = Bitwise::Xor;
            write(&mut Pair { one, other, by }, into, out)
        }
        _ => {
            let by = Bitwise::Xor;
            let of = Pair { one, other, by };
            write(&mut Inverse { of }, into, out)
        }
    }
}
