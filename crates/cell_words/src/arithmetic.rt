//! Arithmetic cells and comparisons, by whole numbers.
ghost use Rattle.std.specs.Prelude.{◌≡◌, ◌≢◌, ◌<◌, ◌≤◌, ◌%◌, ◌^◌, ℤ, pos, true, false};
ghost use Rattle.sim_base.specs.BitValue.{bit_value};
ghost use Rattle.circuit.specs.Signal.{Digits, sig_value};
ghost use Rattle.circuit.specs.Output.{CellInputs, modulo, formula, truth, output};
ghost use Rattle.cell_words.specs.Kinds.{is_division, is_comparison, is_binary, is_arithmetic};
ghost use Rattle.cell_words.specs.Operands.{HasOperands, ReadsPorts};

use crate::narrow::Narrow;
use crate::port::Port;
use crate::whole::Whole;
use crate::write::low_word;
use circuit::{Cell, Op};
use signal_words::SigWord;

/// Quotients and remainders; a zero divisor gives 0.
#[inline(never)]
fn divided(op: Op, a: &Whole, b: &Whole) -> u128
    requires { is_division op ≡ true }
    ensures { (i : CellInputs) → HasOperands i a.now b.now → result ≡ modulo 128 (formula op i) }
{
    if b.is_zero() {
        return 0;
    }
    match op {
        Op::Div => a.truncated_quotient(b),
        Op::Mod => a.truncated_remainder(b),
        Op::DivFloor => a.floor_quotient(b),
        _ => a.floor_remainder(b),
    }
}

fn compared(op: Op, a: &Whole, b: &Whole) -> bool
    requires { is_comparison op ≡ true }
    ensures { (i : CellInputs) → HasOperands i a.now b.now → formula op i ≡ truth result }
{
    match op {
        Op::Lt => a.is_below(b),
        Op::Le => !b.is_below(a),
        Op::Ge => !a.is_below(b),
        _ => b.is_below(a),
    }
}

/// What a cell with two operands computes, modulo 2^128.
#[inline(always)]
fn of_two(op: Op, a: &Whole, b: &Whole) -> u128
    requires { is_binary op ≡ true }
    ensures { (i : CellInputs) → HasOperands i a.now b.now → result ≡ modulo 128 (formula op i) }
{
    match op {
        Op::Add => a.sum(b),
        Op::Sub => a.difference(b),
        Op::Mul => a.product(b),
        Op::Div | Op::Mod | Op::DivFloor | Op::ModFloor => divided(op, a, b),
        _ => u128::from(compared(op, a, b)),
    }
}

/// What an arithmetic cell computes, modulo 2^128.
#[inline(always)]
fn low_of(cell: &Cell, a: Port, b: Port) -> u128
    requires kind { is_arithmetic cell.now.op ≡ true }
    requires a_narrow { a.width ≤ 128 }
    requires a_below { a.number < 2 ^ a.width }
    requires b_narrow { b.width ≤ 128 }
    requires b_below { b.number < 2 ^ b.width }
    ensures { (i : CellInputs) → ReadsPorts cell.now (bit_value a.width a.number) (bit_value b.width b.number) i → result ≡ modulo 128 (formula cell.now.op i) }
{
    if cell.op == Op::Neg {
        return Whole::operand(cell.a_signed, a.width, a.number).negated();
    }
    let signed = cell.a_signed && cell.b_signed;
    let left = Whole::operand(signed, a.width, a.number);
    of_two(cell.op, &left, &Whole::operand(signed, b.width, b.number))
}

/// What an arithmetic cell computes from words, modulo 2^128. It stands apart so that the way for words stays short.
#[inline(never)]
fn low_of_words(cell: &Cell, a: SigWord, b: SigWord) -> u128
    requires kind { is_arithmetic cell.now.op ≡ true }
    requires a_narrow { a.width ≤ 64 }
    requires a_below { a.number < 2 ^ a.width }
    requires b_narrow { b.width ≤ 64 }
    requires b_below { b.number < 2 ^ b.width }
    ensures { (i : CellInputs) → ReadsPorts cell.now (bit_value a.width a.number) (bit_value b.width b.number) i → result ≡ modulo 128 (formula cell.now.op i) }
{
    low_of(cell, Port::of(a), Port::of(b))
}

/// What a cell with two operands of at most 64 digits computes, modulo 2^64. It does not divide.
#[inline(always)]
fn of_narrow(op: Op, a: &Narrow, b: &Narrow) -> u64
    requires kind { is_binary op ≡ true }
    requires plain { is_division op ≡ false }
    ensures { (i : CellInputs) → HasOperands i a.now b.now → result ≡ modulo 64 (formula op i) }
{
    match op {
        Op::Add => a.sum(b),
        Op::Sub => a.difference(b),
        Op::Mul => a.product(b),
        Op::Lt => u64::from(a.is_below(b)),
        Op::Le => u64::from(!b.is_below(a)),
        Op::Ge => u64::from(!a.is_below(b)),
        _ => u64::from(b.is_below(a)),
    }
}

/// What an arithmetic cell computes from words, modulo 2^64.
#[inline(always)]
fn low_of_cell(cell: &Cell, a: SigWord, b: SigWord) -> u64
    requires kind { is_arithmetic cell.now.op ≡ true }
    requires a_narrow { a.width ≤ 64 }
    requires a_below { a.number < 2 ^ a.width }
    requires b_narrow { b.width ≤ 64 }
    requires b_below { b.number < 2 ^ b.width }
    ensures { (i : CellInputs) → ReadsPorts cell.now (bit_value a.width a.number) (bit_value b.width b.number) i → result ≡ modulo 64 (formula cell.now.op i) }
{
    match cell.op {
        Op::Neg => Narrow::operand(cell.a_signed, a).negated(),
        Op::Div | Op::Mod | Op::DivFloor | Op::ModFloor => low_word(low_of_words(cell, a, b)),
        _ => {
            let signed = cell.a_signed && cell.b_signed;
            let left = Narrow::operand(signed, a);
            of_narrow(cell.op, &left, &Narrow::operand(signed, b))
        }
    }
}

/// A number whose lowest digits, at most 64, are those that an arithmetic cell gives for these words of its ports.
#[inline(always)]
pub fn word_of_cell(cell: &Cell, a: SigWord, b: SigWord) -> u64
    requires kind { is_arithmetic cell.now.op ≡ true }
    requires narrow { cell.now.width ≤ 64 }
    requires a_narrow { a.width ≤ 64 }
    requires a_below { a.number < 2 ^ a.width }
    requires b_narrow { b.width ≤ 64 }
    requires b_below { b.number < 2 ^ b.width }
    ensures { (digits : Digits) → sig_value digits cell.now.a ≡ bit_value a.width a.number → sig_value digits cell.now.b ≡ bit_value b.width b.number
        → result % 2 ^ cell.now.width ≡ output digits cell.now }
{
    low_of_cell(cell, a, b)
}

/// A number whose lowest digits are those that an arithmetic cell gives for these values of its ports.
#[inline(always)]
pub fn result_of(cell: &Cell, a: Port, b: Port) -> u128
    requires kind { is_arithmetic cell.now.op ≡ true }
    requires narrow { cell.now.width ≤ 128 }
    requires a_narrow { a.width ≤ 128 }
    requires a_below { a.number < 2 ^ a.width }
    requires b_narrow { b.width ≤ 128 }
    requires b_below { b.number < 2 ^ b.width }
    ensures { (digits : Digits) → sig_value digits cell.now.a ≡ bit_value a.width a.number → sig_value digits cell.now.b ≡ bit_value b.width b.number
        → result % 2 ^ cell.now.width ≡ output digits cell.now }
{
    low_of(cell, a, b)
}
