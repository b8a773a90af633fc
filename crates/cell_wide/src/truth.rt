//! Cells that give a truth value.
ghost use Rattle.std.specs.Prelude.{◌≡◌, ◌==◌, ◌&&◌, ◌%◌, ◌^◌, ◌-◌, ◌<◌, ◌≤◌, int_le, true, IfSome, length};
ghost use Rattle.circuit.specs.Output.{CellInputs, formula, cell_inputs, is_equal, modulo, ones, operand, output, truth};
ghost use Rattle.circuit.specs.Signal.{sig_number, sig_value, sig_width};
ghost use Rattle.signal_words.specs.Values.{digits_in, IsSignalOf, IsWordOf};
ghost use Rattle.cell_wide.specs.Kinds.{IsWideReady, is_equality, is_logic, is_reduction, is_truth};
ghost use Rattle.sim_base.specs.Values.{IsPut, width_at};

use crate::bitwise::operands;
use crate::count::is_odd;
use crate::operand::is_zero;
use crate::word::operand_word;
use crate::words::{Chain, Fill};
use crate::write::{same, write};
use circuit::{Cell, Op, Piece, sig_width};
use signal_words::{SigReader, SigWord, are_signed, one_piece, ones_word};
use sim_base::Values;

/// Whether all bits of a signal are 1.
#[inline(always)]
fn are_ones(sig: &[Piece], nets: &Values, word: Option<SigWord>) -> bool
    requires signal { IsSignalOf nets.now sig.now }
    requires word { IfSome word (λ word. IsWordOf nets.now sig.now word.width word.number) }
    ensures { result ≡ (sig_number (digits_in nets.now) sig.now == 2 ^ sig_width sig.now - 1) }
{
    match word {
        Some(word) => word.number == ones_word(word.width),
        None => are_ones_wide(sig, nets),
    }
}

/// Whether all bits of a signal of any width are 1.
#[inline(never)]
fn are_ones_wide(sig: &[Piece], nets: &Values) -> bool
    requires { IsSignalOf nets.now sig.now }
    ensures { result ≡ (sig_number (digits_in nets.now) sig.now == 2 ^ sig_width sig.now - 1) }
{
    let width = sig_width(sig);
    let mut ones = Fill { ones: true };
    match one_piece(sig, nets) {
        Some(digits) => {
            let mut digits = digits;
            same(&mut digits, &mut ones, width)
        }
        None => same(&mut SigReader::new(sig, nets), &mut ones, width),
    }
}

/// Whether the number of a signal is 0.
#[inline(always)]
fn is_none(sig: &[Piece], nets: &Values, word: Option<SigWord>) -> bool
    requires signal { IsSignalOf nets.now sig.now }
    requires word { IfSome word (λ word. IsWordOf nets.now sig.now word.width word.number) }
    ensures { result ≡ (sig_number (digits_in nets.now) sig.now == 0) }
{
    match word {
        Some(word) => word.number == 0,
        None => is_zero(sig, nets),
    }
}

/// Whether the number of bits of a signal that are 1 is odd.
#[inline(always)]
fn has_odd_ones(sig: &[Piece], nets: &Values, word: Option<SigWord>) -> bool
    requires signal { IsSignalOf nets.now sig.now }
    requires word { IfSome word (λ word. IsWordOf nets.now sig.now word.width word.number) }
    ensures { result ≡ (ones (sig_width sig.now) (sig_number (digits_in nets.now) sig.now) % 2 == 1) }
{
    match word {
        Some(word) => word.number.count_ones() % 2 == 1,
        None => has_odd_ones_wide(sig, nets),
    }
}

/// Whether the number of bits of a signal of any width that are 1 is odd.
#[inline(never)]
fn has_odd_ones_wide(sig: &[Piece], nets: &Values) -> bool
    requires { IsSignalOf nets.now sig.now }
    ensures { result ≡ (ones (sig_width sig.now) (sig_number (digits_in nets.now) sig.now) % 2 == 1) }
{
    let width = sig_width(sig);
    match one_piece(sig, nets) {
        Some(digits) => {
            let mut digits = digits;
            is_odd(&mut digits, width)
        }
        None => is_odd(&mut SigReader::new(sig, nets), width),
    }
}

#[inline(always)]
fn reduced(op: Op, sig: &[Piece], nets: &Values, a: Option<SigWord>) -> bool
    requires kind { is_reduction op ≡ true }
    requires signal { IsSignalOf nets.now sig.now }
    requires a { IfSome a (λ word. IsWordOf nets.now sig.now word.width word.number) }
    ensures { (i : CellInputs) → i.a ≡ sig_value (digits_in nets.now) sig.now → formula op i ≡ truth result }
{
    match op {
        Op::ReduceAnd => are_ones(sig, nets, a),
        Op::ReduceOr | Op::ReduceBool => !is_none(sig, nets, a),
        Op::ReduceXor => has_odd_ones(sig, nets, a),
        _ => !has_odd_ones(sig, nets, a),
    }
}

#[inline(always)]
fn logic(cell: &Cell, nets: &Values, a: Option<SigWord>, b: Option<SigWord>) -> bool
    requires kind { is_logic cell.now.op ≡ true }
    requires a_signal { IsSignalOf nets.now cell.now.a }
    requires b_signal { IsSignalOf nets.now cell.now.b }
    requires a { IfSome a (λ word. IsWordOf nets.now cell.now.a word.width word.number) }
    requires b { IfSome b (λ word. IsWordOf nets.now cell.now.b word.width word.number) }
    ensures { formula cell.now.op (cell_inputs (digits_in nets.now) cell.now) ≡ truth result }
{
    let (one, other) = (cell.a.as_slice(), cell.b.as_slice());
    match cell.op {
        Op::LogicNot => is_none(one, nets, a),
        Op::LogicAnd => !is_none(one, nets, a) && !is_none(other, nets, b),
        _ => !is_none(one, nets, a) || !is_none(other, nets, b),
    }
}

/// Whether two words stand for the same whole number.
#[inline(always)]
fn are_equal_words(a: SigWord, b: SigWord, signed: bool) -> bool
    requires a_small { a.width ≤ 64 }
    requires a_below { a.number < 2 ^ a.width }
    requires b_small { b.width ≤ 64 }
    requires b_below { b.number < 2 ^ b.width }
    ensures { result ≡ (int_le (operand signed a.width a.number) (operand signed b.width b.number) && int_le (operand signed b.width b.number) (operand signed a.width a.number)) }
{
    let width = a.width.max(b.width);
    operand_word(a, signed, width) == operand_word(b, signed, width)
}

/// Whether the two operands of a cell are the same whole number.
#[inline(always)]
fn are_equal(cell: &Cell, nets: &Values, a: Option<SigWord>, b: Option<SigWord>) -> bool
    requires a_signal { IsSignalOf nets.now cell.now.a }
    requires b_signal { IsSignalOf nets.now cell.now.b }
    requires a { IfSome a (λ word. IsWordOf nets.now cell.now.a word.width word.number) }
    requires b { IfSome b (λ word. IsWordOf nets.now cell.now.b word.width word.number) }
    ensures { result ≡ is_equal (cell_inputs (digits_in nets.now) cell.now) }
{
    match (a, b) {
        (Some(a), Some(b)) => are_equal_words(a, b, are_signed(cell)),
        _ => are_equal_wide(cell, nets),
    }
}

/// Whether the two operands of a cell, of any width, are the same whole number.
#[inline(never)]
fn are_equal_wide(cell: &Cell, nets: &Values) -> bool
    requires a { IsSignalOf nets.now cell.now.a }
    requires b { IsSignalOf nets.now cell.now.b }
    ensures { result ≡ is_equal (cell_inputs (digits_in nets.now) cell.now) }
{
    let a = cell.a.as_slice();
    let b = cell.b.as_slice();
    let width = sig_width(a).max(sig_width(b));
    let (mut one, mut other) = operands(cell, nets);
    same(&mut one, &mut other, width)
}

#[inline(always)]
fn equality(cell: &Cell, nets: &Values, a: Option<SigWord>, b: Option<SigWord>) -> bool
    requires kind { is_equality cell.now.op ≡ true }
    requires a_signal { IsSignalOf nets.now cell.now.a }
    requires b_signal { IsSignalOf nets.now cell.now.b }
    requires a { IfSome a (λ word. IsWordOf nets.now cell.now.a word.width word.number) }
    requires b { IfSome b (λ word. IsWordOf nets.now cell.now.b word.width word.number) }
    ensures { formula cell.now.op (cell_inputs (digits_in nets.now) cell.now) ≡ truth result }
{
    let equal = are_equal(cell, nets, a, b);
    match cell.op {
        Op::Eq | Op::Eqx => equal,
        _ => !equal,
    }
}

#[inline(always)]
fn truth_of(cell: &Cell, nets: &Values, a: Option<SigWord>, b: Option<SigWord>) -> bool
    requires kind { is_truth cell.now.op ≡ true }
    requires a_signal { IsSignalOf nets.now cell.now.a }
    requires b_signal { IsSignalOf nets.now cell.now.b }
    requires a { IfSome a (λ word. IsWordOf nets.now cell.now.a word.width word.number) }
    requires b { IfSome b (λ word. IsWordOf nets.now cell.now.b word.width word.number) }
    ensures { formula cell.now.op (cell_inputs (digits_in nets.now) cell.now) ≡ truth result }
{
    match cell.op {
        Op::Eq | Op::Ne | Op::Eqx | Op::Nex => equality(cell, nets, a, b),
        Op::LogicNot | Op::LogicAnd | Op::LogicOr => logic(cell, nets, a, b),
        _ => reduced(cell.op, cell.a.as_slice(), nets, a),
    }
}

/// The reductions, `$logic_not`, `$logic_and` and `$logic_or`, `$eq`, `$ne`, `$eqx` and `$nex`.
#[inline(always)]
pub fn truth(
    cell: &Cell,
    nets: &Values,
    a: Option<SigWord>,
    b: Option<SigWord>,
    into: &mut Values,
    out: u32,
) -> bool
    requires kind { is_truth cell.now.op ≡ true }
    requires ready { IsWideReady nets.now cell.now into.old out }
    requires a { IfSome a (λ word. IsWordOf nets.now cell.now.a word.width word.number) }
    requires b { IfSome b (λ word. IsWordOf nets.now cell.now.b word.width word.number) }
    ensures { IsPut out (output (digits_in nets.now) cell.now) into.old into.new result }
{
    let ones = truth_of(cell, nets, a, b);
    put_truth(into, out, ones)
}

/// Makes the number of a value 1 or 0, as far as it has bits, and tells whether that changed it.
#[inline(always)]
pub fn put_truth(into: &mut Values, out: u32, ones: bool) -> bool
    requires { out < length into.old }
    ensures { IsPut out (modulo (width_at into.old out) (truth ones)) into.old into.new result }
{
    if into.width(out) == 1 {
        return into.put_word(out, u64::from(ones));
    }
    put_truth_wide(into, out, ones)
}

/// Makes the number of a value of any width 1 or 0, and tells whether that changed it.
#[inline(never)]
fn put_truth_wide(into: &mut Values, out: u32, ones: bool) -> bool
    requires { out < length into.old }
    ensures { IsPut out (modulo (width_at into.old out) (truth ones)) into.old into.new result }
{
    let mut digits = Chain {
        low: Fill { ones },
        left: 1,
        high: Fill { ones: false },
    };
    write(&mut digits, into, out)
}
