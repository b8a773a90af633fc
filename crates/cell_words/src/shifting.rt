//! Cells that shift, and their outputs.
ghost use Rattle.std.specs.Prelude.{◌≡◌, ◌<◌, ◌≤◌, ◌^◌, true};
ghost use Rattle.circuit.specs.Output.{CellInputs, operand, output};
ghost use Rattle.signal_words.specs.Values.{digits_in, IsSignalOf, IsWordOf};
ghost use Rattle.sim_base.specs.Values.{IsPut, width_at};
ghost use Rattle.cell_words.specs.Kinds.{is_one_sided, is_shift};
ghost use Rattle.cell_words.specs.Ready.{IsShiftReady};
ghost use Rattle.cell_words.specs.Shifts.{places};

use crate::amount::{amount_of, is_below_zero};
use crate::narrow::is_below_zero as is_word_below_zero;
use crate::port::Port;
use crate::shift::{moved_word, shift_of, shifted_plainly};
use crate::source::{MovedDigits, fill};
use crate::write::{put_low, put_low_word};
use circuit::{Cell, Op, sig_width};
use signal_words::{SigWord, is_one_word, one_word, whole_sig_word, word_of};
use sim_base::{Values, low_digits};

/// Whether the second operand has a sign, which it has in two types alone.
fn is_amount_signed(cell: &Cell) -> bool
    requires { is_shift cell.now.op ≡ true }
    ensures { (i : CellInputs) → i.b_signed ≡ cell.now.b_signed → operand result i.b.width i.b.number ≡ places cell.now.op i }
{
    match cell.op {
        Op::Shift | Op::Shiftx => cell.b_signed,
        _ => false,
    }
}

/// A shift of many words, word by word.
#[inline(never)]
fn shifted_words(cell: &Cell, nets: &Values, into: &mut Values, out: u32) -> bool
    requires kind { is_shift cell.now.op ≡ true }
    requires ready { IsShiftReady nets.now cell.now into.old out }
    ensures { IsPut out (output (digits_in nets.now) cell.now) into.old into.new result }
{
    let a = cell.a.as_slice();
    let negative = is_below_zero(a, nets, cell.a_signed);
    let amount = amount_of(cell.b.as_slice(), nets, is_amount_signed(cell));
    let shift = shift_of(cell, sig_width(a), negative, amount);
    let mut source = MovedDigits::new(a, nets, shift);
    fill(into, out, &mut source)
}

/// The output of a shift of one word.
#[inline(always)]
fn shifted_number(cell: &Cell, nets: &Values, a: SigWord) -> u128
    requires kind { is_shift cell.now.op ≡ true }
    requires width { cell.now.width ≤ 64 }
    requires a { IsWordOf nets.now cell.now.a a.width a.number }
    requires b { IsSignalOf nets.now cell.now.b }
    ensures value { result ≡ output (digits_in nets.now) cell.now }
    ensures below { result < 2 ^ cell.now.width }
{
    let negative = is_word_below_zero(a, cell.a_signed);
    let a = Port::of(a);
    let amount = amount_of(cell.b.as_slice(), nets, is_amount_signed(cell));
    let shift = shift_of(cell, a.width, negative, amount);
    moved_word(shift, a, cell.width)
}

/// A shift of a first operand of any pieces.
#[inline(never)]
fn shifted_pieces(cell: &Cell, nets: &Values, into: &mut Values, out: u32) -> bool
    requires kind { is_shift cell.now.op ≡ true }
    requires ready { IsShiftReady nets.now cell.now into.old out }
    ensures { IsPut out (output (digits_in nets.now) cell.now) into.old into.new result }
{
    match word_of(cell.a.as_slice(), nets) {
        Some(a) if cell.width <= 64 => {
            let number = shifted_number(cell, nets, a);
            put_low(into, out, number)
        }
        _ => shifted_words(cell, nets, into, out),
    }
}

/// A shift, in words where each operand is one piece of at most 64 bits and neither is below 0.
#[inline(always)]
pub fn shifted(cell: &Cell, nets: &Values, into: &mut Values, out: u32) -> bool
    requires kind { is_shift cell.now.op ≡ true }
    requires ready { IsShiftReady nets.now cell.now into.old out }
    ensures { IsPut out (output (digits_in nets.now) cell.now) into.old into.new result }
{
    if let Some(a) = one_word(cell.a.as_slice(), nets) {
        if let Some(b) = one_word(cell.b.as_slice(), nets) {
            let below = is_word_below_zero(a, cell.a_signed)
                || is_word_below_zero(b, cell.b_signed);
            if cell.width <= 64 && !below {
                let number = shifted_plainly(cell.op, a.number, b.number);
                return put_low_word(into, out, number);
            }
        }
    }
    shifted_pieces(cell, nets, into, out)
}

/// A shift of operands that are not whole values. It stands apart so that the ways for whole values stay short.
#[inline(never)]
fn shifted_parts(cell: &Cell, nets: &Values, into: &mut Values, out: u32) -> bool
    requires kind { is_shift cell.now.op ≡ true }
    requires ready { IsShiftReady nets.now cell.now into.old out }
    ensures { IsPut out (output (digits_in nets.now) cell.now) into.old into.new result }
{
    shifted(cell, nets, into, out)
}

/// A shift, and in one word where each port is a whole value of at most 64 bits and the first is not below 0. The type is
/// given apart from the cell, so that each has a way of its own.
#[inline(always)]
pub fn shift(op: Op, cell: &Cell, nets: &Values, into: &mut Values, out: u32) -> bool
    requires kind { is_one_sided op ≡ true }
    requires op { cell.now.op ≡ op }
    requires ready { IsShiftReady nets.now cell.now into.old out }
    ensures { IsPut out (output (digits_in nets.now) cell.now) into.old into.new result }
{
    let width = cell.width;
    if let Some(a) = whole_sig_word(cell.a.as_slice(), nets) {
        if let Some(b) = whole_sig_word(cell.b.as_slice(), nets) {
            if is_one_word(width) && !is_word_below_zero(a, cell.a_signed) {
                let number = shifted_plainly(op, a.number, b.number);
                return into.put_word(out, low_digits(number, width));
            }
        }
    }
    shifted_parts(cell, nets, into, out)
}
