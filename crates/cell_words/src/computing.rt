//! Cells that compute with whole numbers, and their outputs.
ghost use Rattle.std.specs.Prelude.{◌≡◌, true};
ghost use Rattle.circuit.specs.Output.{output};
ghost use Rattle.signal_words.specs.Values.{digits_in};
ghost use Rattle.sim_base.specs.Values.{IsPut, width_at};
ghost use Rattle.cell_words.specs.Kinds.{is_arithmetic, is_comparison, is_modular};
ghost use Rattle.cell_words.specs.Ready.{IsArithmeticReady};

use crate::arithmetic::{result_of, word_of_cell};
use crate::port::port_of;
use crate::values::{combined, compared, digit};
use crate::write::{put_low, put_low_word};
use circuit::{Cell, Op};
use signal_words::{are_signed, is_one_word, one_word, whole_sig_word, whole_word};
use sim_base::{Values, low_digits};

/// Arithmetic and comparisons of ports of any pieces. It stands apart so that the way for ports of one piece stays
/// short.
#[inline(never)]
fn arithmetic_of_pieces(cell: &Cell, nets: &Values, into: &mut Values, out: u32) -> bool
    requires kind { is_arithmetic cell.now.op ≡ true }
    requires ready { IsArithmeticReady nets.now cell.now into.old out }
    ensures { IsPut out (output (digits_in nets.now) cell.now) into.old into.new result }
{
    let a = port_of(cell.a.as_slice(), nets);
    let b = port_of(cell.b.as_slice(), nets);
    let number = result_of(cell, a, b);
    put_low(into, out, number)
}

/// Arithmetic and comparisons, without a loop where each port is one piece of at most 64 bits.
#[inline(always)]
pub fn arithmetic(cell: &Cell, nets: &Values, into: &mut Values, out: u32) -> bool
    requires kind { is_arithmetic cell.now.op ≡ true }
    requires ready { IsArithmeticReady nets.now cell.now into.old out }
    ensures { IsPut out (output (digits_in nets.now) cell.now) into.old into.new result }
{
    if let Some(a) = one_word(cell.a.as_slice(), nets) {
        if let Some(b) = one_word(cell.b.as_slice(), nets) {
            if cell.width <= 64 {
                let number = word_of_cell(cell, a, b);
                return put_low_word(into, out, number);
            }
        }
    }
    arithmetic_of_pieces(cell, nets, into, out)
}

/// Arithmetic and comparisons of ports that are not whole values. It stands apart so that the ways for whole values
/// stay short.
#[inline(never)]
fn arithmetic_of_parts(cell: &Cell, nets: &Values, into: &mut Values, out: u32) -> bool
    requires kind { is_arithmetic cell.now.op ≡ true }
    requires ready { IsArithmeticReady nets.now cell.now into.old out }
    ensures { IsPut out (output (digits_in nets.now) cell.now) into.old into.new result }
{
    arithmetic(cell, nets, into, out)
}

/// `$add`, `$sub` and `$mul`, and in one word without a sign where each port is a whole value of the output's width.
/// The type is given apart from the cell, so that each has a way of its own.
#[inline(always)]
pub fn combination(op: Op, cell: &Cell, nets: &Values, into: &mut Values, out: u32) -> bool
    requires kind { is_modular op ≡ true }
    requires op { cell.now.op ≡ op }
    requires ready { IsArithmeticReady nets.now cell.now into.old out }
    ensures { IsPut out (output (digits_in nets.now) cell.now) into.old into.new result }
{
    let width = cell.width;
    if is_one_word(width) {
        if let Some(a) = whole_word(cell.a.as_slice(), nets, width) {
            if let Some(b) = whole_word(cell.b.as_slice(), nets, width) {
                let word = low_digits(combined(op, a, b), width);
                return into.put_word(out, word);
            }
        }
    }
    arithmetic_of_parts(cell, nets, into, out)
}

/// `$lt`, `$le`, `$ge` and `$gt`, and in one word where the ports are whole values of one width.
#[inline(always)]
pub fn comparison(op: Op, cell: &Cell, nets: &Values, into: &mut Values, out: u32) -> bool
    requires kind { is_comparison op ≡ true }
    requires op { cell.now.op ≡ op }
    requires ready { IsArithmeticReady nets.now cell.now into.old out }
    ensures { IsPut out (output (digits_in nets.now) cell.now) into.old into.new result }
{
    if let Some(a) = whole_sig_word(cell.a.as_slice(), nets) {
        if let Some(b) = whole_word(cell.b.as_slice(), nets, a.width) {
            if a.width > 0 && is_one_word(cell.width) {
                let told = compared(op, are_signed(cell), a.width, a.number, b);
                return into.put_word(out, digit(told));
            }
        }
    }
    arithmetic_of_parts(cell, nets, into, out)
}
