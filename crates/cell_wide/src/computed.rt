//! Cells that compute, over ports that may be cut: those that do not select.
ghost use Rattle.std.specs.Prelude.{◌≡◌, true, IfSome};
ghost use Rattle.circuit.specs.Output.{output};
ghost use Rattle.signal_words.specs.Values.{digits_in, IsWordOf};
ghost use Rattle.sim_base.specs.Values.{IsPut, width_at};
ghost use Rattle.cell_wide.specs.Kinds.{IsWideReady, is_computed, is_truth};

use crate::bitwise::{bitwise, unary};
use crate::truth::truth;
use circuit::{Cell, Op};
use signal_words::{SigWord, one_word, whole_sig_word, word_of, word_of_whole};
use sim_base::Values;

/// Writes the output of a cell that does not select, and tells whether that changed it. `a` and `b` are the
/// words of its ports, where these have one.
#[inline(always)]
fn computed(
    cell: &Cell,
    nets: &Values,
    a: Option<SigWord>,
    b: Option<SigWord>,
    into: &mut Values,
    out: u32,
) -> bool
    requires kind { is_computed cell.now.op ≡ true }
    requires ready { IsWideReady nets.now cell.now into.old out }
    requires a { IfSome a (λ word. IsWordOf nets.now cell.now.a word.width word.number) }
    requires b { IfSome b (λ word. IsWordOf nets.now cell.now.b word.width word.number) }
    ensures { IsPut out (output (digits_in nets.now) cell.now) into.old into.new result }
{
    match cell.op {
        Op::Not | Op::Pos => unary(cell, nets, a, into, out),
        Op::And | Op::Or | Op::Xor | Op::Xnor => bitwise(cell, nets, a, b, into, out),
        _ => truth(cell, nets, a, b, into, out),
    }
}

/// Writes the output of a cell whose ports have any pieces.
#[inline(never)]
fn computed_of_pieces(cell: &Cell, nets: &Values, into: &mut Values, out: u32) -> bool
    requires kind { is_computed cell.now.op ≡ true }
    requires ready { IsWideReady nets.now cell.now into.old out }
    ensures { IsPut out (output (digits_in nets.now) cell.now) into.old into.new result }
{
    let a = word_of(cell.a.as_slice(), nets);
    let b = word_of(cell.b.as_slice(), nets);
    computed(cell, nets, a, b, into, out)
}

/// Writes the output of a cell that does not select, without a loop where each port is one piece of at most 64 bits. It
/// stands apart so that the ways for whole values stay short.
#[inline(never)]
pub fn computed_of_parts(cell: &Cell, nets: &Values, into: &mut Values, out: u32) -> bool
    requires kind { is_computed cell.now.op ≡ true }
    requires ready { IsWideReady nets.now cell.now into.old out }
    ensures { IsPut out (output (digits_in nets.now) cell.now) into.old into.new result }
{
    if let Some(a) = one_word(cell.a.as_slice(), nets) {
        if let Some(b) = one_word(cell.b.as_slice(), nets) {
            return computed(cell, nets, Some(a), Some(b), into, out);
        }
    }
    computed_of_pieces(cell, nets, into, out)
}

/// Writes the output of a cell that gives a truth value and compares no operands, at once where each port is a whole
/// value of at most 64 bits.
#[inline(always)]
pub fn truth_of_values(cell: &Cell, nets: &Values, into: &mut Values, out: u32) -> bool
    requires kind { is_truth cell.now.op ≡ true }
    requires ready { IsWideReady nets.now cell.now into.old out }
    ensures { IsPut out (output (digits_in nets.now) cell.now) into.old into.new result }
{
    if let Some(a) = whole_sig_word(cell.a.as_slice(), nets) {
        if let Some(b) = word_of_whole(cell.b.as_slice(), nets) {
            return truth(cell, nets, Some(a), Some(b), into, out);
        }
    }
    computed_of_parts(cell, nets, into, out)
}
