//! Cells whose operands are whole values: constants and whole nets, of the widths that need no cut and no sign.
ghost use Rattle.std.specs.Prelude.{◌≡◌, true};
ghost use Rattle.circuit.specs.Output.{CellInputs, formula, is_equal, output, truth};
ghost use Rattle.circuit.specs.declared.cell.Op.{Op};
ghost use Rattle.signal_words.specs.Values.{digits_in};
ghost use Rattle.cell_wide.specs.Kinds.{IsWideReady, is_bitwise, is_equality, is_unary, tells_difference};
ghost use Rattle.sim_base.specs.Values.{IsPut, width_at};

use crate::computed::computed_of_parts;
use crate::truth::put_truth;
use crate::values::{are_same, digitwise, write_bitwise, write_unary};
use circuit::{Cell, Op};
use signal_words::{whole_sig_word, whole_value, whole_value_of_width, whole_word};
use sim_base::Values;

/// `$not` and `$pos`.
#[inline(always)]
pub fn unary_values(cell: &Cell, nets: &Values, into: &mut Values, out: u32) -> bool
    requires kind { is_unary cell.now.op ≡ true }
    requires ready { IsWideReady nets.now cell.now into.old out }
    ensures { IsPut out (output (digits_in nets.now) cell.now) into.old into.new result }
{
    let width = cell.width;
    if width <= 64 {
        if let Some(a) = whole_word(cell.a.as_slice(), nets, width) {
            return into.put_word(out, digitwise(cell.op, width, a, a));
        }
    }
    unary_of_words(cell, nets, into, out)
}

/// `$not` and `$pos` of a value of many words.
#[inline(never)]
fn unary_of_words<'a>(cell: &'a Cell, nets: &'a Values, into: &mut Values, out: u32) -> bool
    requires kind { is_unary cell.now.op ≡ true }
    requires ready { IsWideReady nets.now cell.now into.old out }
    ensures { IsPut out (output (digits_in nets.now) cell.now) into.old into.new result }
{
    if let Some(a) = whole_value_of_width(cell.a.as_slice(), nets, cell.width) {
        let _ = a.width();
        return write_unary(cell.op, &a, into, out);
    }
    computed_of_parts(cell, nets, into, out)
}

/// `$and`, `$or`, `$xor` and `$xnor`. The type is given apart from the cell, so that each has a way of its own.
#[inline(always)]
pub fn bitwise_values(op: Op, cell: &Cell, nets: &Values, into: &mut Values, out: u32) -> bool
    requires kind { is_bitwise op ≡ true }
    requires op { cell.now.op ≡ op }
    requires ready { IsWideReady nets.now cell.now into.old out }
    ensures { IsPut out (output (digits_in nets.now) cell.now) into.old into.new result }
{
    let width = cell.width;
    if width <= 64 {
        if let Some(a) = whole_word(cell.a.as_slice(), nets, width) {
            if let Some(b) = whole_word(cell.b.as_slice(), nets, width) {
                return into.put_word(out, digitwise(op, width, a, b));
            }
        }
    }
    bitwise_of_words(cell, nets, into, out, op)
}

/// `$and`, `$or`, `$xor` and `$xnor` of values of many words.
#[inline(never)]
fn bitwise_of_words<'a>(
    cell: &'a Cell,
    nets: &'a Values,
    into: &mut Values,
    out: u32,
    op: Op,
) -> bool
    requires kind { is_bitwise op ≡ true }
    requires op { cell.now.op ≡ op }
    requires ready { IsWideReady nets.now cell.now into.old out }
    ensures { IsPut out (output (digits_in nets.now) cell.now) into.old into.new result }
{
    let width = cell.width;
    if let Some(a) = whole_value_of_width(cell.a.as_slice(), nets, width) {
        let _ = a.width();
        if let Some(b) = whole_value_of_width(cell.b.as_slice(), nets, width) {
            let _ = b.width();
            return write_bitwise(op, &a, &b, into, out);
        }
    }
    computed_of_parts(cell, nets, into, out)
}

/// What a cell tells that compares for equality, by whether its operands are equal.
#[inline(always)]
fn is_told(difference: bool, equal: bool) -> bool
    ensures { (op : Op) (i : CellInputs) → is_equality op ≡ true → tells_difference op ≡ difference → is_equal i ≡ equal → formula op i ≡ truth result }
{
    equal != difference
}

/// `$eq` and `$eqx`, or `$ne` and `$nex`, which tell a difference.
#[inline(always)]
pub fn equality_of_values(
    difference: bool,
    cell: &Cell,
    nets: &Values,
    into: &mut Values,
    out: u32,
) -> bool
    requires kind { is_equality cell.now.op ≡ true }
    requires told { tells_difference cell.now.op ≡ difference }
    requires ready { IsWideReady nets.now cell.now into.old out }
    ensures { IsPut out (output (digits_in nets.now) cell.now) into.old into.new result }
{
    if let Some(a) = whole_sig_word(cell.a.as_slice(), nets) {
        if let Some(b) = whole_word(cell.b.as_slice(), nets, a.width) {
            return put_truth(into, out, is_told(difference, a.number == b));
        }
    }
    equality_of_words(difference, cell, nets, into, out)
}

/// `$eq` and `$eqx`, or `$ne` and `$nex`, of values of many words.
#[inline(never)]
fn equality_of_words<'a>(
    difference: bool,
    cell: &'a Cell,
    nets: &'a Values,
    into: &mut Values,
    out: u32,
) -> bool
    requires kind { is_equality cell.now.op ≡ true }
    requires told { tells_difference cell.now.op ≡ difference }
    requires ready { IsWideReady nets.now cell.now into.old out }
    ensures { IsPut out (output (digits_in nets.now) cell.now) into.old into.new result }
{
    if let Some(a) = whole_value(cell.a.as_slice(), nets) {
        if let Some(b) = whole_value_of_width(cell.b.as_slice(), nets, a.width()) {
            let _ = b.width();
            return put_truth(into, out, is_told(difference, are_same(&a, &b)));
        }
    }
    computed_of_parts(cell, nets, into, out)
}
