//! How a shift cell moves the digits of its first operand.
ghost use Rattle.std.specs.Prelude.{◌≡◌, ◌<◌, ◌≤◌, ◌^◌, ◌%◌, true};
ghost use Rattle.sim_base.specs.BitValue.{bit_value};
ghost use Rattle.circuit.specs.Output.{CellInputs, modulo, formula};
ghost use Rattle.cell_words.specs.Kinds.{is_shift};
ghost use Rattle.cell_words.specs.Shifts.{extended, source, moved, places, is_to_the_left, IsAmount, HasWidths, IsPlain};

use crate::port::Port;
use crate::whole::low_ones;
use circuit::{Cell, Op};

/// The number of places that a shift cell's second operand asks for.
#[derive(Clone, Copy, Debug)]
pub struct Amount {
    pub negative: bool,
    /// Without the sign, and at most twice the largest width.
    pub by: u32,
}

/// So many digits 1 stand in front of the first operand; it is moved to the right, and then to the left.
#[derive(Clone, Copy, Debug)]
pub struct Shift {
    pub ones: u32,
    pub right: u32,
    pub left: u32,
}

/// How many digits 1 stand in front of the first operand.
fn ones_of(op: Op, width: u32, a_width: u32, negative: bool) -> u32
    requires { is_shift op ≡ true }
    ensures most { result ≤ width }
    ensures source { (i : CellInputs) → HasWidths i width a_width negative → extended result i.a ≡ source op i }
{
    if !negative {
        return 0;
    }
    match op {
        Op::Sshr => width,
        Op::Shiftx => 0,
        _ => width.saturating_sub(a_width),
    }
}

fn is_to_the_left(op: Op, amount: Amount) -> bool
    requires { is_shift op ≡ true }
    ensures { result ≡ is_to_the_left op amount.negative }
{
    match op {
        Op::Shl | Op::Sshl => true,
        Op::Shift | Op::Shiftx => amount.negative,
        _ => false,
    }
}

/// How a cell moves its first operand, which has so many digits and is below 0 or not.
pub fn shift_of(cell: &Cell, a_width: u32, negative: bool, amount: Amount) -> Shift
    requires kind { is_shift cell.now.op ≡ true }
    requires width { cell.now.width ≤ 65536 }
    requires a_width { a_width ≤ 65536 }
    ensures ones { result.ones ≤ cell.now.width }
    ensures left { result.left ≤ cell.now.width }
    ensures value { (i : CellInputs) → HasWidths i cell.now.width a_width negative → IsAmount amount (places cell.now.op i)
        → moved result i.a % 2 ^ cell.now.width ≡ modulo cell.now.width (formula cell.now.op i) }
{
    let ones = ones_of(cell.op, cell.width, a_width, negative);
    if is_to_the_left(cell.op, amount) {
        let left = amount.by.min(cell.width);
        return Shift {
            ones,
            right: 0,
            left,
        };
    }
    // A sign goes on without end, and all other digits end.
    let right = match cell.op {
        Op::Sshr => amount.by.min(a_width),
        _ => amount.by.min(ones + a_width),
    };
    Shift {
        ones,
        right,
        left: 0,
    }
}

/// The digits of a moved operand of at most 64 digits that an output of at most 64 bits has.
pub fn moved_word(shift: Shift, a: Port, width: u32) -> u128
    requires narrow { a.width ≤ 64 }
    requires below { a.number < 2 ^ a.width }
    requires ones { shift.ones ≤ 64 }
    requires left { shift.left ≤ 64 }
    requires width { width ≤ 64 }
    ensures { result ≡ moved shift (bit_value a.width a.number) % 2 ^ width }
{
    if shift.right > 127 {
        return 0;
    }
    let extended = (low_ones(shift.ones) << a.width) + a.number;
    ((extended >> shift.right) << shift.left) & low_ones(width)
}

/// The digits of a word moved by so many places, where neither stands for a number below 0.
#[inline(always)]
pub fn shifted_plainly(op: Op, number: u64, by: u64) -> u64
    requires { is_shift op ≡ true }
    ensures { (i : CellInputs) → IsPlain i number by → result ≡ modulo 64 (formula op i) }
{
    if by > 63 {
        return 0;
    }
    match op {
        Op::Shl | Op::Sshl => number << by,
        _ => number >> by,
    }
}
