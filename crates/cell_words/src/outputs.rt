//! Cells evaluated over a store.
ghost use Rattle.std.specs.Prelude.{◌≡◌, ◌+◌, ◌<◌, ◌≤◌, ◌==◌, not, true, slice_set, slice_index_or, length};
ghost use Rattle.sim_base.specs.BitValue.{bit_value, zeros};
ghost use Rattle.circuit.specs.Output.{output};
ghost use Rattle.circuit.specs.Valid.{widths_fit, widths_of};
ghost use Rattle.signal_words.specs.Values.{digits_in, IsSignalOf};
ghost use Rattle.signal_words.specs.Stores.{IsCellOf};
ghost use Rattle.sim_base.specs.Values.{IsPut, width_at};
ghost use Rattle.cell_words.specs.Kinds.{is_arithmetic_or_shift};

use crate::computing::{arithmetic, combination, comparison};
use crate::shifting::{shift, shifted};
use circuit::{Cell, Op, Store};
use sim_base::{Steps, Values};
use std::sync::ledger::Ledger;

/// Writes the output of a cell, and tells whether that changed it.
fn written(cell: &Cell, nets: &Values, into: &mut Values, out: u32) -> bool
    requires kind { is_arithmetic_or_shift cell.now.op ≡ true }
    requires width { cell.now.width ≤ 65536 }
    requires a { IsSignalOf nets.now cell.now.a }
    requires b { IsSignalOf nets.now cell.now.b }
    requires fits { widths_fit cell.now.op (widths_of cell.now) ≡ true }
    requires there { out < length into.old }
    requires into { width_at into.old out ≡ cell.now.width }
    ensures { IsPut out (output (digits_in nets.now) cell.now) into.old into.new result }
{
    match cell.op {
        Op::Shl => shift(Op::Shl, cell, nets, into, out),
        Op::Sshl => shift(Op::Sshl, cell, nets, into, out),
        Op::Shr => shift(Op::Shr, cell, nets, into, out),
        Op::Sshr => shift(Op::Sshr, cell, nets, into, out),
        Op::Shift | Op::Shiftx => shifted(cell, nets, into, out),
        Op::Add => combination(Op::Add, cell, nets, into, out),
        Op::Sub => combination(Op::Sub, cell, nets, into, out),
        Op::Mul => combination(Op::Mul, cell, nets, into, out),
        Op::Lt => comparison(Op::Lt, cell, nets, into, out),
        Op::Le => comparison(Op::Le, cell, nets, into, out),
        Op::Ge => comparison(Op::Ge, cell, nets, into, out),
        Op::Gt => comparison(Op::Gt, cell, nets, into, out),
        _ => arithmetic(cell, nets, into, out),
    }
}

/// Writes the output of an arithmetic cell, a comparison or a shift to its place among the outputs of a
/// store, and answers whether that changed it. Takes one step, and no memory.
pub fn eval<L: Ledger>(cell: &Cell, store: &mut Store, out: u32, steps: &mut Steps<L>) -> bool
    requires kind { is_arithmetic_or_shift cell.now.op ≡ true }
    requires fits { IsCellOf store.old out cell.now }
    ensures output { store.new ≡ record store.old { cells = slice_set store.old.cells out (bit_value cell.now.width (output (digits_in store.old.nets) cell.now)) } }
    ensures changed { result ≡ not ((slice_index_or store.old.cells out (zeros 0)).number == output (digits_in store.old.nets) cell.now) }
    ensures step { steps.new ≡ steps.old + 1 }
{
    steps.tick();
    written(cell, &store.nets, &mut store.cells, out)
}
