//! Cells evaluated over a store.
ghost use Rattle.std.specs.Prelude.{◌≡◌, ◌+◌, ◌==◌, not, true, slice_set, slice_index_or};
ghost use Rattle.sim_base.specs.BitValue.{bit_value, zeros};
ghost use Rattle.circuit.specs.Output.{output};
ghost use Rattle.signal_words.specs.Values.{digits_in};
ghost use Rattle.signal_words.specs.Stores.{IsCellOf};
ghost use Rattle.cell_wide.specs.Kinds.{IsWideReady, is_wide};
ghost use Rattle.sim_base.specs.Values.{IsPut, width_at};

use crate::computed::truth_of_values;
use crate::select::{mux, selection};
use crate::whole::{bitwise_values, equality_of_values, unary_values};
use circuit::{Cell, Op, Store};
use sim_base::{Steps, Values};
use std::sync::ledger::Ledger;

/// Writes the output of a cell, and tells whether that changed it.
#[inline(always)]
fn written(cell: &Cell, nets: &Values, into: &mut Values, out: u32) -> bool
    requires kind { is_wide cell.now.op ≡ true }
    requires ready { IsWideReady nets.now cell.now into.old out }
    ensures { IsPut out (output (digits_in nets.now) cell.now) into.old into.new result }
{
    match cell.op {
        Op::Mux => mux(cell, nets, into, out),
        Op::Pmux | Op::Bmux | Op::Demux => selection(cell, nets, into, out),
        Op::Bwmux | Op::Bweqx | Op::Slice | Op::Concat => selection(cell, nets, into, out),
        Op::Not | Op::Pos => unary_values(cell, nets, into, out),
        Op::And => bitwise_values(Op::And, cell, nets, into, out),
        Op::Or => bitwise_values(Op::Or, cell, nets, into, out),
        Op::Xor => bitwise_values(Op::Xor, cell, nets, into, out),
        Op::Xnor => bitwise_values(Op::Xnor, cell, nets, into, out),
        Op::Eq | Op::Eqx => equality_of_values(false, cell, nets, into, out),
        Op::Ne | Op::Nex => equality_of_values(true, cell, nets, into, out),
        _ => truth_of_values(cell, nets, into, out),
    }
}

/// Writes the output of a cell that works bit by bit, reduces, compares for equality or selects to its
/// place among the outputs of a store, and answers whether that changed it. Takes one step, and no
/// memory.
pub fn eval_wide<L: Ledger>(cell: &Cell, store: &mut Store, out: u32, steps: &mut Steps<L>) -> bool
    requires kind { is_wide cell.now.op ≡ true }
    requires fits { IsCellOf store.old out cell.now }
    ensures output { store.new ≡ record store.old { cells = slice_set store.old.cells out (bit_value cell.now.width (output (digits_in store.old.nets) cell.now)) } }
    ensures changed { result ≡ not ((slice_index_or store.old.cells out (zeros 0)).number == output (digits_in store.old.nets) cell.now) }
    ensures step { steps.new ≡ steps.old + 1 }
{
    steps.tick();
    written(cell, &store.nets, &mut store.cells, out)
}
