//! The nodes of a plan, evaluated.
ghost use Rattle.std.specs.Prelude.{◌≡◌, ℕ, ◌+◌, ◌<◌, List, Some, true, false, length, map, slice_get, slice_index};
ghost use Rattle.circuit.specs.Valid.{is_valid};
ghost use Rattle.circuit.specs.declared.memory.Mem.{Mem as TheMem};
ghost use Rattle.cell_wide.specs.Kinds.{is_wide};
ghost use Rattle.cell_words.specs.Kinds.{is_arithmetic_or_shift};
ghost use Rattle.driver_check.specs.Nodes.{IsNode};
ghost use Rattle.eval_plan.specs.Roots.{AreRoots};
ghost use Rattle.eval_plan.specs.Sources.{AreSources, cell_row, read_row};
ghost use Rattle.signal_words.specs.Stores.{IsStoreOf};
ghost use Rattle.sim_base.specs.Values.{numbers, widths};
ghost use Rattle.signal_words.specs.Values.{digits_in};
ghost use Rattle.eval_commit.specs.Computed.{AreAllRows, cell_number, computed, node_row, read_number};
ghost use Rattle.eval_commit.specs.Marked.{AreTold, HaveMarks, ReadListed};
ghost use Rattle.eval_commit.specs.Spread.{IsSpread};

use crate::put::spread;
use cell_wide::eval_wide;
use cell_words::eval;
use circuit::{Circuit, Op, Store};
use dirty_set::DirtySet;
use driver_check::Node;
use eval_plan::Plan;
use memory_cells::{Rows, law_of_memories, read_port};
use signal_words::law_of_stores;
use sim_base::{Bits, Steps};
use std::sync::ledger::Ledger;

/// Whether a type of cell computes with whole numbers or shifts; each other type works at any width.
fn is_word_cell(op: Op) -> bool
    ensures word { result ≡ true → is_arithmetic_or_shift op ≡ true }
    ensures wide { result ≡ false → is_wide op ≡ true }
{
    match op {
        Op::Neg | Op::Add | Op::Sub | Op::Mul => true,
        Op::Div | Op::Mod | Op::DivFloor | Op::ModFloor => true,
        Op::Lt | Op::Le | Op::Ge | Op::Gt => true,
        Op::Shl | Op::Sshl | Op::Shr | Op::Sshr | Op::Shift | Op::Shiftx => true,
        _ => false,
    }
}

/// Evaluates a cell into its place among the outputs.
fn eval_cell<L: Ledger>(circuit: &Circuit, n: u32, store: &mut Store, steps: &mut Steps<L>)
    requires valid { is_valid circuit.now ≡ true }
    requires store { IsStoreOf circuit.now store.old }
    requires there { n < length circuit.now.cells }
    ensures store { IsStoreOf circuit.now store.new }
    ensures nets { store.new.nets ≡ store.old.nets }
    ensures regs { store.new.regs ≡ store.old.regs }
    ensures reads { store.new.reads ≡ store.old.reads }
    ensures number { slice_index (numbers store.new.cells) n ≡ cell_number (digits_in store.old.nets) (slice_get circuit.now.cells n) }
    ensures step { steps.new ≡ steps.old + 1 }
{
    law_of_stores();
    let cell = &circuit.cells.as_slice()[n as usize];
    if is_word_cell(cell.op) {
        eval(cell, store, n, steps);
    } else {
        eval_wide(cell, store, n, steps);
    }
}

/// Evaluates a cell, writes the bits of the roots that take from it, and marks what reads them where their
/// nets changed.
pub(crate) fn compute_cell<L: Ledger>(
    circuit: &Circuit,
    plan: &Plan,
    n: u32,
    store: &mut Store,
    marks: &mut DirtySet,
    steps: &mut Steps<L>,
)
    requires valid { is_valid circuit.now ≡ true }
    requires roots { AreRoots circuit.now plan.now.roots }
    requires sources { AreSources circuit.now plan.now.roots plan.now.sources }
    requires store { IsStoreOf circuit.now store.old }
    requires there { n < length circuit.now.cells }
    requires marks { HaveMarks plan.now.readers marks.old }
    ensures store { IsStoreOf circuit.now store.new }
    ensures regs { store.new.regs ≡ store.old.regs }
    ensures reads { store.new.reads ≡ store.old.reads }
    ensures spread { IsSpread plan.now.roots (cell_row plan.now.sources n) (length (cell_row plan.now.sources n)) (cell_number (digits_in store.old.nets) (slice_get circuit.now.cells n)) store.old.nets store.new.nets }
    ensures told { AreTold plan.now.roots plan.now.readers store.old.nets store.new.nets marks.old marks.new }
    ensures listed { ReadListed plan.now.readers (cell_row plan.now.sources n) marks.old marks.new }
    ensures step { steps.new ≡ steps.old + 1 }
{
    eval_cell(circuit, n, store, steps);
    let places = plan.sources.roots_of_cell(n);
    let from = store.cells.view(n);
    spread(
        &mut store.nets,
        plan.roots.as_slice(),
        places,
        &from,
        &plan.readers,
        marks,
    );
}

/// Reads the row at the address of a read port into a memory's room, writes the bits of the roots that take
/// from the port, and marks what reads them where their nets changed.
pub(crate) fn compute_read(
    circuit: &Circuit,
    plan: &Plan,
    m: u32,
    n: u32,
    rows: &[Rows],
    rooms: &mut [Bits],
    store: &mut Store,
    marks: &mut DirtySet,
)
    requires valid { is_valid circuit.now ≡ true }
    requires roots { AreRoots circuit.now plan.now.roots }
    requires sources { AreSources circuit.now plan.now.roots plan.now.sources }
    requires store { IsStoreOf circuit.now store.old }
    requires rows { AreAllRows circuit.now rows.now }
    requires rooms { widths rooms.old ≡ map (λ m. m.width) circuit.now.mems }
    requires there { (x : TheMem) × (slice_get circuit.now.mems m ≡ Some x) × (n < length x.reads) }
    requires marks { HaveMarks plan.now.readers marks.old }
    ensures store { IsStoreOf circuit.now store.new }
    ensures regs { store.new.regs ≡ store.old.regs }
    ensures reads { store.new.reads ≡ store.old.reads }
    ensures rooms { widths rooms.new ≡ widths rooms.old }
    ensures spread { IsSpread plan.now.roots (read_row plan.now.sources m n) (length (read_row plan.now.sources m n)) (read_number (digits_in store.old.nets) (slice_get circuit.now.mems m) (slice_get rows.now m) n) store.old.nets store.new.nets }
    ensures told { AreTold plan.now.roots plan.now.readers store.old.nets store.new.nets marks.old marks.new }
    ensures listed { ReadListed plan.now.readers (read_row plan.now.sources m n) marks.old marks.new }
{
    law_of_memories();
    let mem = &circuit.mems.as_slice()[m as usize];
    let room = &mut rooms[m as usize];
    read_port(mem, n, &rows[m as usize], store, room);
    let places = plan.sources.roots_of_read(m, n);
    spread(
        &mut store.nets,
        plan.roots.as_slice(),
        places,
        &room.view(),
        &plan.readers,
        marks,
    );
}

/// Evaluates a node, and writes the bits of the roots that take from it. It takes no memory.
pub(crate) fn compute<L: Ledger>(
    circuit: &Circuit,
    plan: &Plan,
    node: Node,
    rows: &[Rows],
    rooms: &mut [Bits],
    store: &mut Store,
    marks: &mut DirtySet,
    steps: &mut Steps<L>,
)
    requires valid { is_valid circuit.now ≡ true }
    requires roots { AreRoots circuit.now plan.now.roots }
    requires sources { AreSources circuit.now plan.now.roots plan.now.sources }
    requires store { IsStoreOf circuit.now store.old }
    requires rows { AreAllRows circuit.now rows.now }
    requires rooms { widths rooms.old ≡ map (λ m. m.width) circuit.now.mems }
    requires there { IsNode circuit.now node }
    requires marks { HaveMarks plan.now.readers marks.old }
    ensures store { IsStoreOf circuit.now store.new }
    ensures regs { store.new.regs ≡ store.old.regs }
    ensures reads { store.new.reads ≡ store.old.reads }
    ensures rooms { widths rooms.new ≡ widths rooms.old }
    ensures spread { IsSpread plan.now.roots (node_row plan.now.sources node) (length (node_row plan.now.sources node)) (computed circuit.now rows.now (digits_in store.old.nets) node) store.old.nets store.new.nets }
    ensures marks { marks.new.width ≡ marks.old.width }
{
    match node {
        Node::Cell(n) => compute_cell(circuit, plan, n, store, marks, steps),
        Node::Read(m, n) => compute_read(circuit, plan, m, n, rows, rooms, store, marks),
    }
}
