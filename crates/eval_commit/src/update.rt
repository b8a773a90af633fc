//! One valuation of the nets after another one.
ghost use Rattle.std.specs.Prelude.{◌≡◌, ℕ, ◌+◌, ◌<◌, true, length, map, slice_get};
ghost use Rattle.cell_changes.specs.Changes.{changed_cells};
ghost use Rattle.circuit.specs.Acyclic.{IsInOrder};
ghost use Rattle.circuit.specs.State.{State};
ghost use Rattle.circuit.specs.Valid.{is_valid};
ghost use Rattle.circuit.specs.Valuation.{digit_at, valuation};
ghost use Rattle.driver_check.specs.Nodes.{IsNode};
ghost use Rattle.driver_check.specs.declared.parts.Node.TheVariants as node_as;
ghost use Rattle.eval_plan.specs.Ordered.{IsOrdered};
ghost use Rattle.eval_plan.specs.Readers.{AreReaders, DoReadersFollow};
ghost use Rattle.eval_plan.specs.Roots.{AreRoots};
ghost use Rattle.eval_plan.specs.Sources.{AreSources, cell_row};
ghost use Rattle.signal_words.specs.Stores.{IsStoreOf};
ghost use Rattle.sim_base.specs.Values.{numbers, widths};
ghost use Rattle.signal_words.specs.Values.{digits_in};
ghost use Rattle.state_cells.specs.Diagnostics.{round_of};
ghost use Rattle.eval_commit.specs.Computed.{AreAllRows, cell_changes, cell_number, computed, node_changes, node_row};
ghost use Rattle.eval_commit.specs.Evaluation.{AreInputsOf, Holds, IsBlank};
ghost use Rattle.eval_commit.specs.Marked.{AreReadPlaces, AreTold, HaveMarks, ReadListed};
ghost use Rattle.eval_commit.specs.Shown.{Shows, ShowsCells};
ghost use Rattle.eval_commit.specs.Spread.{IsSpread};

use crate::marks::mark_all;
use crate::node::{compute_cell, compute_read};
use crate::round::seed_store;
use cell_changes::{has_changed, law_of_readings};
use circuit::{Circuit, Store, one_valuation};
use dirty_set::DirtySet;
use driver_check::Node;
use eval_plan::Plan;
use memory_cells::Rows;
use sim_base::{Bits, Steps};
use std::sync::ledger::Ledger;

/// Brings the bits of the roots that take from a cell up. They have what the cell gives in the valuation
/// before; it is evaluated where a bit that it reads differs from that valuation.
fn update_cell<L: Ledger>(
    circuit: &Circuit,
    plan: &Plan,
    n: u32,
    before: &Store,
    store: &mut Store,
    marks: &mut DirtySet,
    steps: &mut Steps<L>,
)
    requires valid { is_valid circuit.now ≡ true }
    requires roots { AreRoots circuit.now plan.now.roots }
    requires sources { AreSources circuit.now plan.now.roots plan.now.sources }
    requires before { IsStoreOf circuit.now before.now }
    requires store { IsStoreOf circuit.now store.old }
    requires there { n < length circuit.now.cells }
    requires shown { Shows plan.now.roots (cell_row plan.now.sources n) (cell_number (digits_in before.now.nets) (slice_get circuit.now.cells n)) store.old.nets }
    requires marks { HaveMarks plan.now.readers marks.old }
    ensures store { IsStoreOf circuit.now store.new }
    ensures regs { store.new.regs ≡ store.old.regs }
    ensures reads { store.new.reads ≡ store.old.reads }
    ensures spread { IsSpread plan.now.roots (cell_row plan.now.sources n) (length (cell_row plan.now.sources n)) (cell_number (digits_in store.old.nets) (slice_get circuit.now.cells n)) store.old.nets store.new.nets }
    ensures told { AreTold plan.now.roots plan.now.readers store.old.nets store.new.nets marks.old marks.new }
    ensures listed { ReadListed plan.now.readers (cell_row plan.now.sources n) marks.old marks.new }
    ensures steps { steps.new ≡ steps.old + cell_changes (digits_in before.now.nets) (digits_in store.old.nets) (slice_get circuit.now.cells n) }
{
    law_of_readings();
    let cell = &circuit.cells.as_slice()[n as usize];
    if has_changed(cell, &before.nets, &store.nets) {
        compute_cell(circuit, plan, n, store, marks, steps);
    }
}

/// Brings the bits of the roots that take from a node up: a read port is read, and a cell is evaluated where a
/// bit that it reads differs from the valuation before.
fn update_node<L: Ledger>(
    circuit: &Circuit,
    plan: &Plan,
    node: Node,
    rows: &[Rows],
    rooms: &mut [Bits],
    before: &Store,
    store: &mut Store,
    marks: &mut DirtySet,
    steps: &mut Steps<L>,
)
    requires valid { is_valid circuit.now ≡ true }
    requires roots { AreRoots circuit.now plan.now.roots }
    requires sources { AreSources circuit.now plan.now.roots plan.now.sources }
    requires before { IsStoreOf circuit.now before.now }
    requires store { IsStoreOf circuit.now store.old }
    requires rows { AreAllRows circuit.now rows.now }
    requires rooms { widths rooms.old ≡ map (λ m. m.width) circuit.now.mems }
    requires there { IsNode circuit.now node }
    requires shown { (n : ℕ) → node ≡ node_as.Cell n → Shows plan.now.roots (cell_row plan.now.sources n) (cell_number (digits_in before.now.nets) (slice_get circuit.now.cells n)) store.old.nets }
    requires marks { HaveMarks plan.now.readers marks.old }
    ensures store { IsStoreOf circuit.now store.new }
    ensures regs { store.new.regs ≡ store.old.regs }
    ensures reads { store.new.reads ≡ store.old.reads }
    ensures rooms { widths rooms.new ≡ widths rooms.old }
    ensures spread { IsSpread plan.now.roots (node_row plan.now.sources node) (length (node_row plan.now.sources node)) (computed circuit.now rows.now (digits_in store.old.nets) node) store.old.nets store.new.nets }
    ensures told { AreTold plan.now.roots plan.now.readers store.old.nets store.new.nets marks.old marks.new }
    ensures listed { ReadListed plan.now.readers (node_row plan.now.sources node) marks.old marks.new }
    ensures steps { steps.new ≡ steps.old + node_changes circuit.now (digits_in before.now.nets) (digits_in store.old.nets) node }
{
    match node {
        Node::Cell(n) => update_cell(circuit, plan, n, before, store, marks, steps),
        Node::Read(m, n) => compute_read(circuit, plan, m, n, rows, rooms, store, marks),
    }
}

/// Gives each net the number that it has under the state that the store and the rows hold, and under these
/// inputs, where the nets are those of the valuation before. A node is looked at only where it is marked: it
/// reads a root whose net changed, it is a read port, or it was marked before. It takes a step for each cell of
/// which some bit that it reads differs between the two, and no memory.
pub(crate) fn update<L: Ledger>(
    circuit: &Circuit,
    plan: &Plan,
    inputs: &[Bits],
    rows: &[Rows],
    rooms: &mut [Bits],
    before: &Store,
    store: &mut Store,
    reads: &[u32],
    marks: &mut DirtySet,
    steps: &mut Steps<L>,
)
    requires valid { is_valid circuit.now ≡ true }
    requires order { IsInOrder circuit.now }
    requires nodes { IsOrdered circuit.now plan.now.nodes }
    requires roots { AreRoots circuit.now plan.now.roots }
    requires sources { AreSources circuit.now plan.now.roots plan.now.sources }
    requires inputs { AreInputsOf circuit.now inputs.now }
    requires rows { AreAllRows circuit.now rows.now }
    requires rooms { widths rooms.old ≡ map (λ m. m.width) circuit.now.mems }
    requires before { IsStoreOf circuit.now before.now }
    requires shown { ShowsCells circuit.now plan.now before.now.nets }
    requires store { IsStoreOf circuit.now store.old }
    requires same { store.old.nets ≡ before.now.nets }
    requires blank { IsBlank plan.now.roots store.old.nets }
    requires readers { AreReaders circuit.now plan.now.nodes plan.now.roots plan.now.readers }
    requires follow { DoReadersFollow plan.now.nodes plan.now.roots plan.now.readers }
    requires reads { AreReadPlaces plan.now.nodes reads.now }
    requires marks { marks.old.width ≡ length plan.now.nodes }
    ensures nets { (state : State) → Holds circuit.now rows.now store.old state → numbers store.new.nets ≡ valuation circuit.now state (numbers inputs.now) }
    ensures digits { (state : State) → Holds circuit.now rows.now store.old state → (net bit : ℕ) → digits_in store.new.nets net bit ≡ digit_at circuit.now state (numbers inputs.now) net bit }
    ensures shown { (state : State) → Holds circuit.now rows.now store.old state → ShowsCells circuit.now plan.now store.new.nets }
    ensures store { IsStoreOf circuit.now store.new }
    ensures regs { store.new.regs ≡ store.old.regs }
    ensures reads { store.new.reads ≡ store.old.reads }
    ensures rooms { widths rooms.new ≡ widths rooms.old }
    ensures blank { IsBlank plan.now.roots store.new.nets }
    ensures marks { marks.new.width ≡ marks.old.width }
    ensures steps { (state : State) → Holds circuit.now rows.now store.old state → steps.new ≡ steps.old + changed_cells circuit.now.cells (round_of before.now store.new) }
{
    one_valuation(circuit);
    seed_store(plan, inputs, store, marks);
    mark_all(marks, reads);
    let nodes = plan.nodes.as_slice();
    for _done in 0..nodes.len() {
        match marks.take() {
            Some(place) => {
                let node = nodes[place as usize];
                update_node(
                    circuit, plan, node, rows, rooms, before, store, marks, steps,
                );
            }
            None => return,
        }
    }
}
