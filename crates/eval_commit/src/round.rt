//! One valuation of the nets.
ghost use Rattle.std.specs.Prelude.{◌≡◌, ℕ, true, length, map};
ghost use Rattle.circuit.specs.Acyclic.{IsInOrder};
ghost use Rattle.circuit.specs.State.{State};
ghost use Rattle.circuit.specs.Valid.{is_valid};
ghost use Rattle.circuit.specs.Valuation.{digit_at, valuation};
ghost use Rattle.circuit.specs.declared.netlist.Circuit.{Circuit as TheCircuit};
ghost use Rattle.eval_plan.specs.Ordered.{IsOrdered};
ghost use Rattle.eval_plan.specs.Roots.{AreRoots};
ghost use Rattle.eval_plan.specs.Sources.{AreSources};
ghost use Rattle.signal_words.specs.Stores.{IsStoreOf};
ghost use Rattle.sim_base.specs.Values.{numbers, widths};
ghost use Rattle.signal_words.specs.Values.{digits_in};
ghost use Rattle.eval_commit.specs.Computed.{AreAllRows};
ghost use Rattle.eval_commit.specs.Seeding.{IsSeeded};
ghost use Rattle.eval_commit.specs.Evaluation.{AreInputsOf, Holds, IsBlank};
ghost use Rattle.eval_commit.specs.Marked.{AreTold, HaveMarks};
ghost use Rattle.eval_commit.specs.Shown.{ShowsCells};

use crate::node::compute;
use crate::put::seed;
use circuit::{Circuit, Store, one_valuation};
use dirty_set::DirtySet;
use eval_plan::Plan;
use memory_cells::Rows;
use sim_base::{Bits, Steps};
use std::sync::ledger::Ledger;

/// Writes the bits of the roots that take constants, inputs, registers and read ports, and marks what reads
/// them where their nets changed.
pub(crate) fn seed_store(plan: &Plan, inputs: &[Bits], store: &mut Store, marks: &mut DirtySet)
    requires fits { (c : TheCircuit) × AreRoots c plan.now.roots × AreInputsOf c inputs.now × IsStoreOf c store.old }
    requires marks { HaveMarks plan.now.readers marks.old }
    ensures nets { widths store.new.nets ≡ widths store.old.nets }
    ensures cells { store.new.cells ≡ store.old.cells }
    ensures regs { store.new.regs ≡ store.old.regs }
    ensures reads { store.new.reads ≡ store.old.reads }
    ensures seeded { IsSeeded plan.now.roots (record { inputs = inputs.now; regs = store.old.regs; reads = store.old.reads }) (length plan.now.roots) store.old.nets store.new.nets }
    ensures told { AreTold plan.now.roots plan.now.readers store.old.nets store.new.nets marks.old marks.new }
{
    let reads = store.reads.as_slice();
    seed(
        &mut store.nets,
        plan.roots.as_slice(),
        inputs,
        &store.regs,
        reads,
        &plan.readers,
        marks,
    );
}

/// Gives each net the number that it has under the state that the store and the rows hold, and under these
/// inputs: one value for each, in the order of the circuit's inputs. Each memory lends a room of the width
/// of its rows. Each node of the plan is evaluated. It takes no memory.
pub(crate) fn evaluate<L: Ledger>(
    circuit: &Circuit,
    plan: &Plan,
    inputs: &[Bits],
    rows: &[Rows],
    rooms: &mut [Bits],
    store: &mut Store,
    marks: &mut DirtySet,
    steps: &mut Steps<L>,
)
    requires valid { is_valid circuit.now ≡ true }
    requires order { IsInOrder circuit.now }
    requires nodes { IsOrdered circuit.now plan.now.nodes }
    requires roots { AreRoots circuit.now plan.now.roots }
    requires sources { AreSources circuit.now plan.now.roots plan.now.sources }
    requires inputs { AreInputsOf circuit.now inputs.now }
    requires rows { AreAllRows circuit.now rows.now }
    requires rooms { widths rooms.old ≡ map (λ m. m.width) circuit.now.mems }
    requires store { IsStoreOf circuit.now store.old }
    requires blank { IsBlank plan.now.roots store.old.nets }
    requires marks { HaveMarks plan.now.readers marks.old }
    ensures nets { (state : State) → Holds circuit.now rows.now store.old state → numbers store.new.nets ≡ valuation circuit.now state (numbers inputs.now) }
    ensures digits { (state : State) → Holds circuit.now rows.now store.old state → (net bit : ℕ) → digits_in store.new.nets net bit ≡ digit_at circuit.now state (numbers inputs.now) net bit }
    ensures store { IsStoreOf circuit.now store.new }
    ensures regs { store.new.regs ≡ store.old.regs }
    ensures reads { store.new.reads ≡ store.old.reads }
    ensures rooms { widths rooms.new ≡ widths rooms.old }
    ensures blank { IsBlank plan.now.roots store.new.nets }
    ensures marks { marks.new.width ≡ marks.old.width }
    ensures shown { (state : State) → Holds circuit.now rows.now store.old state → ShowsCells circuit.now plan.now store.new.nets }
{
    one_valuation(circuit);
    seed_store(plan, inputs, store, marks);
    for node in plan.nodes.as_slice() {
        compute(circuit, plan, *node, rows, rooms, store, marks, steps);
    }
}
