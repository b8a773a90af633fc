//! The nodes that read the bits of each root.
ghost use Rattle.std.specs.Prelude.{◌≡◌, ℕ, ◌+◌, ◌<◌, ◌^◌, length, true, IfOk, OnOk};
ghost use Rattle.circuit.specs.Valid.{is_valid};
ghost use Rattle.eval_plan.specs.TableInvariants.{AreHeld, AreSeen};
ghost use Rattle.eval_plan.specs.Ordered.{IsOrdered};
ghost use Rattle.eval_plan.specs.Readers.{AreReaders};
ghost use Rattle.eval_plan.specs.Roots.{AreRoots};
ghost use Rattle.driver_check.specs.Sorting.{IsSorting};
ghost use Rattle.driver_check.specs.Nodes.{IsPart};
ghost use Rattle.driver_check.specs.Vertices.{node_spans};

use crate::entries::table_of;
use crate::holders::holders_of;
use crate::notes::Notes;
use crate::table::Table;
use circuit::{Circuit, Drive};
use driver_check::{Node, Sorting, Span};
use sim_base::NoMemory;
use std::alloc::Global;

/// What a node needs.
fn needs_of<'a>(circuit: &Circuit, sorting: &'a Sorting, node: Node) -> &'a [Span]
    requires valid { is_valid circuit.now ≡ true }
    requires sorting { IsSorting circuit.now sorting.now }
    requires there { IsPart circuit.now node }
    ensures { result.now ≡ node_spans circuit.now node }
{
    let place = sorting.parts.place(circuit, node);
    sorting.graph.row(sorting.numbering.bits + place)
}

/// Notes the roots of the bits that the node at a place reads.
fn note_node(
    circuit: &Circuit,
    sorting: &Sorting,
    holders: &[u32],
    nodes: &[Node],
    place: usize,
    notes: &mut Notes,
) -> Result<(), NoMemory>
    requires valid { is_valid circuit.now ≡ true }
    requires sorting { IsSorting circuit.now sorting.now }
    requires nodes { IsOrdered circuit.now nodes.now }
    requires few { length nodes.now < 2 ^ 32 }
    requires there { place < length nodes.now }
    requires long { length holders.now ≡ sorting.now.numbering.bits }
    requires held { AreHeld holders.now (length notes.old.last.items) }
    requires seen { AreSeen circuit.now nodes.now holders.now place notes.old.entries.items notes.old.last.items }
    ensures long { length notes.new.last.items ≡ length notes.old.last.items }
    ensures seen { OnOk result (AreSeen circuit.now nodes.now holders.now (place + 1) notes.new.entries.items notes.new.last.items) }
{
    let row = needs_of(circuit, sorting, nodes[place]);
    notes.note_row(holders, row, place as u32)
}

/// The nodes that read the bits of each root.
pub fn readers_of(
    alloc: Global,
    circuit: &Circuit,
    sorting: &Sorting,
    nodes: &[Node],
    roots: &[Drive],
) -> Result<Table, NoMemory>
    requires valid { is_valid circuit.now ≡ true }
    requires sorting { IsSorting circuit.now sorting.now }
    requires nodes { IsOrdered circuit.now nodes.now }
    requires few { length nodes.now < 2 ^ 32 }
    requires roots { AreRoots circuit.now roots.now }
    requires few_roots { length roots.now < 2 ^ 32 }
    ensures { IfOk result (λ t. AreReaders circuit.now nodes.now roots.now t) }
{
    let holders = holders_of(alloc, circuit, &sorting.numbering, roots)?;
    let mut notes = Notes::new(alloc, roots.len())?;
    for place in 0..nodes.len() {
        note_node(circuit, sorting, &holders, nodes, place, &mut notes)?;
    }
    let table = table_of(alloc, roots.len(), &notes.entries)?;
    Ok(table)
}
