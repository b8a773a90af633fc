//! The nodes of a circuit, each behind all that it depends on.
ghost use Rattle.std.specs.Prelude.{◌≡◌, ◌+◌, ◌<◌, IfOk, OnOk, length, true, false, slice_get, Some};
ghost use Rattle.circuit.specs.Valid.{is_valid};
ghost use Rattle.eval_plan.specs.OrderInvariants.{AreNodesOf};
ghost use Rattle.driver_check.specs.Numbers.{bit_count};
ghost use Rattle.driver_check.specs.Nodes.{IsNode, IsPart};
ghost use Rattle.driver_check.specs.Sorting.{IsSorting};

use circuit::Circuit;
use driver_check::{Node, Sorting};
use sim_base::NoMemory;
use sqlite_items::Items;
use std::alloc::Global;

/// Whether a cell or a read port is a node: a read port with a clock is none.
fn is_node(circuit: &Circuit, node: Node) -> bool
    requires { IsPart circuit.now node }
    ensures yes { result ≡ true → IsNode circuit.now node }
    ensures no { result ≡ false → IsNode circuit.now node → ⊥ }
{
    match node {
        Node::Cell(_) => true,
        Node::Read(mem, port) => {
            let mem = &circuit.mems.as_slice()[mem as usize];
            !mem.reads.as_slice()[port as usize].clocked
        }
    }
}

/// Adds the node of a vertex, if it is that of a node.
fn push_node(
    circuit: &Circuit,
    sorting: &Sorting,
    place: usize,
    nodes: &mut Items<Node>,
) -> Result<(), NoMemory>
    requires valid { is_valid circuit.now ≡ true }
    requires sorting { IsSorting circuit.now sorting.now }
    requires there { place < length sorting.now.search.order.items }
    requires nodes { AreNodesOf circuit.now sorting.now.search.order.items place nodes.old }
    ensures { OnOk result (AreNodesOf circuit.now sorting.now.search.order.items (place + 1) nodes.new) }
{
    let bits = sorting.numbering.bits;
    let vertex = sorting.search.order[place];
    if vertex < bits {
        return Ok(());
    }
    let node = sorting.parts.nodes[vertex - bits];
    if is_node(circuit, node) {
        nodes.push(node)?;
    }
    Ok(())
}

/// Lists the nodes in the order of a sorting.
pub fn nodes_of(
    alloc: Global,
    circuit: &Circuit,
    sorting: &Sorting,
) -> Result<Items<Node>, NoMemory>
    requires valid { is_valid circuit.now ≡ true }
    requires sorting { IsSorting circuit.now sorting.now }
    ensures { IfOk result (λ nodes. AreNodesOf circuit.now sorting.now.search.order.items (length sorting.now.search.order.items) nodes) }
{
    let mut nodes = Items::new(alloc);
    for place in 0..sorting.search.order.len() {
        push_node(circuit, sorting, place, &mut nodes)?;
    }
    Ok(nodes)
}
