//! The cells and the read ports of a circuit in a row.
ghost use Rattle.std.specs.Prelude.{◌≡◌, ℕ, ◌+◌, ◌^◌, ◌<◌, length, true, IfOk, OnOk, slice_get, slice_index, Some};
ghost use Rattle.circuit.specs.Valid.{is_valid};
ghost use Rattle.driver_check.specs.Numbers.{before, read_count};
ghost use Rattle.driver_check.specs.Nodes.{AreParts, ArePlaced, IsPart, part_place};
ghost use Rattle.driver_check.specs.declared.parts.Node.TheVariants as node;

use circuit::{Circuit, Mem};
use sim_base::NoMemory;
use std::alloc::Global;

/// What computes bits from other bits: a combinational cell, or a read port without a clock.
#[derive(Clone, Copy, Debug, PartialEq, Eq)]
pub enum Node {
    /// A place in the circuit's list of cells.
    Cell(u32),
    /// A memory, and one of its read ports.
    Read(u32, u32),
}

/// All cells and read ports, and the place of the first port of each memory.
#[derive(Debug, Drop)]
pub struct Parts {
    pub nodes: Vec<Node>,
    pub ports: Vec<usize>,
}

impl Parts {
    /// The place of a read port.
    pub fn port_place(&self, circuit: &Circuit, mem: u32, port: u32) -> usize
        requires parts { AreParts circuit.now self.now.nodes.items self.now.ports.items }
        requires there { IsPart circuit.now (node.Read mem port) }
        ensures value { result ≡ part_place circuit.now (node.Read mem port) }
        ensures below { result < 2 ^ 63 }
    {
        let _ = circuit;
        let _ = &self.nodes;
        self.ports[mem as usize] + port as usize
    }

    /// The place of a cell or a read port.
    pub fn place(&self, circuit: &Circuit, node: Node) -> usize
        requires parts { AreParts circuit.now self.now.nodes.items self.now.ports.items }
        requires there { IsPart circuit.now node }
        ensures value { result ≡ part_place circuit.now node }
        ensures below { result < length self.now.nodes.items }
    {
        match node {
            Node::Cell(cell) => cell as usize,
            Node::Read(mem, port) => self.port_place(circuit, mem, port),
        }
    }
}

/// Adds the cells.
fn push_cells(circuit: &Circuit, nodes: &mut Vec<Node>) -> Result<(), NoMemory>
    requires empty { length nodes.old.items ≡ 0 }
    requires few { length circuit.now.cells < 2 ^ 32 }
    ensures long { OnOk result (length nodes.new.items ≡ length circuit.now.cells) }
    ensures placed { OnOk result (ArePlaced circuit.now nodes.new.items) }
{
    for cell in 0..circuit.cells.len() {
        nodes.push(Node::Cell(cell as u32))?;
    }
    Ok(())
}

/// Adds the read ports of a memory.
fn push_ports(
    circuit: &Circuit,
    place: usize,
    mem: &Mem,
    nodes: &mut Vec<Node>,
) -> Result<(), NoMemory>
    requires there { slice_get circuit.now.mems place ≡ Some mem.now }
    requires few { place < 2 ^ 32 }
    requires few_ports { length mem.now.reads < 2 ^ 32 }
    requires long { length nodes.old.items ≡ length circuit.now.cells + before read_count circuit.now.mems place }
    requires placed { ArePlaced circuit.now nodes.old.items }
    ensures long { OnOk result (length nodes.new.items ≡ length circuit.now.cells + before read_count circuit.now.mems (place + 1)) }
    ensures placed { OnOk result (ArePlaced circuit.now nodes.new.items) }
{
    let _ = circuit;
    for port in 0..mem.reads.len() {
        nodes.push(Node::Read(place as u32, port as u32))?;
    }
    Ok(())
}

/// Lists all cells and read ports.
pub fn parts_of(alloc: Global, circuit: &Circuit) -> Result<Parts, NoMemory>
    requires { is_valid circuit.now ≡ true }
    ensures { IfOk result (λ p. AreParts circuit.now p.nodes.items p.ports.items) }
{
    let mut nodes = Vec::new(alloc);
    push_cells(circuit, &mut nodes)?;
    let mut ports = Vec::new(alloc);
    for (place, mem) in circuit.mems.as_slice().iter().enumerate() {
        ports.push(nodes.len())?;
        push_ports(circuit, place, mem, &mut nodes)?;
    }
    Ok(Parts { nodes, ports })
}
