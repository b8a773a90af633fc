//! What numbers of 32 bits can count.
ghost use Rattle.std.specs.Prelude.{◌≡◌, ◌&&◌, length, min, sum_by};
ghost use Rattle.circuit.specs.Shown.{slots_of};
ghost use Rattle.circuit.specs.Valuation.{bits_of};
ghost use Rattle.circuit.specs.Valid.{counts_fit, is_countable, net_words, node_count, output_words, register_words, slot_count};

use crate::cell::Cell;
use crate::item::Item;
use crate::memory::Mem;
use crate::netlist::{Circuit, Net};
use crate::register::Reg;
use crate::validity::items::slots_of;
use sim_base::Values;

/// Whether fewer than 4,294,967,296 are counted.
pub fn is_countable(count: usize) -> bool
    ensures { result ≡ is_countable count }
{
    count < 1 << 32
}

/// How many slots the items take, and 2 ^ 32 where they take more.
fn slots_of_items(mems: &[Mem], items: &[Item]) -> u64
    ensures { result ≡ min (sum_by (λ i. slots_of mems.now i.kind) items.now) 4294967296 }
{
    let mut slots = 0u64;
    for item in items {
        slots = (slots + u64::from(slots_of(mems, item.kind))).min(4_294_967_296);
    }
    slots
}

/// How many read ports the memories have, and 2 ^ 32 where they have more.
fn read_ports_of(mems: &[Mem]) -> u64
    ensures { result ≡ min (sum_by (λ m. length m.reads) mems.now) 4294967296 }
{
    let mut ports = 0u64;
    for mem in mems {
        ports = ports
            .saturating_add(mem.reads.len() as u64)
            .min(4_294_967_296);
    }
    ports
}

/// How many bits the nets have, and 2 ^ 32 where they have more.
fn bits_of_nets(nets: &[Net]) -> u64
    ensures { result ≡ min (sum_by (λ n. n.width) nets.now) 4294967296 }
{
    let mut bits = 0u64;
    for net in nets {
        bits = (bits + u64::from(net.width)).min(4_294_967_296);
    }
    bits
}

/// How many words the values of nets take, and 2 ^ 32 where they take more.
fn words_of_nets(nets: &[Net]) -> u64
    ensures { result ≡ min (net_words nets.now) 4294967296 }
{
    let mut words = 0u64;
    for net in nets {
        words = (words + u64::from(Values::words_of(net.width))).min(4_294_967_296);
    }
    words
}

/// How many words the outputs of cells take, and 2 ^ 32 where they take more.
fn words_of_outputs(cells: &[Cell]) -> u64
    ensures { result ≡ min (output_words cells.now) 4294967296 }
{
    let mut words = 0u64;
    for cell in cells {
        words = (words + u64::from(Values::words_of(cell.width))).min(4_294_967_296);
    }
    words
}

/// How many words the start values of registers take, and 2 ^ 32 where they take more.
fn words_of_registers(regs: &[Reg]) -> u64
    ensures { result ≡ min (register_words regs.now) 4294967296 }
{
    let mut words = 0u64;
    for reg in regs {
        words = (words + u64::from(Values::words_of(reg.init.width()))).min(4_294_967_296);
    }
    words
}

fn slots_fit(circuit: &Circuit) -> bool
    ensures { result ≡ is_countable (slot_count circuit.now) }
{
    let slots = slots_of_items(circuit.mems.as_slice(), circuit.items.as_slice());
    is_countable(circuit.diags.len()) && slots + (circuit.diags.len() as u64) < 1 << 32
}

fn nodes_fit(circuit: &Circuit) -> bool
    ensures { result ≡ is_countable (node_count circuit.now) }
{
    let ports = read_ports_of(circuit.mems.as_slice());
    is_countable(circuit.cells.len()) && circuit.cells.len() as u64 + ports < 1 << 32
}

fn bits_fit(circuit: &Circuit) -> bool
    ensures { result ≡ is_countable (bits_of circuit.now) }
{
    bits_of_nets(circuit.nets.as_slice()) < 1 << 32
}

fn words_fit(circuit: &Circuit) -> bool
    ensures { result ≡ is_countable (net_words circuit.now.nets) && (is_countable (output_words circuit.now.cells) && is_countable (register_words circuit.now.regs)) }
{
    words_of_nets(circuit.nets.as_slice()) < 1 << 32
        && (words_of_outputs(circuit.cells.as_slice()) < 1 << 32
            && words_of_registers(circuit.regs.as_slice()) < 1 << 32)
}

/// Whether the parts of a circuit, its slots, the nodes of an order, the bits of its nets and the words of its values
/// can be numbered.
pub fn counts_fit(circuit: &Circuit) -> bool
    ensures { result ≡ counts_fit circuit.now }
{
    is_countable(circuit.nets.len())
        && (is_countable(circuit.cells.len())
            && (is_countable(circuit.regs.len())
                && (is_countable(circuit.mems.len())
                    && (is_countable(circuit.inputs.len())
                        && (is_countable(circuit.scopes.len())
                            && (slots_fit(circuit)
                                && (nodes_fit(circuit)
                                    && (bits_fit(circuit) && words_fit(circuit)))))))))
}
