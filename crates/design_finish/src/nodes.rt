//! How many nodes an order of evaluation has.
ghost use Rattle.std.specs.Prelude.{◌≡◌, length, min, sum_by};
ghost use Rattle.circuit.specs.Valid.{is_countable, node_count};

use circuit::{Circuit, Mem};

/// How many read ports the memories have, of which no more are counted than a number of 64 bits can name.
fn read_ports_of(mems: &[Mem]) -> u64
    ensures { result ≡ min (sum_by (λ m. length m.reads) mems.now) 18446744073709551615 }
{
    let mut ports = 0u64;
    for mem in mems {
        ports = ports.saturating_add(mem.reads.len() as u64);
    }
    ports
}

/// Whether the cells and the read ports can be numbered.
pub(crate) fn can_be_numbered(circuit: &Circuit) -> bool
    ensures { result ≡ is_countable (node_count circuit.now) }
{
    let cells = circuit.cells.len() as u64;
    let ports = read_ports_of(circuit.mems.as_slice());
    cells < 1 << 32 && ports < 1 << 32 && cells + ports < 1 << 32
}
