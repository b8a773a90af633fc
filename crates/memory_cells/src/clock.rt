//! What the ports of a memory do in a round.
ghost use Rattle.std.specs.Prelude.{◌≡◌, ◌<◌, not, map, Some, length, slice_get};
ghost use Rattle.sim_base.specs.BitValue.{bit_value};
ghost use Rattle.circuit.specs.Next.{next_stored};
ghost use Rattle.circuit.specs.Signal.{sig_number};
ghost use Rattle.circuit.specs.State.{addressed_row, same_stored};
ghost use Rattle.circuit.specs.declared.memory.ReadPort.{ReadPort};
ghost use Rattle.sim_base.specs.Values.{widths};
ghost use Rattle.signal_words.specs.Values.{digits_in};
ghost use Rattle.memory_cells.specs.Ports.{IsMemoryOf, stored};
ghost use Rattle.memory_cells.specs.Rows.{AreRowsOf};

use crate::address::place_of_address;
use crate::read::clock_reads;
use crate::renew::clock_writes;
use crate::rows::Rows;
use circuit::{Mem, Store};
use sim_base::Bits;

/// Puts the row that the address of a read port names into a value of a row's width; outside the memory
/// 0. For a port without a clock this is its value.
pub fn read_port(mem: &Mem, port: u32, rows: &Rows, now: &Store, into: &mut Bits)
    requires fits { IsMemoryOf now.now.nets now.now.nets mem.now }
    requires there { port < length mem.now.reads }
    requires rows { AreRowsOf mem.now rows.now }
    requires width { into.old.width ≡ mem.now.width }
    ensures { (p : ReadPort) → slice_get mem.now.reads port ≡ Some p → into.new ≡ bit_value mem.now.width (addressed_row mem.now rows.now.rows (sig_number (digits_in now.now.nets) p.addr)) }
{
    let port = &mem.reads.as_slice()[port as usize];
    match place_of_address(mem, port.addr.as_slice(), &now.nets) {
        Some(place) => rows.row(place, into),
        None => into.clear(),
    }
}

/// Does one round's clocked reads and writes, from the values of the nets in the round before and in
/// this one: `outs` has the value of each read port, of which those of ports with a clock may change.
/// Reads take the rows as they were, with what is written in this round by the ports that they see.
/// Tells whether a row or a value changed. It takes no memory.
pub fn clock_ports(
    mem: &Mem,
    rows: &mut Rows,
    before: &Store,
    now: &Store,
    outs: &mut [Bits],
) -> bool
    requires fits { IsMemoryOf before.now.nets now.now.nets mem.now }
    requires rows { AreRowsOf mem.now rows.old }
    requires outs { widths outs.old ≡ map (λ _. mem.now.width) mem.now.reads }
    ensures widths { widths outs.new ≡ widths outs.old }
    ensures rows { AreRowsOf mem.now rows.new }
    ensures stored { stored rows.new outs.new ≡ next_stored (digits_in before.now.nets) (digits_in now.now.nets) mem.now (stored rows.old outs.old) }
    ensures changed { result ≡ not (same_stored (stored rows.new outs.new) (stored rows.old outs.old)) }
{
    let (before, now) = (&before.nets, &now.nets);
    let read = clock_reads(mem, &rows.rows, &mut rows.row, before, now, outs);
    let written = clock_writes(mem, &mut rows.rows, &mut rows.row, before, now);
    read | written
}
