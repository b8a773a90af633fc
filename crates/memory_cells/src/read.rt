//! The reads of a round.
ghost use Rattle.std.specs.Prelude.{◌≡◌, ◌*◌, ◌≤◌, ◌==◌, ◌&&◌, not, map, nat_eq, true};
ghost use Rattle.std.specs.Cmp.Lexicographic.{pointwise};
ghost use Rattle.sim_base.specs.BitValue.{bit_value};
ghost use Rattle.circuit.specs.Next.{has_edge, is_active, next_read, next_reads, transparent_read};
ghost use Rattle.sim_base.specs.Parts.{parts};
ghost use Rattle.circuit.specs.Signal.{sig_width};
ghost use Rattle.sim_base.specs.Values.{numbers, widths};
ghost use Rattle.signal_words.specs.Values.{AreInside, digits_in};
ghost use Rattle.memory_cells.specs.Ports.{IsMemoryOf, IsReadPortOf};

use crate::address::place_of_address;
use crate::rows::read_place;
use crate::write::write_marked;
use circuit::{Mem, ReadPort};
use sim_base::{Bits, Values};
use state_cells::{has_edge, is_active, put_value};

/// Does the reads of one round.
pub(crate) fn clock_reads(
    mem: &Mem,
    rows: &Bits,
    row: &mut Bits,
    before: &Values,
    now: &Values,
    outs: &mut [Bits],
) -> bool
    requires fits { IsMemoryOf before.now now.now mem.now }
    requires rows { rows.now.width ≡ mem.now.size * mem.now.width }
    requires row { row.old.width ≡ mem.now.width }
    requires outs { widths outs.old ≡ map (λ _. mem.now.width) mem.now.reads }
    ensures row { row.new.width ≡ mem.now.width }
    ensures widths { widths outs.new ≡ widths outs.old }
    ensures outs { numbers outs.new ≡ next_reads (digits_in before.now) (digits_in now.now) mem.now (parts mem.now.width mem.now.size rows.now.number) mem.now.reads (numbers outs.old) }
    ensures changed { result ≡ not (pointwise nat_eq (numbers outs.new) (numbers outs.old)) }
{
    let mut changed = false;
    for (i, port) in mem.reads.as_slice().iter().enumerate() {
        changed |= clock_read(mem, port, rows, row, before, now, &mut outs[i]);
    }
    changed
}

/// Does the read of one port, and tells whether its value changed.
fn clock_read(
    mem: &Mem,
    port: &ReadPort,
    rows: &Bits,
    row: &mut Bits,
    before: &Values,
    now: &Values,
    out: &mut Bits,
) -> bool
    requires fits { IsMemoryOf before.now now.now mem.now }
    requires port { IsReadPortOf before.now now.now mem.now port.now }
    requires rows { rows.now.width ≡ mem.now.size * mem.now.width }
    requires row { row.old.width ≡ mem.now.width }
    requires out { out.old.width ≡ mem.now.width }
    ensures row { row.new.width ≡ mem.now.width }
    ensures out { out.new ≡ bit_value mem.now.width (next_read (digits_in before.now) (digits_in now.now) mem.now (parts mem.now.width mem.now.size rows.now.number) port.now out.old.number) }
    ensures changed { result ≡ not (out.new.number == out.old.number) }
{
    if !reads(port, before, now) {
        return false;
    }
    take_row(mem, port, rows, row, before, now);
    put_value(row, out)
}

/// Whether a port reads in this round.
fn reads(port: &ReadPort, before: &Values, now: &Values) -> bool
    requires clk_before { AreInside before.now port.now.clk }
    requires clk { AreInside now.now port.now.clk }
    requires en { AreInside now.now port.now.en }
    requires clk_small { sig_width port.now.clk ≤ 64 }
    requires en_small { sig_width port.now.en ≤ 64 }
    ensures { result ≡ (port.now.clocked && (has_edge port.now.rising (digits_in before.now) (digits_in now.now) port.now.clk && is_active true (digits_in now.now) port.now.en)) }
{
    port.clocked
        && (has_edge(port.rising, before, now, port.clk.as_slice())
            && is_active(true, port.en.as_slice(), now))
}

/// Makes the row that a port reads: that of its address, with what the ports that it sees write to it.
fn take_row(mem: &Mem, port: &ReadPort, rows: &Bits, row: &mut Bits, before: &Values, now: &Values)
    requires fits { IsMemoryOf before.now now.now mem.now }
    requires port { IsReadPortOf before.now now.now mem.now port.now }
    requires rows { rows.now.width ≡ mem.now.size * mem.now.width }
    requires row { row.old.width ≡ mem.now.width }
    ensures { row.new ≡ bit_value mem.now.width (transparent_read (digits_in before.now) (digits_in now.now) mem.now (parts mem.now.width mem.now.size rows.now.number) port.now) }
{
    match place_of_address(mem, port.addr.as_slice(), now) {
        Some(place) => {
            read_place(mem, place, rows, row);
            write_marked(mem, port.see.as_slice(), place, before, now, row);
        }
        None => row.clear(),
    }
}
