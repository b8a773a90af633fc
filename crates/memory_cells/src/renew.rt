//! The writes of a round.
ghost use Rattle.std.specs.Prelude.{◌≡◌, ◌*◌, ◌<◌, not, nat_eq, Some, slice_set};
ghost use Rattle.std.specs.Cmp.Lexicographic.{pointwise};
ghost use Rattle.std.specs.Option.{ForSome};
ghost use Rattle.circuit.specs.Next.{next_rows};
ghost use Rattle.sim_base.specs.Parts.{parts};
ghost use Rattle.signal_words.specs.Values.{digits_in};
ghost use Rattle.memory_cells.specs.Ports.{IsMemoryOf, IsWritePortOf, place_written, renewed_rows};

use crate::address::place_of_address;
use crate::rows::read_place;
use crate::write::write_all;
use circuit::{Mem, WritePort};
use sim_base::{Bits, Values};
use state_cells::has_edge;

/// Does the writes of one round.
pub(crate) fn clock_writes(
    mem: &Mem,
    rows: &mut Bits,
    row: &mut Bits,
    before: &Values,
    now: &Values,
) -> bool
    requires fits { IsMemoryOf before.now now.now mem.now }
    requires rows { rows.old.width ≡ mem.now.size * mem.now.width }
    requires row { row.old.width ≡ mem.now.width }
    ensures row { row.new.width ≡ mem.now.width }
    ensures width { rows.new.width ≡ rows.old.width }
    ensures rows { parts mem.now.width mem.now.size rows.new.number ≡ next_rows (digits_in before.now) (digits_in now.now) mem.now 0 (parts mem.now.width mem.now.size rows.old.number) }
    ensures changed { result ≡ not (pointwise nat_eq (parts mem.now.width mem.now.size rows.new.number) (parts mem.now.width mem.now.size rows.old.number)) }
{
    let mut changed = false;
    for port in mem.writes.as_slice() {
        let place = place_written(mem, port, before, now);
        changed |= renew_where(mem, place, rows, row, before, now);
    }
    changed
}

/// The place of the row to which a port writes in this round.
fn place_written(mem: &Mem, port: &WritePort, before: &Values, now: &Values) -> Option<u32>
    requires { IsWritePortOf before.now now.now mem.now port.now }
    ensures { result ≡ place_written (digits_in before.now) (digits_in now.now) mem.now port.now }
{
    if has_edge(port.rising, before, now, port.clk.as_slice()) {
        place_of_address(mem, port.addr.as_slice(), now)
    } else {
        None
    }
}

/// Writes to the row at a place, if there is one, what all ports write to it.
fn renew_where(
    mem: &Mem,
    place: Option<u32>,
    rows: &mut Bits,
    row: &mut Bits,
    before: &Values,
    now: &Values,
) -> bool
    requires fits { IsMemoryOf before.now now.now mem.now }
    requires there { ForSome place (λ i. i < mem.now.size) }
    requires rows { rows.old.width ≡ mem.now.size * mem.now.width }
    requires row { row.old.width ≡ mem.now.width }
    ensures row { row.new.width ≡ mem.now.width }
    ensures width { rows.new.width ≡ rows.old.width }
    ensures rows { parts mem.now.width mem.now.size rows.new.number ≡ renewed_rows (digits_in before.now) (digits_in now.now) mem.now place (parts mem.now.width mem.now.size rows.old.number) }
    ensures changed { result ≡ not (pointwise nat_eq (parts mem.now.width mem.now.size rows.new.number) (parts mem.now.width mem.now.size rows.old.number)) }
{
    match place {
        Some(place) => renew(mem, place, rows, row, before, now),
        None => false,
    }
}

/// Writes to the row at a place what all ports write to it.
fn renew(
    mem: &Mem,
    place: u32,
    rows: &mut Bits,
    row: &mut Bits,
    before: &Values,
    now: &Values,
) -> bool
    requires fits { IsMemoryOf before.now now.now mem.now }
    requires there { place < mem.now.size }
    requires rows { rows.old.width ≡ mem.now.size * mem.now.width }
    requires row { row.old.width ≡ mem.now.width }
    ensures row { row.new.width ≡ mem.now.width }
    ensures width { rows.new.width ≡ rows.old.width }
    ensures rows { parts mem.now.width mem.now.size rows.new.number ≡ renewed_rows (digits_in before.now) (digits_in now.now) mem.now (Some place) (parts mem.now.width mem.now.size rows.old.number) }
    ensures changed { result ≡ not (pointwise nat_eq (parts mem.now.width mem.now.size rows.new.number) (parts mem.now.width mem.now.size rows.old.number)) }
{
    read_place(mem, place, rows, row);
    write_all(mem, place, before, now, row);
    put_place(mem, place, row, rows)
}

/// Puts a row at a place, and tells whether the one that was there differs from it.
fn put_place(mem: &Mem, place: u32, row: &Bits, rows: &mut Bits) -> bool
    requires there { place < mem.now.size }
    requires row { row.now.width ≡ mem.now.width }
    requires rows { rows.old.width ≡ mem.now.size * mem.now.width }
    ensures width { rows.new.width ≡ rows.old.width }
    ensures rows { parts mem.now.width mem.now.size rows.new.number ≡ slice_set (parts mem.now.width mem.now.size rows.old.number) place row.now.number }
    ensures changed { result ≡ not (pointwise nat_eq (parts mem.now.width mem.now.size rows.new.number) (parts mem.now.width mem.now.size rows.old.number)) }
{
    let _ = rows.width();
    let width = row.width();
    rows.copy(place * mem.width, row, 0, width)
}
