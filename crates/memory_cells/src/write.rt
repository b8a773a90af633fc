//! What write ports write to a row.
ghost use Rattle.std.specs.Prelude.{◌≡◌, ℕ, ◌+◌, ◌^◌, ◌<◌, ◌≤◌, ◌==◌, ◌&&◌, All, length, take, if◌then◌else◌};
ghost use Rattle.std.specs.Int.{bit_at};
ghost use Rattle.sim_base.specs.BitValue.{bit_value};
ghost use Rattle.circuit.specs.Next.{all_marked, has_edge, next_row};
ghost use Rattle.circuit.specs.Signal.{gathered, sig_number, sig_width};
ghost use Rattle.circuit.specs.Valid.{widest};
ghost use Rattle.signal_words.specs.Values.{AreInside, digits_in};
ghost use Rattle.memory_cells.specs.Ports.{is_place, IsWritePortOf, masked_digit, row_by};

use crate::address::place_of_address;
use circuit::{Mem, WritePort};
use signal_words::SigReader;
use sim_base::{Bits, Values};
use state_cells::has_edge;

/// Writes into the row at a place what all ports write to it in this round, the highest port last.
pub(crate) fn write_all(mem: &Mem, place: u32, before: &Values, now: &Values, row: &mut Bits)
    requires small { mem.now.width ≤ widest }
    requires ports { All (IsWritePortOf before.now now.now mem.now) mem.now.writes }
    requires there { place < mem.now.size }
    requires width { row.old.width ≡ mem.now.width }
    ensures { row.new ≡ bit_value mem.now.width (next_row (digits_in before.now) (digits_in now.now) mem.now (all_marked mem.now.writes) (place + mem.now.offset) row.old.number) }
{
    let _ = row.width();
    for port in mem.writes.as_slice() {
        let written = is_written(mem, port, place, before, now);
        write_where(true, written, port, now, row);
    }
}

/// The same of the marked ports alone.
pub(crate) fn write_marked(
    mem: &Mem,
    marks: &[bool],
    place: u32,
    before: &Values,
    now: &Values,
    row: &mut Bits,
)
    requires small { mem.now.width ≤ widest }
    requires ports { All (IsWritePortOf before.now now.now mem.now) mem.now.writes }
    requires marks { length marks.now ≡ length mem.now.writes }
    requires there { place < mem.now.size }
    requires width { row.old.width ≡ mem.now.width }
    ensures { row.new ≡ bit_value mem.now.width (next_row (digits_in before.now) (digits_in now.now) mem.now marks.now (place + mem.now.offset) row.old.number) }
{
    let _ = row.width();
    for (i, port) in mem.writes.as_slice().iter().enumerate() {
        let written = is_written(mem, port, place, before, now);
        write_where(marks[i], written, port, now, row);
    }
}

/// Writes the bits at which a port is enabled, where it is marked and writes to this row.
fn write_where(marked: bool, written: bool, port: &WritePort, now: &Values, row: &mut Bits)
    requires en { AreInside now.now port.now.en }
    requires word { AreInside now.now port.now.word }
    requires en_small { sig_width port.now.en ≤ widest }
    requires word_small { sig_width port.now.word ≤ widest }
    ensures { row.new ≡ bit_value row.old.width (row_by (marked && written) (sig_number (digits_in now.now) port.now.en) (sig_number (digits_in now.now) port.now.word) row.old.number row.old.width) }
{
    if marked && written {
        write_enabled(port, now, row);
    }
}

/// Whether a port writes to the row at a place.
fn is_written(mem: &Mem, port: &WritePort, place: u32, before: &Values, now: &Values) -> bool
    requires port { IsWritePortOf before.now now.now mem.now port.now }
    requires there { place < mem.now.size }
    ensures { result ≡ (has_edge port.now.rising (digits_in before.now) (digits_in now.now) port.now.clk && (sig_number (digits_in now.now) port.now.addr == place + mem.now.offset)) }
{
    has_edge(port.rising, before, now, port.clk.as_slice())
        && is_place(place_of_address(mem, port.addr.as_slice(), now), place)
}

/// Whether this is the place.
fn is_place(found: Option<u32>, place: u32) -> bool
    ensures { result ≡ is_place found place }
{
    match found {
        Some(found) => found == place,
        None => false,
    }
}

/// Writes the bits at which a port is enabled.
fn write_enabled(port: &WritePort, now: &Values, row: &mut Bits)
    requires en { AreInside now.now port.now.en }
    requires word { AreInside now.now port.now.word }
    requires en_small { sig_width port.now.en ≤ widest }
    requires word_small { sig_width port.now.word ≤ widest }
    ensures { row.new ≡ bit_value row.old.width (gathered (masked_digit (sig_number (digits_in now.now) port.now.en) (sig_number (digits_in now.now) port.now.word) row.old.number) row.old.width) }
{
    let width = row.width();
    let mut en = SigReader::new(port.en.as_slice(), now);
    let mut word = SigReader::new(port.word.as_slice(), now);
    let mut at = 0u32;
    while at < width {
        let n = (width - at).min(64);
        let own = row.field(at, n);
        let mask = en.take(n);
        row.put_field(at, n, masked(own, mask, word.take(n)));
        at += n;
    }
}

/// The digits of `word` where the mask has a 1, and the own digits elsewhere.
fn masked(own: u64, mask: u64, word: u64) -> u64
    ensures { (j : ℕ) → j < 64 → bit_at result j ≡ masked_digit mask word own j }
{
    (own & !mask) | (word & mask)
}
