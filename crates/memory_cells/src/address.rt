//! Addresses.
ghost use Rattle.std.specs.Prelude.{◌≡◌, ◌+◌, ◌-◌, ◌^◌, ◌<◌, ◌≤◌, ◌&&◌, Some, None, nat_le, nat_lt, if◌then◌else◌};
ghost use Rattle.circuit.specs.Signal.{sig_number, sig_width};
ghost use Rattle.circuit.specs.Valid.{widest};
ghost use Rattle.signal_words.specs.Values.{AreInside, digits_in};
ghost use Rattle.memory_cells.specs.Ports.{place_of_address};

use circuit::{Mem, Piece, sig_width};
use signal_words::{SigReader, sig_word};
use sim_base::Values;

/// The place of the row that an address names, or none where it is outside the memory.
pub(crate) fn place_of_address(mem: &Mem, addr: &[Piece], nets: &Values) -> Option<u32>
    requires inside { AreInside nets.now addr.now }
    requires small { sig_width addr.now ≤ widest }
    ensures { result ≡ place_of_address mem.now (sig_number (digits_in nets.now) addr.now) }
{
    let (offset, size) = (mem.offset, mem.size);
    match small_number(addr, nets) {
        Some(address) => place_from(address, offset, size),
        None => None,
    }
}

/// The same, from the number of the address, the memory's first address and the number of its rows.
fn place_from(address: u64, offset: u32, size: u32) -> Option<u32>
    ensures { result ≡ (if nat_le offset address && nat_lt address (offset + size) then Some (address - offset) else None) }
{
    if address < u64::from(offset) {
        return None;
    }
    let place = address - u64::from(offset);
    if place < u64::from(size) {
        Some(place as u32)
    } else {
        None
    }
}

/// The number of a signal, where it is below 2^64.
fn small_number(sig: &[Piece], nets: &Values) -> Option<u64>
    requires inside { AreInside nets.now sig.now }
    requires small { sig_width sig.now ≤ widest }
    ensures { result ≡ (if nat_lt (sig_number (digits_in nets.now) sig.now) (2 ^ 64) then Some (sig_number (digits_in nets.now) sig.now) else None) }
{
    let width = sig_width(sig);
    if width <= 64 {
        return Some(sig_word(sig, nets));
    }
    let mut reader = SigReader::new(sig, nets);
    let word = reader.take(64);
    let mut at = 64u32;
    while at < width {
        if reader.take(64) != 0 {
            return None;
        }
        at += 64;
    }
    Some(word)
}
