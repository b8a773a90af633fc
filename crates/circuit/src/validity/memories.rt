//! Memories.
ghost use Rattle.std.specs.Prelude.{◌≡◌, min};
ghost use Rattle.std.specs.List.{list_all};
ghost use Rattle.circuit.specs.Valid.{read_fits, write_fits, address_width, mem_fits};

use crate::memory::{Mem, ReadPort, WritePort};
use crate::netlist::Net;
use crate::validity::counts::is_countable;
use crate::validity::signals::{WIDEST, capped_width, sig_of};

fn read_fits(nets: &[Net], mem: &Mem, address: u32, port: &ReadPort) -> bool
    ensures { result ≡ read_fits nets.now mem.now address port.now }
{
    sig_of(nets, 1, port.clk.as_slice())
        && (sig_of(nets, 1, port.en.as_slice())
            && (sig_of(nets, address, port.addr.as_slice())
                && (port.see.len() == mem.writes.len() && port.init.width() == mem.width)))
}

fn write_fits(nets: &[Net], mem: &Mem, address: u32, port: &WritePort) -> bool
    ensures { result ≡ write_fits nets.now mem.now address port.now }
{
    sig_of(nets, 1, port.clk.as_slice())
        && (sig_of(nets, mem.width, port.en.as_slice())
            && (sig_of(nets, address, port.addr.as_slice())
                && sig_of(nets, mem.width, port.word.as_slice())))
}

fn reads_fit(nets: &[Net], mem: &Mem, address: u32) -> bool
    ensures { result ≡ list_all (read_fits nets.now mem.now address) mem.now.reads }
{
    let ports = mem.reads.as_slice();
    ports.iter().all(|p| read_fits(nets, mem, address, p))
}

fn writes_fit(nets: &[Net], mem: &Mem, address: u32) -> bool
    ensures { result ≡ list_all (write_fits nets.now mem.now address) mem.now.writes }
{
    let ports = mem.writes.as_slice();
    ports.iter().all(|p| write_fits(nets, mem, address, p))
}

/// The width of a memory's addresses, which is that of the first port that has one, and 65,537 where
/// that is wider.
fn address_width(reads: &[ReadPort], writes: &[WritePort]) -> u32
    ensures { result ≡ min (address_width reads.now writes.now) 65537 }
{
    match (reads, writes) {
        ([port, ..], _) => capped_width(port.addr.as_slice()),
        ([], [port, ..]) => capped_width(port.addr.as_slice()),
        ([], []) => 0,
    }
}

/// Whether the ports of a memory and its start value have their widths.
pub fn mem_fits(nets: &[Net], mem: &Mem) -> bool
    ensures { result ≡ mem_fits nets.now mem.now }
{
    let address = address_width(mem.reads.as_slice(), mem.writes.as_slice());
    mem.width <= WIDEST
        && (u64::from(mem.init.width()) == u64::from(mem.size) * u64::from(mem.width)
            && (is_countable(mem.reads.len())
                && (reads_fit(nets, mem, address) && writes_fit(nets, mem, address))))
}
