//! The numbers of a circuit's parts in a round.
ghost use Rattle.std.specs.Prelude.{◌≡◌, ◌<◌, ◌^◌, IfOk, map, true};
ghost use Rattle.sim_base.specs.BitValue.{zeros};
ghost use Rattle.circuit.specs.Store.{start_read, start_store};
ghost use Rattle.circuit.specs.Valid.{is_valid, net_words, output_words, register_words};

use crate::cell::Cell;
use crate::listing::Listing;
use crate::memory::{Mem, ReadPort};
use crate::netlist::{Circuit, Net};
use crate::register::Reg;
use sim_base::{Bits, NoMemory, Values};
use std::alloc::Global;

/// The value of each part of a circuit, in the circuit's order.
#[derive(Debug, Drop)]
pub struct Store {
    pub nets: Values,
    /// The outputs of the combinational cells.
    pub cells: Values,
    pub regs: Values,
    /// For each memory the value of each of its read ports.
    pub reads: Listing<Listing<Bits>>,
}

impl Store {
    /// The start values of registers and of read ports with a clock, and 0 for all else.
    pub fn new(alloc: Global, circuit: &Circuit) -> Result<Store, NoMemory>
        requires { is_valid circuit.now ≡ true }
        ensures { IfOk result (λ store. store ≡ start_store circuit.now) }
    {
        Ok(Store {
            nets: start_nets(alloc, circuit.nets.as_slice())?,
            cells: start_cells(alloc, circuit.cells.as_slice())?,
            regs: start_regs(alloc, circuit.regs.as_slice())?,
            reads: start_mems(alloc, circuit.mems.as_slice())?,
        })
    }
}

fn start_nets(alloc: Global, nets: &[Net]) -> Result<Values, NoMemory>
    requires { net_words nets.now < 2 ^ 32 }
    ensures { IfOk result (λ values. values ≡ map (λ n. zeros n.width) nets.now) }
{
    let mut widths = Vec::new(alloc);
    for net in nets {
        widths.push(net.width)?;
    }
    Values::new(alloc, widths.as_slice())
}

fn start_cells(alloc: Global, cells: &[Cell]) -> Result<Values, NoMemory>
    requires { output_words cells.now < 2 ^ 32 }
    ensures { IfOk result (λ values. values ≡ map (λ x. zeros x.width) cells.now) }
{
    let mut widths = Vec::new(alloc);
    for cell in cells {
        widths.push(cell.width)?;
    }
    Values::new(alloc, widths.as_slice())
}

/// Zeros of the widths of the registers' start values.
fn reg_zeros(alloc: Global, regs: &[Reg]) -> Result<Values, NoMemory>
    requires { register_words regs.now < 2 ^ 32 }
    ensures { IfOk result (λ values. values ≡ map zeros (map (λ v. v.width) (map (λ r. r.init) regs.now))) }
{
    let mut widths = Vec::new(alloc);
    for reg in regs {
        widths.push(reg.init.width())?;
    }
    Values::new(alloc, widths.as_slice())
}

/// The values of registers before the first sample.
pub fn start_regs(alloc: Global, regs: &[Reg]) -> Result<Values, NoMemory>
    requires { register_words regs.now < 2 ^ 32 }
    ensures { IfOk result (λ values. values ≡ map (λ r. r.init) regs.now) }
{
    let mut values = reg_zeros(alloc, regs)?;
    let _ = values.len();
    for (n, reg) in regs.iter().enumerate() {
        values.put(n as u32, &reg.init.view());
    }
    Ok(values)
}

fn start_read(alloc: Global, mem: &Mem, port: &ReadPort) -> Result<Bits, NoMemory>
    ensures { IfOk result (λ value. value ≡ start_read mem.now port.now) }
{
    if port.clocked {
        port.init.try_clone(alloc)
    } else {
        Bits::zero(alloc, mem.width)
    }
}

fn start_reads(alloc: Global, mem: &Mem) -> Result<Listing<Bits>, NoMemory>
    ensures { IfOk result (λ values. values ≡ map (start_read mem.now) mem.now.reads) }
{
    let mut values = Listing::new(alloc);
    for port in mem.reads.as_slice() {
        values.push(start_read(alloc, mem, port)?)?;
    }
    Ok(values)
}

fn start_mems(alloc: Global, mems: &[Mem]) -> Result<Listing<Listing<Bits>>, NoMemory>
    ensures { IfOk result (λ values. values ≡ map (λ m. map (start_read m) m.reads) mems.now) }
{
    let mut values = Listing::new(alloc);
    for mem in mems {
        values.push(start_reads(alloc, mem)?)?;
    }
    Ok(values)
}
