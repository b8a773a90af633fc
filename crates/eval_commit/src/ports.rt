//! The memories in a round.
ghost use Rattle.std.specs.Prelude.{◌≡◌, List, IfOk, map, not, true};
ghost use Rattle.std.specs.Cmp.Lexicographic.{pointwise};
ghost use Rattle.circuit.specs.Next.{next_mems, next_stored};
ghost use Rattle.circuit.specs.State.{same_stored};
ghost use Rattle.circuit.specs.Valid.{is_valid};
ghost use Rattle.memory_cells.specs.Ports.{IsMemoryOf, stored};
ghost use Rattle.memory_cells.specs.Rows.{AreRowsOf};
ghost use Rattle.signal_words.specs.Stores.{IsStoreOf};
ghost use Rattle.sim_base.specs.Values.{widths};
ghost use Rattle.signal_words.specs.Values.{digits_in};
ghost use Rattle.eval_commit.specs.Computed.{AreAllRows};
ghost use Rattle.eval_commit.specs.KeptState.{stored_all};

use crate::copy::copy_values;
use circuit::{Circuit, Listing, Mem, Store};
use memory_cells::{Rows, clock_ports, law_of_memories};
use sim_base::{Bits, NoMemory};
use std::alloc::Global;
use std::marker::Model;

/// The values of the read ports of one memory, which contracts see as their list.
#[derive(Debug, Drop)]
pub struct Ports {
    outs: Vec<Bits>,
}

impl Model for Ports {
    ghost use Rattle.std.specs.Prelude.{List};
    ghost use Rattle.sim_base.specs.BitValue.{BitValue};

    ghost Value = { List BitValue };

    ghost view = { λ p. p.outs.items };
}

impl Ports {
    /// The start values.
    fn new(alloc: Global, mem: &Mem) -> Result<Ports, NoMemory>
        ensures { IfOk result (λ ports. ports ≡ map (λ p. p.init) mem.now.reads) }
    {
        let mut outs = Vec::new(alloc);
        for port in mem.reads.as_slice() {
            outs.push(port.init.try_clone(alloc)?)?;
        }
        Ok(Ports { outs })
    }

    /// The values.
    fn as_slice(&self) -> &[Bits]
        ensures { result.now ≡ self.now }
    {
        self.outs.as_slice()
    }

    /// Does one round's clocked reads and writes of the memory, and tells whether a row or a value changed.
    fn clock(&mut self, mem: &Mem, rows: &mut Rows, before: &Store, now: &Store) -> bool
        requires fits { IsMemoryOf before.now.nets now.now.nets mem.now }
        requires rows { AreRowsOf mem.now rows.old }
        requires outs { widths self.old ≡ map (λ _. mem.now.width) mem.now.reads }
        ensures widths { widths self.new ≡ widths self.old }
        ensures rows { AreRowsOf mem.now rows.new }
        ensures stored { stored rows.new self.new ≡ next_stored (digits_in before.now.nets) (digits_in now.now.nets) mem.now (stored rows.old self.old) }
        ensures changed { result ≡ not (same_stored (stored rows.new self.new) (stored rows.old self.old)) }
    {
        clock_ports(mem, rows, before, now, &mut self.outs)
    }
}

/// The start values of the read ports of each memory.
pub(crate) fn start_ports(alloc: Global, circuit: &Circuit) -> Result<Listing<Ports>, NoMemory>
    ensures { IfOk result (λ ports. ports ≡ map (λ m. map (λ p. p.init) m.reads) circuit.now.mems) }
{
    let mut ports = Listing::new(alloc);
    for mem in circuit.mems.as_slice() {
        ports.push(Ports::new(alloc, mem)?)?;
    }
    Ok(ports)
}

/// Does one round's clocked reads and writes of each memory, from the values of the nets in the round before
/// and in this one, and tells whether a row or a value changed. It takes no memory.
pub(crate) fn next_mems(
    circuit: &Circuit,
    before: &Store,
    now: &Store,
    rows: &mut Listing<Rows>,
    ports: &mut Listing<Ports>,
) -> bool
    requires valid { is_valid circuit.now ≡ true }
    requires before { IsStoreOf circuit.now before.now }
    requires now { IsStoreOf circuit.now now.now }
    requires rows { AreAllRows circuit.now rows.old }
    requires ports { map widths ports.old ≡ map (λ m. map (λ _. m.width) m.reads) circuit.now.mems }
    ensures rows { AreAllRows circuit.now rows.new }
    ensures ports { map widths ports.new ≡ map widths ports.old }
    ensures stored { stored_all rows.new ports.new ≡ next_mems (digits_in before.now.nets) (digits_in now.now.nets) circuit.now.mems (stored_all rows.old ports.old) }
    ensures changed { result ≡ not (pointwise same_stored (stored_all rows.new ports.new) (stored_all rows.old ports.old)) }
{
    law_of_memories();
    let mut changed = false;
    for (i, mem) in circuit.mems.as_slice().iter().enumerate() {
        changed |= ports.at(i).clock(mem, rows.at(i), before, now);
    }
    changed
}

/// Copies the values of the read ports to a store, and leaves the rest of it. It takes no memory.
pub(crate) fn put_reads(ports: &[Ports], store: &mut Store)
    requires { map widths store.old.reads ≡ map widths ports.now }
    ensures nets { store.new.nets ≡ store.old.nets }
    ensures regs { store.new.regs ≡ store.old.regs }
    ensures cells { store.new.cells ≡ store.old.cells }
    ensures reads { store.new.reads ≡ ports.now }
{
    for (m, outs) in ports.iter().enumerate() {
        copy_values(outs.as_slice(), store.reads.at(m));
    }
}
