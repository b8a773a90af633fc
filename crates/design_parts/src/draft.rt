//! The lists of a circuit as they grow.
ghost use Rattle.std.specs.Prelude.{◌≡◌, ◌+◌, ◌*◌, ◌<◌, ◌^◌, ◌++◌, ◌∷◌, [], OnOk, length, sum_by};
ghost use Rattle.design_parts.specs.Parts.{circuit_of, none_made, part_count};
ghost use Rattle.rtlil_signals.specs.Drives.{by_at, connected, driven_from};
ghost use Rattle.rtlil_signals.specs.Spans.{pieces_of};
ghost use Rattle.circuit.specs.Signal.{sig_width};

use circuit::{Cell, Circuit, Diag, Drive, Item, Mem, Net, Reg, Scope};
use rtlil_signals::{Source, Span, connect, drive};
use rtlil_tree::Const;
use sim_base::NoMemory;
use sqlite_items::Items;
use std::alloc::Global;
use std::marker::Model;

/// The lists of a circuit as far as they are made, with totals that limits are on.
#[derive(Debug, Drop)]
pub struct Draft<'t> {
    circuit: Circuit,
    /// What is written as the start value of each net, if anything is.
    inits: Items<Option<Const<'t>>>,
    instances: u64,
    /// The bits of all nets.
    bits: u64,
    /// The rows of all memories.
    rows: u64,
    /// The bits of all memories.
    memory_bits: u64,
}

impl<'t> Model for Draft<'t> {
    ghost use Rattle.std.specs.Prelude.{◌≡◌, ◌*◌, sum_by};
    ghost use Rattle.design_parts.specs.Parts.{Made};

    ghost Value = { Made };

    ghost view = { λ d. record {
      nets = d.circuit.nets;
      inits = d.inits;
      drives = d.circuit.drives;
      cells = d.circuit.cells;
      regs = d.circuit.regs;
      mems = d.circuit.mems;
      inputs = d.circuit.inputs;
      items = d.circuit.items;
      scopes = d.circuit.scopes;
      diags = d.circuit.diags;
      instances = d.instances;
    } };

    ghost invariant = { λ d. (d.bits ≡ sum_by (λ n. n.width) d.circuit.nets)
        × (d.rows ≡ sum_by (λ m. m.size) d.circuit.mems)
        × (d.memory_bits ≡ sum_by (λ m. m.size * m.width) d.circuit.mems) };
}

impl<'t> Draft<'t> {
    pub fn new(alloc: Global) -> Draft<'t>
        ensures { result ≡ none_made }
    {
        Draft {
            circuit: Circuit {
                nets: Items::new(alloc),
                drives: Items::new(alloc),
                cells: Items::new(alloc),
                regs: Items::new(alloc),
                mems: Items::new(alloc),
                inputs: Items::new(alloc),
                items: Items::new(alloc),
                scopes: Items::new(alloc),
                diags: Items::new(alloc),
            },
            inits: Items::new(alloc),
            instances: 0,
            bits: 0,
            rows: 0,
            memory_bits: 0,
        }
    }

    /// How many nets there are.
    pub fn net_count(&self) -> usize
        ensures { result ≡ length self.now.nets }
    {
        self.circuit.nets.len()
    }

    /// How many bits all nets have.
    pub fn bit_count(&self) -> u64
        ensures { result ≡ sum_by (λ n. n.width) self.now.nets }
    {
        self.bits
    }

    /// How many cells, registers, memories, diagnostics and instances there are together.
    pub fn part_count(&self) -> u128
        ensures { result ≡ part_count self.now }
    {
        self.circuit.cells.len() as u128
            + self.circuit.regs.len() as u128
            + self.circuit.mems.len() as u128
            + self.circuit.diags.len() as u128
            + self.instances as u128
    }

    /// How many cells there are.
    pub fn cell_count(&self) -> usize
        ensures { result ≡ length self.now.cells }
    {
        self.circuit.cells.len()
    }

    /// How many registers there are.
    pub fn register_count(&self) -> usize
        ensures { result ≡ length self.now.regs }
    {
        self.circuit.regs.len()
    }

    /// How many memories there are.
    pub fn memory_count(&self) -> usize
        ensures { result ≡ length self.now.mems }
    {
        self.circuit.mems.len()
    }

    /// How many rows all memories have.
    pub fn row_count(&self) -> u64
        ensures { result ≡ sum_by (λ m. m.size) self.now.mems }
    {
        self.rows
    }

    /// How many bits all memories have.
    pub fn memory_bit_count(&self) -> u64
        ensures { result ≡ sum_by (λ m. m.size * m.width) self.now.mems }
    {
        self.memory_bits
    }

    /// How many inputs there are.
    pub fn input_count(&self) -> usize
        ensures { result ≡ length self.now.inputs }
    {
        self.circuit.inputs.len()
    }

    /// How many scopes there are.
    pub fn scope_count(&self) -> usize
        ensures { result ≡ length self.now.scopes }
    {
        self.circuit.scopes.len()
    }

    /// Appends a cell.
    pub fn push_cell(&mut self, cell: Cell) -> Result<(), NoMemory>
        ensures { OnOk result (self.new ≡ (record self.old { cells = self.old.cells ++ cell ∷ [] })) }
    {
        self.circuit.cells.push(cell)?;
        Ok(())
    }

    /// Appends a register.
    pub fn push_register(&mut self, register: Reg) -> Result<(), NoMemory>
        ensures { OnOk result (self.new ≡ (record self.old { regs = self.old.regs ++ register ∷ [] })) }
    {
        self.circuit.regs.push(register)?;
        Ok(())
    }

    /// Appends a net with what is written as its start value.
    pub fn push_net(&mut self, net: Net, init: Option<Const<'t>>) -> Result<(), NoMemory>
        requires { sum_by (λ n. n.width) self.old.nets + net.width < 2 ^ 64 }
        ensures { OnOk result (self.new ≡ (record self.old { nets = self.old.nets ++ net ∷ []; inits = self.old.inits ++ init.entry ∷ [] })) }
    {
        let width = net.width as u64;
        self.inits.push(init)?;
        self.circuit.nets.push(net)?;
        self.bits += width;
        Ok(())
    }

    /// Appends a memory.
    pub fn push_memory(&mut self, memory: Mem) -> Result<(), NoMemory>
        requires rows { sum_by (λ m. m.size) self.old.mems + memory.size < 2 ^ 64 }
        requires bits { sum_by (λ m. m.size * m.width) self.old.mems + memory.size * memory.width < 2 ^ 64 }
        ensures { OnOk result (self.new ≡ (record self.old { mems = self.old.mems ++ memory ∷ [] })) }
    {
        let rows = memory.size as u64;
        let bits = rows * memory.width as u64;
        self.circuit.mems.push(memory)?;
        self.rows += rows;
        self.memory_bits += bits;
        Ok(())
    }

    /// Appends a diagnostic.
    pub fn push_diagnostic(&mut self, diagnostic: Diag) -> Result<(), NoMemory>
        ensures { OnOk result (self.new ≡ (record self.old { diags = self.old.diags ++ diagnostic ∷ [] })) }
    {
        self.circuit.diags.push(diagnostic)?;
        Ok(())
    }

    /// Appends a scope.
    pub fn push_scope(&mut self, scope: Scope) -> Result<(), NoMemory>
        ensures { OnOk result (self.new ≡ (record self.old { scopes = self.old.scopes ++ scope ∷ [] })) }
    {
        self.circuit.scopes.push(scope)?;
        Ok(())
    }

    /// Appends an input, which is the number of a net.
    pub fn push_input(&mut self, net: u32) -> Result<(), NoMemory>
        ensures { OnOk result (self.new ≡ (record self.old { inputs = self.old.inputs ++ net ∷ [] })) }
    {
        self.circuit.inputs.push(net)?;
        Ok(())
    }

    /// Counts an instance.
    pub fn add_instance(&mut self)
        requires { self.old.instances + 1 < 2 ^ 64 }
        ensures { self.new ≡ (record self.old { instances = self.old.instances + 1 }) }
    {
        self.instances += 1;
    }

    /// Appends an item.
    pub fn push_item(&mut self, item: Item) -> Result<(), NoMemory>
        ensures { OnOk result (self.new ≡ (record self.old { items = self.old.items ++ item ∷ [] })) }
    {
        self.circuit.items.push(item)?;
        Ok(())
    }

    /// Appends a drive.
    pub fn push_drive(&mut self, drive: Drive) -> Result<(), NoMemory>
        ensures { OnOk result (self.new ≡ (record self.old { drives = self.old.drives ++ drive ∷ [] })) }
    {
        self.circuit.drives.push(drive)?;
        Ok(())
    }

    /// Appends the drives of one signal by another one.
    pub fn connect(&mut self, alloc: Global, left: &[Span], right: &[Span]) -> Result<(), NoMemory>
        ensures { OnOk result (self.new ≡ (record self.old { drives = self.old.drives ++ connected (pieces_of left.now) (pieces_of right.now) })) }
    {
        connect(alloc, left, right, &mut self.circuit.drives)
    }

    /// Appends the drives of a signal by a source of as many bits.
    pub fn drive(&mut self, left: &[Span], source: Source) -> Result<(), NoMemory>
        requires { sig_width (pieces_of left.now) < 2 ^ 32 }
        ensures { OnOk result (self.new ≡ (record self.old { drives = self.old.drives ++ driven_from (by_at source) 0 (pieces_of left.now) })) }
    {
        drive(left, source, &mut self.circuit.drives)
    }

    /// The lists, and what is written as the start value of each net.
    pub fn into_parts(self) -> (Circuit, Items<Option<Const<'t>>>)
        ensures circuit { result.0 ≡ circuit_of self.entry }
        ensures inits { result.1 ≡ self.entry.inits }
    {
        (self.circuit, self.inits)
    }

    /// The lists, and nothing of the number of instances.
    pub fn into_circuit(self) -> Circuit
        ensures { result ≡ circuit_of self.entry }
    {
        self.circuit
    }
}
