//! The roots of a circuit by what they take from.
ghost use Rattle.std.specs.Prelude.{◌≡◌, ℕ, ◌<◌, ◌^◌, slice_index};

use crate::table::Table;

/// A kind of what roots take from.
#[derive(Clone, Copy, Debug)]
pub enum Kind {
    Input,
    /// A cell or a read port.
    Part,
    Register,
    Constant,
}

/// For each source of a circuit the places of the roots that take from it, rising.
#[derive(Debug, Drop)]
pub struct Sources {
    pub inputs: Table,
    /// The cells, and behind them the read ports of each memory.
    pub parts: Table,
    pub registers: Table,
    /// One row.
    pub constants: Table,
    /// The row of the first port of each memory.
    pub ports: Vec<usize>,
    ghost low: { (m : ℕ) → slice_index ports.items m < 2 ^ 63 },
}

impl Sources {
    ghost use Rattle.eval_plan.specs.Sources.{cell_row, constant_row, input_row, read_row, register_row};

    /// The roots that take from an input.
    pub fn roots_of_input(&self, input: u32) -> &[u32]
        ensures { result.now ≡ input_row self.now input }
    {
        self.inputs.row(input as usize)
    }

    /// The roots that take from a cell of the circuit.
    pub fn roots_of_cell(&self, cell: u32) -> &[u32]
        ensures { result.now ≡ cell_row self.now cell }
    {
        self.parts.row(cell as usize)
    }

    /// The roots that take from a register.
    pub fn roots_of_register(&self, register: u32) -> &[u32]
        ensures { result.now ≡ register_row self.now register }
    {
        self.registers.row(register as usize)
    }

    /// The roots that take from a read port of the circuit, with a clock or without.
    pub fn roots_of_read(&self, mem: u32, port: u32) -> &[u32]
        ensures { result.now ≡ read_row self.now mem port }
    {
        match self.ports.get(mem as usize) {
            Some(first) => self.parts.row(*first + port as usize),
            None => &[],
        }
    }

    /// The roots that take from constants.
    pub fn constant_roots(&self) -> &[u32]
        ensures { result.now ≡ constant_row self.now }
    {
        self.constants.row(0)
    }
}
