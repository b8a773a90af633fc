//! The rows of one memory.
ghost use Rattle.std.specs.Prelude.{◌≡◌, ◌+◌, ◌*◌, ◌/◌, ◌%◌, ◌^◌, ◌<◌, ◌≤◌, ◌==◌, IfOk, length, slice_index};
ghost use Rattle.sim_base.specs.BitValue.{bit_value};
ghost use Rattle.sim_base.specs.Parts.{parts};
ghost use Rattle.memory_cells.specs.Rows.{start_rows};

use circuit::Mem;
use sim_base::{Bits, NoMemory};
use std::alloc::Global;
use std::marker::Model;

/// The rows of one memory. A contract sees the width of a row and the number of each row, row 0 first.
/// They are kept in one value of as many bits as all rows have; beside it there is room for one row.
#[derive(Debug, Drop)]
pub struct Rows {
    pub(crate) rows: Bits,
    pub(crate) width: u32,
    pub(crate) size: u32,
    /// A row that is being made.
    pub(crate) row: Bits,
}

impl Model for Rows {
    ghost use Rattle.std.specs.Prelude.{◌≡◌, ◌*◌};
    ghost use Rattle.sim_base.specs.Parts.{parts};
    ghost use Rattle.memory_cells.specs.Rows.{RowValues};

    ghost Value = { RowValues };

    ghost view = { λ r. record { width = r.width; rows = parts r.width r.size r.rows.number } };

    ghost invariant = { λ r. (r.rows.width ≡ r.size * r.width) × (r.row.width ≡ r.width) };
}

impl Rows {
    /// The rows before the first sample.
    pub fn new(alloc: Global, mem: &Mem) -> Result<Rows, NoMemory>
        requires { mem.now.init.width ≡ mem.now.size * mem.now.width }
        ensures { IfOk result (λ rows. rows ≡ start_rows mem.now) }
    {
        Ok(Rows {
            rows: mem.init.try_clone(alloc)?,
            width: mem.width,
            size: mem.size,
            row: Bits::zero(alloc, mem.width)?,
        })
    }

    /// The width of a row in bits.
    pub fn width(&self) -> u32
        ensures { result ≡ self.now.width }
    {
        self.width
    }

    /// The number of rows.
    pub fn len(&self) -> u32
        ensures { result ≡ length self.now.rows }
    {
        self.size
    }

    /// Whether there is no row.
    pub fn is_empty(&self) -> bool
        ensures { result ≡ (length self.now.rows == 0) }
    {
        self.len() == 0
    }

    /// Writes row `i` into a value of a row's width.
    pub fn row(&self, i: u32, into: &mut Bits)
        requires there { i < length self.now.rows }
        requires width { into.old.width ≡ self.now.width }
        ensures { into.new ≡ bit_value self.now.width (slice_index self.now.rows i) }
    {
        let _ = self.rows.width();
        read_row(&self.rows, i * self.width, into);
    }
}

/// Copies the bits from `at` on.
fn read_row(rows: &Bits, at: u32, into: &mut Bits)
    requires inside { at + into.old.width ≤ rows.now.width }
    ensures { into.new ≡ bit_value into.old.width (rows.now.number / 2 ^ at % 2 ^ into.old.width) }
{
    let width = into.width();
    into.copy(0, rows, at, width);
}

/// Copies the row at a place.
pub(crate) fn read_place(mem: &Mem, place: u32, rows: &Bits, row: &mut Bits)
    requires there { place < mem.now.size }
    requires rows { rows.now.width ≡ mem.now.size * mem.now.width }
    requires row { row.old.width ≡ mem.now.width }
    ensures { row.new ≡ bit_value mem.now.width (slice_index (parts mem.now.width mem.now.size rows.now.number) place) }
{
    let _ = rows.width();
    read_row(rows, place * mem.width, row);
}
