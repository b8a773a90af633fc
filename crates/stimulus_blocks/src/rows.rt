//! The rows of a block.
ghost use Rattle.std.specs.Prelude.{◌≡◌, ◌<◌, ◌++◌, [], ◌∷◌, IfOk, length, map, slice_index_or};
ghost use Rattle.stimulus_text.specs.Numbers.{number_of};
ghost use Rattle.stimulus_blocks.specs.Rows.{AreOfLength, BlockRow, no_row};

use sim_base::{NoMemory, Time};
use std::alloc::Global;
use std::marker::Model;
use stimulus_text::Value;

/// Rows of one number of columns, seen as the list of their offsets and values.
#[derive(Debug, Drop)]
pub struct Rows {
    /// How many values a row has, if there is one.
    columns: usize,
    offsets: Vec<Time>,
    /// The values of all rows, one row after another.
    values: Vec<Value>,
}

impl Model for Rows {
    ghost use Rattle.std.specs.Prelude.{◌≡◌, ◌*◌, List, length, map};
    ghost use Rattle.stimulus_text.specs.Numbers.{number_of};
    ghost use Rattle.stimulus_blocks.specs.Rows.{BlockRow, rows_from};

    ghost Value = { List BlockRow };

    ghost view = { λ r. rows_from r.columns r.offsets.items (map number_of r.values.items) };

    ghost invariant = { λ r. length r.values.items ≡ length r.offsets.items * r.columns };
}

impl Rows {
    /// No rows.
    pub fn new(alloc: Global) -> Rows
        ensures { result ≡ [] }
    {
        Rows {
            columns: 0,
            offsets: Vec::new(alloc),
            values: Vec::new(alloc),
        }
    }

    pub fn len(&self) -> usize
        ensures { result ≡ length self.now }
    {
        let _ = &self.values;
        self.offsets.len()
    }

    /// Puts a row behind the others, which have as many values as it.
    pub fn push(self, offset: Time, row: Vec<Value>) -> Result<Rows, NoMemory>
        requires { AreOfLength (length row.items) self }
        ensures { IfOk result (λ rows. rows ≡ self ++ (record { offset = offset; values = map number_of row.items }) ∷ []) }
    {
        let Rows {
            columns: _,
            mut offsets,
            mut values,
        } = self;
        let mut row = row;
        let columns = row.len();
        values.append(&mut row)?;
        offsets.push(offset)?;
        Ok(Rows {
            columns,
            offsets,
            values,
        })
    }

    /// The offset of a row.
    pub fn offset(&self, i: usize) -> Time
        requires { i < length self.now }
        ensures { result ≡ (slice_index_or self.now i no_row).offset }
    {
        let _ = &self.values;
        self.offsets[i]
    }

    /// The values of a row.
    pub fn values(&self, i: usize) -> &[Value]
        requires { i < length self.now }
        ensures { map number_of result.now ≡ (slice_index_or self.now i no_row).values }
    {
        let _ = &self.offsets;
        let start = i * self.columns;
        &self.values[start..start + self.columns]
    }
}
