//! The rows of a block.
ghost use Rattle.std.specs.Prelude.{◌≡◌, ◌≤◌, Err, None, Some, IfOk, map};
ghost use Rattle.flat_stimulus.specs.Text.{AreWordColumns, row_in, rows_in, values_of};
ghost use Rattle.sim_base.specs.BitValue.{bit_value, hexadecimal_value};

use crate::column::Column;
use crate::words::read_words;
use flat_text::FlatFault;
use sim_base::{Bits, Time};
use sqlite_items::Items;
use std::alloc::Global;

/// A time behind the start of the block, and the number of each column.
#[derive(Debug, Drop)]
pub struct BlockRow {
    pub offset: Time,
    pub values: Items<u64>,
}

/// A value of at most 64 bits in hexadecimal digits.
fn read_value(alloc: Global, width: u32, word: &[u8]) -> Result<u64, FlatFault>
    requires { width ≤ 64 }
    ensures ok { IfOk result (λ n. hexadecimal_value width word.now ≡ Some (bit_value width n)) }
    ensures not_built { result ≡ Err FlatFault.NotBuilt → hexadecimal_value width word.now ≡ None }
{
    let mut value = Bits::zero(alloc, width)?;
    if !value.put_hexadecimal(word) {
        return Err(FlatFault::NotBuilt);
    }
    let width = value.width();
    Ok(value.field(0, width))
}

/// The values of a row, one for each column.
fn read_values(alloc: Global, columns: &[Column], words: &[&[u8]]) -> Result<Items<u64>, FlatFault>
    requires { AreWordColumns columns.now }
    ensures ok { IfOk result (λ v. values_of columns.now (map (λ x. x.now) words.now) ≡ Some v) }
    ensures not_built { result ≡ Err FlatFault.NotBuilt → values_of columns.now (map (λ x. x.now) words.now) ≡ None }
{
    if words.len() != columns.len() {
        return Err(FlatFault::NotBuilt);
    }
    let mut values = Vec::new(alloc);
    for i in 0..columns.len() {
        match read_value(alloc, columns[i].width, words[i]) {
            Ok(value) => values.push(value)?,
            Err(fault) => return Err(fault),
        }
    }
    Ok(Items::from_vec(values))
}

/// The row of a line. Its offset is at least so many femtoseconds and below the period.
fn read_row(
    alloc: Global,
    columns: &[Column],
    period: Time,
    least: u128,
    line: &[u8],
) -> Result<BlockRow, FlatFault>
    requires { AreWordColumns columns.now }
    ensures ok { IfOk result (λ row. row_in columns.now period least line.now ≡ Some row) }
    ensures not_built { result ≡ Err FlatFault.NotBuilt → row_in columns.now period least line.now ≡ None }
{
    let words = read_words(alloc, line)?;
    let Some((offset, values)) = words.split_first() else {
        return Err(FlatFault::NotBuilt);
    };
    let Some(offset) = Time::read(offset) else {
        return Err(FlatFault::NotBuilt);
    };
    let values = read_values(alloc, columns, values)?;
    if offset.femtoseconds() < least || offset >= period {
        return Err(FlatFault::NotBuilt);
    }
    Ok(BlockRow { offset, values })
}

/// The rows of lines, whose offsets rise and are below the period.
pub fn read_rows(
    alloc: Global,
    columns: &[Column],
    period: Time,
    lines: &[&[u8]],
) -> Result<Items<BlockRow>, FlatFault>
    requires { AreWordColumns columns.now }
    ensures ok { IfOk result (λ rows. rows_in columns.now period 0 (map (λ x. x.now) lines.now) ≡ Some rows) }
    ensures not_built { result ≡ Err FlatFault.NotBuilt → rows_in columns.now period 0 (map (λ x. x.now) lines.now) ≡ None }
{
    let mut rows = Vec::new(alloc);
    let mut least = 0u128;
    for line in lines {
        match read_row(alloc, columns, period, least, line) {
            Ok(row) => {
                least = row.offset.femtoseconds() + 1;
                rows.push(row)?;
            }
            Err(fault) => return Err(fault),
        }
    }
    Ok(Items::from_vec(rows))
}
