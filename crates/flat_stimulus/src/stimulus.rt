//! A stimulus of one block, read from its text.
ghost use Rattle.std.specs.Prelude.{◌≡◌, ℕ, ◌<◌, ◌≤◌, ◌^◌, Err, None, Some, IfOk, MatchOption, bytes_eq, length, map, nat_le, slice_get, slice_index};
ghost use Rattle.std.specs.List.{count_by};
ghost use Rattle.circuit.specs.declared.netlist.Net.{Net};
ghost use Rattle.flat_design.specs.Flat.{IsFlat};
ghost use Rattle.flat_stimulus.specs.Block.{row_of, sample_count};
ghost use Rattle.flat_stimulus.specs.declared.row.BlockRow.{BlockRow as TheRow};
ghost use Rattle.flat_stimulus.specs.Text.{before_end, block_in, block_of, block_of_lines, columns_of, head_from, head_of, limited, repeats_of};
ghost use Rattle.flat_stimulus.specs.Until.{samples_until};

use crate::column::{Column, columns_of, line_of, numbers_of};
use crate::row::{BlockRow, read_rows};
use crate::words::{read_lines, read_words};
use circuit::Circuit;
use flat_text::FlatFault;
use sim_base::{Time, number_in_digits};
use sqlite_items::Items;
use std::alloc::Global;
use std::marker::Model;

/// A stimulus has at most so many samples.
const MOST_SAMPLES: u128 = 16_777_216;

/// A block comes at most so often.
const MOST_REPEATS: u64 = 4_294_967_295;

/// How many digits of the number of repeats are read at most.
const REPEATS_DIGITS: usize = 10;

/// A block of rows that is repeated: row `i` of repeat `r` is sample `r * rows + i`.
#[derive(Debug, Drop)]
pub struct FlatStimulus {
    repeats: u64,
    period: Time,
    rows: Items<BlockRow>,
    columns: Items<usize>,
}

impl Model for FlatStimulus {
    ghost use Rattle.flat_stimulus.specs.Block.{Block, IsBlock};

    ghost Value = { Block };

    ghost view = { λ s. record { repeats = s.repeats; period = s.period; rows = s.rows; columns = s.columns } };

    ghost invariant = { λ s. IsBlock (record { repeats = s.repeats; period = s.period; rows = s.rows; columns = s.columns }) };
}

impl FlatStimulus {
    /// How many samples there are.
    pub fn count(&self) -> u64
        ensures value { result ≡ sample_count self.now }
        ensures some { 1 ≤ result }
        ensures most { result ≤ 16777216 }
    {
        self.repeats * self.rows.len() as u64
    }

    /// The time of sample `k`, and its number for each input of the circuit, in their order.
    pub fn row(&self, k: u64, into: &mut [u64]) -> Time
        requires there { k < sample_count self.now }
        requires room { length into.old ≡ length self.now.columns }
        ensures time { result ≡ (row_of self.now k).time }
        ensures inputs { into.new ≡ (row_of self.now k).inputs }
    {
        let place = (k % self.rows.len() as u64) as usize;
        let row = &self.rows.as_slice()[place];
        copy_inputs(row.values.as_slice(), self.columns.as_slice(), into);
        self.time(k)
    }

    /// The time of sample `k`.
    pub fn time(&self, k: u64) -> Time
        requires { k < sample_count self.now }
        ensures { result ≡ (row_of self.now k).time }
    {
        let count = self.rows.len() as u64;
        let row = &self.rows.as_slice()[(k % count) as usize];
        let start = u128::from(k / count) * self.period.femtoseconds();
        Time::of(start + row.offset.femtoseconds()).unwrap()
    }

    /// How many samples are at or before a time. The periods before it are counted without a look at their
    /// rows.
    pub fn count_until(&self, time: Time) -> u64
        ensures value { result ≡ samples_until (row_of self.now) (sample_count self.now) time }
        ensures most { result ≤ sample_count self.now }
    {
        let periods = time.femtoseconds() / self.period.femtoseconds();
        if periods >= u128::from(self.repeats) {
            return self.count();
        }
        let rows = self.rows.as_slice();
        let rest = time.femtoseconds() % self.period.femtoseconds();
        periods as u64 * rows.len() as u64 + rows_until(rows, rest)
    }
}

/// How many rows have offsets of at most so many femtoseconds.
fn rows_until(rows: &[BlockRow], most: u128) -> u64
    ensures value { result ≡ count_by (λ row. nat_le row.offset most) rows.now }
    ensures most { result ≤ length rows.now }
{
    let mut count = 0;
    for row in rows {
        if row.offset.femtoseconds() <= most {
            count += 1;
        }
    }
    count
}

/// Writes for each input the value in its column.
fn copy_inputs(values: &[u64], columns: &[usize], into: &mut [u64])
    requires room { length into.old ≡ length columns.now }
    requires there { (n : ℕ) → n < length columns.now → slice_index columns.now n < length values.now }
    ensures { into.new ≡ map (λ column. slice_index values.now column) columns.now }
{
    for i in 0..columns.len() {
        into[i] = values[columns[i]];
    }
}

/// How often a block comes.
fn read_repeats(word: &[u8]) -> Option<u64>
    ensures { result ≡ repeats_of word.now }
{
    let number = number_in_digits(word, REPEATS_DIGITS)?;
    if number >= 1 && number <= MOST_REPEATS {
        Some(number)
    } else {
        None
    }
}

/// Whether the bytes are the same.
fn is_text(line: &[u8], text: &[u8]) -> bool
    ensures { result ≡ bytes_eq line.now text.now }
{
    line == text
}

/// The repeats and the period in the head of a block.
fn read_head(alloc: Global, line: &[u8]) -> Result<(u64, Time), FlatFault>
    ensures ok { IfOk result (λ head. head_of line.now ≡ Some head) }
    ensures not_built { result ≡ Err FlatFault.NotBuilt → head_of line.now ≡ None }
{
    let words = read_words(alloc, line)?;
    match head_in(&words) {
        Some(head) => Ok(head),
        None => Err(FlatFault::NotBuilt),
    }
}

/// The repeats and the period in the words of a block's head.
fn head_in(words: &[&[u8]]) -> Option<(u64, Time)>
    ensures { result ≡ head_from (map (λ x. x.now) words.now) }
{
    match words {
        [word, repeats, period] => {
            if !is_text(word, b"block") {
                return None;
            }
            let repeats = read_repeats(repeats)?;
            let period = Time::read(period)?;
            Some((repeats, period))
        }
        _ => None,
    }
}

/// The lines up to a last one that is `end`.
fn before_end<'a>(lines: &'a [&'a [u8]]) -> Option<&'a [&'a [u8]]>
    ensures { MatchOption result (before_end (map (λ x. x.now) lines.entry.now) ≡ None) (λ rows. before_end (map (λ x. x.now) lines.entry.now) ≡ Some (map (λ x. x.now) rows.now)) }
{
    if lines.is_empty() || !is_text(lines[lines.len() - 1], b"end") {
        return None;
    }
    Some(&lines[..lines.len() - 1])
}

/// The block of these parts, where it has rows and its samples and its end are within the limits.
fn limit(
    repeats: u64,
    period: Time,
    rows: Items<BlockRow>,
    columns: Items<usize>,
) -> Result<FlatStimulus, FlatFault>
    requires repeats { (1 ≤ repeats) × (repeats ≤ 4294967295) }
    requires before { (i : ℕ) (row : TheRow) → slice_get rows i ≡ Some row → row.offset < period }
    requires values { (i : ℕ) (row : TheRow) → slice_get rows i ≡ Some row → (n : ℕ) → n < length columns → slice_index columns n < length row.values }
    ensures ok { IfOk result (λ s. limited (record { repeats = repeats; period = period; rows = rows; columns = columns }) ≡ Some s) }
    ensures not_built { result ≡ Err FlatFault.NotBuilt → limited (record { repeats = repeats; period = period; rows = rows; columns = columns }) ≡ None }
{
    let samples = u128::from(repeats) * rows.len() as u128;
    let end = u128::from(repeats) * period.femtoseconds();
    if rows.len() < 1 || samples > MOST_SAMPLES || Time::of(end).is_none() {
        return Err(FlatFault::NotBuilt);
    }
    Ok(FlatStimulus {
        repeats,
        period,
        rows,
        columns,
    })
}

/// The block under its head, over the lines of its rows.
fn read_block(
    alloc: Global,
    circuit: &Circuit,
    columns: &[Column],
    head: &[u8],
    lines: &[&[u8]],
) -> Result<FlatStimulus, FlatFault>
    requires flat { IsFlat circuit.now }
    requires columns { columns.now ≡ columns_of circuit.now }
    ensures ok { IfOk result (λ s. block_in columns.now circuit.now.inputs head.now (map (λ x. x.now) lines.now) ≡ Some s) }
    ensures columns { IfOk result (λ s. length s.columns ≡ length circuit.now.inputs) }
    ensures widths { IfOk result (λ s. (k n : ℕ) (x : Net) → k < sample_count s → slice_get circuit.now.nets (slice_index circuit.now.inputs n) ≡ Some x → slice_index (row_of s k).inputs n < 2 ^ x.width) }
    ensures not_built { result ≡ Err FlatFault.NotBuilt → block_in columns.now circuit.now.inputs head.now (map (λ x. x.now) lines.now) ≡ None }
{
    let numbers = numbers_of(alloc, columns, circuit.inputs.as_slice())?;
    let (repeats, period) = read_head(alloc, head)?;
    let rows = read_rows(alloc, columns, period, lines)?;
    limit(repeats, period, rows, Items::from_vec(numbers))
}

/// Reads a stimulus of one block for a circuit. `NotBuilt` comes exactly where the text has none for this
/// circuit, and `NoMemory` where memory runs out.
pub fn read_stimulus(
    alloc: Global,
    text: &[u8],
    circuit: &Circuit,
) -> Result<FlatStimulus, FlatFault>
    requires { IsFlat circuit.now }
    ensures ok { IfOk result (λ s. block_of text.now circuit.now ≡ Some s) }
    ensures columns { IfOk result (λ s. length s.columns ≡ length circuit.now.inputs) }
    ensures widths { IfOk result (λ s. (k n : ℕ) (x : Net) → k < sample_count s → slice_get circuit.now.nets (slice_index circuit.now.inputs n) ≡ Some x → slice_index (row_of s k).inputs n < 2 ^ x.width) }
    ensures not_built { result ≡ Err FlatFault.NotBuilt → block_of text.now circuit.now ≡ None }
{
    let columns = columns_of(alloc, circuit)?;
    match read_lines(alloc, text) {
        Ok(lines) => read_lines_for(alloc, circuit, &columns, &lines),
        Err(fault) => Err(fault),
    }
}

/// Reads the lines of a stimulus.
fn read_lines_for(
    alloc: Global,
    circuit: &Circuit,
    columns: &[Column],
    lines: &[&[u8]],
) -> Result<FlatStimulus, FlatFault>
    requires flat { IsFlat circuit.now }
    requires columns { columns.now ≡ columns_of circuit.now }
    ensures ok { IfOk result (λ s. block_of_lines columns.now circuit.now.inputs (map (λ x. x.now) lines.now) ≡ Some s) }
    ensures columns { IfOk result (λ s. length s.columns ≡ length circuit.now.inputs) }
    ensures widths { IfOk result (λ s. (k n : ℕ) (x : Net) → k < sample_count s → slice_get circuit.now.nets (slice_index circuit.now.inputs n) ≡ Some x → slice_index (row_of s k).inputs n < 2 ^ x.width) }
    ensures not_built { result ≡ Err FlatFault.NotBuilt → block_of_lines columns.now circuit.now.inputs (map (λ x. x.now) lines.now) ≡ None }
{
    let [version, names, head, rest @ ..] = lines else {
        return Err(FlatFault::NotBuilt);
    };
    let named = line_of(alloc, columns)?;
    if !is_text(version, b"stimulus 0") || !is_text(names, &named) {
        return Err(FlatFault::NotBuilt);
    }
    match before_end(rest) {
        Some(rows) => read_block(alloc, circuit, columns, head, rows),
        None => Err(FlatFault::NotBuilt),
    }
}
