//! Blocks one behind another, and the samples that they give.
ghost use Rattle.std.specs.Prelude.{◌≡◌, ℕ, ◌+◌, ◌^◌, ◌<◌, ◌≤◌, ◌++◌, [], ◌∷◌, IfOk, IfSome, length, map, take, slice_index};
ghost use Rattle.sim_base.specs.TimeText.{largest_time};
ghost use Rattle.sim_base.specs.Values.{numbers, widths};
ghost use Rattle.stimulus_text.specs.Numbers.{number_of};
ghost use Rattle.stimulus_blocks.specs.Blocks.{length_in, length_of, samples_in, samples_of, IsBlock};
ghost use Rattle.stimulus_blocks.specs.Courses.{Course, HasSample, input_widths, row_of, sample_count, samples_until};
ghost use Rattle.stimulus_blocks.specs.Standings.{IsPlace, Stands};

use crate::block::Block;
use sim_base::{Bits, NoMemory, Time};
use sqlite_items::Items;
use std::alloc::Global;
use std::marker::Model;
use stimulus_text::{Value, put_narrow, put_value};

/// A block, with what stands before it.
#[derive(Debug, Drop)]
struct Placed {
    /// How many samples come before it.
    first: u64,
    /// When it starts.
    start: Time,
    block: Block,
}

/// Where a sample stands: in which repeat of its block, and at which row.
#[derive(Clone, Copy, Debug)]
struct Standing {
    sample: u64,
    /// The place of its block.
    block: usize,
    repeat: u64,
    row: usize,
    /// When the repeat starts, in femtoseconds.
    start: u128,
}

/// Where a reader of samples stood last. It makes the sample behind that one cheap to find, and changes no answer.
#[derive(Clone, Copy, Debug)]
pub struct Place {
    last: Option<Standing>,
}

impl Place {
    /// Before the first sample.
    pub fn first() -> Place
        ensures { (s : Course) → IsPlace s result }
    {
        Place { last: None }
    }
}

/// The samples of blocks that stand one behind another. They take memory in proportion to the rows, whatever the
/// numbers of repeats are.
#[derive(Debug, Drop)]
pub struct Stimulus {
    /// The width of each column, in bits.
    widths: Items<u32>,
    /// For each input of a circuit the number of its column.
    columns: Items<usize>,
    blocks: Vec<Placed>,
    count: u64,
    end: Time,
}

impl Model for Stimulus {
    ghost use Rattle.stimulus_blocks.specs.Courses.{Course, IsCourse};
    ghost use Rattle.stimulus_blocks.specs.Placed.{blocks_of, IsPlaced};

    ghost Value = { Course };

    ghost view = { λ s. record { widths = s.widths; columns = s.columns; blocks = blocks_of s.blocks.items } };

    ghost invariant = { λ s. IsPlaced s.blocks.items s.count s.end × IsCourse (record { widths = s.widths; columns = s.columns; blocks = blocks_of s.blocks.items }) };
}

impl Stimulus {
    /// No blocks yet, over columns of these widths in bits, with the number of the column of each input.
    pub fn new(alloc: Global, widths: Items<u32>, columns: Items<usize>) -> Stimulus
        requires { (n : ℕ) → n < length columns → slice_index columns n < length widths }
        ensures { result ≡ record { widths = widths; columns = columns; blocks = [] } }
    {
        Stimulus {
            widths,
            columns,
            blocks: Vec::new(alloc),
            count: 0,
            end: Time::zero(),
        }
    }

    /// The width of each column, in bits.
    pub fn widths(&self) -> &[u32]
        ensures { result.now ≡ self.now.widths }
    {
        let _ = &self.blocks;
        self.widths.as_slice()
    }

    /// Zeros of the inputs' widths, for the inputs of a sample.
    pub fn room(&self, alloc: Global) -> Result<Vec<Bits>, NoMemory>
        ensures { IfOk result (λ room. widths room.items ≡ input_widths self.now) }
    {
        let _ = &self.blocks;
        zeros_of(alloc, self.widths.as_slice(), self.columns.as_slice())
    }

    /// How many blocks there are.
    pub fn len(&self) -> usize
        ensures { result ≡ length self.now.blocks }
    {
        let _ = &self.widths;
        self.blocks.len()
    }

    /// How many samples there are.
    pub fn count(&self) -> u64
        ensures value { result ≡ sample_count self.now }
        ensures most { result ≤ 16777216 }
        ensures some { 0 < length self.now.blocks → 1 ≤ result }
    {
        self.count
    }

    /// When the last block ends.
    pub fn end(&self) -> Time
        ensures value { result ≡ length_in self.now.blocks }
        ensures most { result ≤ largest_time }
    {
        self.end
    }

    /// Puts a block behind the others.
    pub fn push(self, block: Block) -> Result<Stimulus, NoMemory>
        requires block { IsBlock self.widths block }
        requires few { samples_in self.blocks + samples_of block ≤ 16777216 }
        requires ends { length_in self.blocks + length_of block ≤ largest_time }
        ensures { IfOk result (λ s. s ≡ record self { blocks = self.blocks ++ block ∷ [] }) }
    {
        let Stimulus {
            widths,
            columns,
            mut blocks,
            count,
            end,
        } = self;
        let samples = block.repeats * block.rows.len() as u64;
        let length = u128::from(block.repeats) * block.period.femtoseconds();
        let placed = Placed {
            first: count,
            start: end,
            block,
        };
        blocks.push(placed)?;
        Ok(Stimulus {
            widths,
            columns,
            blocks,
            count: count + samples,
            end: Time::of(end.femtoseconds() + length).unwrap(),
        })
    }

    /// How many samples come before a block.
    fn first_of(&self, place: usize) -> u64
        requires { place < length self.now.blocks }
        ensures { result ≡ samples_in (take place self.now.blocks) }
    {
        self.blocks[place].first
    }

    /// How many samples come up to a block's end.
    fn first_behind(&self, place: usize) -> u64
        requires { place < length self.now.blocks }
        ensures { result ≡ samples_in (take (place + 1) self.now.blocks) }
    {
        let blocks = self.len();
        if place + 1 < blocks {
            self.first_of(place + 1)
        } else {
            self.count()
        }
    }

    /// The place of the block of sample `k`, by halving.
    fn find(&self, k: u64) -> usize
        requires { k < sample_count self.now }
        ensures { HasSample self.now.blocks result k }
    {
        let mut low = 0;
        let mut high = self.len();
        while high - low > 1 {
            let middle = low + (high - low) / 2;
            if self.first_of(middle) <= k {
                low = middle;
            } else {
                high = middle;
            }
        }
        low
    }

    /// Where sample `k` stands.
    #[cold]
    #[inline(never)]
    fn find_row(&self, k: u64) -> Standing
        requires { k < sample_count self.now }
        ensures sample { result.sample ≡ k }
        ensures stands { Stands self.now result }
    {
        let block = self.find(k);
        let placed = &self.blocks[block];
        let rows = placed.block.rows.len() as u64;
        let at = k - placed.first;
        let repeat = at / rows;
        let before = u128::from(repeat) * placed.block.period.femtoseconds();
        Standing {
            sample: k,
            block,
            repeat,
            row: (at % rows) as usize,
            start: placed.start.femtoseconds() + before,
        }
    }

    /// Where sample `k` stands, which is looked for first behind where another stands: there the next sample of a block
    /// is found with no division.
    #[inline(always)]
    fn find_behind(&self, at: Standing, k: u64) -> Standing
        requires there { k < sample_count self.now }
        requires stands { Stands self.now at }
        ensures sample { result.sample ≡ k }
        ensures stands { Stands self.now result }
    {
        let placed = &self.blocks[at.block];
        let block = &placed.block;
        let sample = at.sample + 1;
        if k != sample {
            return self.find_row(k);
        }
        let row = at.row + 1;
        if row < block.rows.len() {
            return Standing { sample, row, ..at };
        }
        let repeat = at.repeat + 1;
        if repeat == block.repeats {
            return self.find_row(k);
        }
        let start = at.start + block.period.femtoseconds();
        Standing {
            sample,
            block: at.block,
            repeat,
            row: 0,
            start,
        }
    }

    /// Where sample `k` stands, which is looked for first behind the one where a reader stood.
    #[inline(always)]
    fn find_near(&self, place: Place, k: u64) -> Standing
        requires there { k < sample_count self.now }
        requires place { IsPlace self.now place }
        ensures sample { result.sample ≡ k }
        ensures stands { Stands self.now result }
    {
        match place.last {
            Some(last) => self.find_behind(last, k),
            None => self.find_row(k),
        }
    }

    /// The time of the sample that stands there.
    fn time_at(&self, at: &Standing) -> Time
        requires { Stands self.now at.now }
        ensures { result ≡ (row_of self.now at.now.sample).time }
    {
        let placed = &self.blocks[at.block];
        let offset = placed.block.rows.offset(at.row);
        Time::of(at.start + offset.femtoseconds()).unwrap()
    }

    /// Writes the inputs of the sample that stands there.
    fn put_at(&self, at: &Standing, into: &mut [Bits])
        requires stands { Stands self.now at.now }
        requires room { widths into.old ≡ input_widths self.now }
        ensures widths { widths into.new ≡ widths into.old }
        ensures inputs { numbers into.new ≡ (row_of self.now at.now.sample).inputs }
    {
        let placed = &self.blocks[at.block];
        let row = placed.block.rows.values(at.row);
        put_row(row, self.columns.as_slice(), into);
    }

    /// The time of sample `k`.
    pub fn time(&self, k: u64) -> Time
        requires { k < sample_count self.now }
        ensures { result ≡ (row_of self.now k).time }
    {
        self.time_at(&self.find_row(k))
    }

    /// Writes the inputs of sample `k`, in the order of the circuit's inputs, and gives its time.
    pub fn row(&self, k: u64, into: &mut [Bits]) -> Time
        requires there { k < sample_count self.now }
        requires room { widths into.old ≡ input_widths self.now }
        ensures widths { widths into.new ≡ widths into.old }
        ensures inputs { numbers into.new ≡ (row_of self.now k).inputs }
        ensures time { result ≡ (row_of self.now k).time }
    {
        let at = self.find_row(k);
        self.put_at(&at, into);
        self.time_at(&at)
    }

    /// The same, for a reader of samples one after another, who keeps the place: the next sample is the next row.
    pub fn row_from(&self, place: &mut Place, k: u64, into: &mut [Bits]) -> Time
        requires there { k < sample_count self.now }
        requires place { IsPlace self.now place.old }
        requires room { widths into.old ≡ input_widths self.now }
        ensures widths { widths into.new ≡ widths into.old }
        ensures inputs { numbers into.new ≡ (row_of self.now k).inputs }
        ensures time { result ≡ (row_of self.now k).time }
        ensures place { IsPlace self.now place.new }
    {
        let at = self.find_near(*place, k);
        place.last = Some(at);
        self.put_at(&at, into);
        self.time_at(&at)
    }

    /// How many samples are at or before a time, by halving.
    pub fn count_until(&self, time: Time) -> u64
        ensures value { result ≡ samples_until (row_of self.now) (sample_count self.now) time }
        ensures most { result ≤ sample_count self.now }
    {
        let _ = &self.widths;
        let mut low = 0;
        let mut high = self.count();
        while low < high {
            let middle = low + (high - low) / 2;
            if self.time(middle) <= time {
                low = middle + 1;
            } else {
                high = middle;
            }
        }
        low
    }
}

/// For each input zeros of the width of its column.
fn zeros_of(alloc: Global, of: &[u32], columns: &[usize]) -> Result<Vec<Bits>, NoMemory>
    requires { (n : ℕ) → n < length columns.now → slice_index columns.now n < length of.now }
    ensures { IfOk result (λ zeros. widths zeros.items ≡ map (λ column. slice_index of.now column) columns.now) }
{
    let mut zeros = Vec::new(alloc);
    for column in columns {
        zeros.push(Bits::zero(alloc, of[*column])?)?;
    }
    Ok(zeros)
}

/// Writes for each input the value in its column. At most 64 bits are written where they stand; at the first input of
/// more bits the row is written anew, out of line, so that nothing is called while rows are narrow.
#[inline(always)]
fn put_row(values: &[Value], columns: &[usize], into: &mut [Bits])
    requires room { length into.old ≡ length columns.now }
    requires there { (n : ℕ) → n < length columns.now → slice_index columns.now n < length values.now }
    requires fit { (n : ℕ) → slice_index (map (λ column. slice_index (map number_of values.now) column) columns.now) n < 2 ^ slice_index (widths into.old) n }
    ensures widths { widths into.new ≡ widths into.old }
    ensures numbers { numbers into.new ≡ map (λ column. slice_index (map number_of values.now) column) columns.now }
{
    for i in 0..columns.len() {
        if !put_narrow(&values[columns[i]], &mut into[i]) {
            put_wide_row(values, columns, into);
            return;
        }
    }
}

/// The same, for inputs of any width.
#[cold]
#[inline(never)]
fn put_wide_row(values: &[Value], columns: &[usize], into: &mut [Bits])
    requires room { length into.old ≡ length columns.now }
    requires there { (n : ℕ) → n < length columns.now → slice_index columns.now n < length values.now }
    requires fit { (n : ℕ) → slice_index (map (λ column. slice_index (map number_of values.now) column) columns.now) n < 2 ^ slice_index (widths into.old) n }
    ensures widths { widths into.new ≡ widths into.old }
    ensures numbers { numbers into.new ≡ map (λ column. slice_index (map number_of values.now) column) columns.now }
{
    for i in 0..columns.len() {
        put_value(&values[columns[i]], &mut into[i]);
    }
}
