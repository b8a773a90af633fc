//! The chunk that grows.
ghost use Rattle.std.specs.Prelude.{◌≡◌, ◌%◌, ◌==◌, ◌++◌, if◌then◌else◌, is_ok, length};
ghost use Rattle.sim_base.specs.Shape.{words_of_widths};
ghost use Rattle.spool_format.specs.Records.{change_record, whole_record};
ghost use Rattle.spool_writer.specs.Growing.{full_after, growing_after};

use sim_base::NoMemory;
use spool_format::{Chunks, Sample, Shape, write_change, write_whole};
use std::alloc::Global;

/// How many samples a full chunk has.
const CHUNK: u64 = 256;

/// Appends the record of the sample that comes after `count` others: a whole one where it is the first of its chunk, else that
/// of what changed since the last sample. Where memory is wanting, the words are as before.
pub fn write_next(
    shape: &Shape,
    count: u64,
    last: &Sample,
    s: &Sample,
    growing: &mut Vec<u32>,
) -> Result<(), NoMemory>
    requires before { length last.now.words ≡ words_of_widths shape.now }
    requires after { length s.now.words ≡ words_of_widths shape.now }
    ensures { growing.new.items ≡ (if is_ok result then growing.old.items ++ (if count % 256 == 0 then whole_record s.now else change_record shape.now last.now s.now) else growing.old.items) }
{
    if count % CHUNK == 0 {
        write_whole(shape, s, growing)
    } else {
        write_change(shape, last, s, growing)
    }
}

/// Moves the chunk that grows to the full ones where it has 256 samples, of `count` in all. Its buffer is kept for the next one.
/// Where memory is wanting, all is as before.
pub fn close_full(
    alloc: Global,
    count: u64,
    full: &mut Chunks,
    growing: &mut Vec<u32>,
) -> Result<(), NoMemory>
    ensures full { full.new ≡ (if is_ok result then full_after count full.old growing.old.items else full.old) }
    ensures growing { growing.new.items ≡ (if is_ok result then growing_after count growing.old.items else growing.old.items) }
{
    if count % CHUNK == 0 {
        full.push(alloc, growing)?;
        growing.clear();
    }
    Ok(())
}

/// Keeps the words and the time of a sample, which the next one is compared with.
pub fn keep_last(last: &mut Sample, s: &Sample)
    requires { length s.now.words ≡ length last.old.words }
    ensures words { last.new.words ≡ s.now.words }
    ensures time { last.new.time ≡ s.now.time }
{
    last.time = s.time;
    last.words.copy_from(s.words.as_slice());
}
