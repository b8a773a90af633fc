//! Reading the records of a chunk.
ghost use Rattle.std.specs.Prelude.{◌≡◌, ℕ, Some, ◌+◌, ◌≤◌, length, take, drop, slice_index};
ghost use Rattle.sim_base.specs.Shape.{words_of_widths};
ghost use Rattle.spool_format.specs.Fields.{time_at};
ghost use Rattle.spool_format.specs.Reading.{AreSlots, behind_slots, set_slots};
ghost use Rattle.spool_replay.specs.Standing.{IsChangeAt, places_of};

use sim_base::Time;
use spool_format::{Words, time};

/// How many words stand before those of the slots in a whole record, and before the slots in one of what changed.
pub const WHOLE_HEAD: usize = 4;

pub const CHANGE_HEAD: usize = 5;

/// Reads the whole record at the head of a chunk into the words of all slots, and answers where it ends.
pub fn read_whole(chunk: &[u32], words: &mut Words) -> usize
    requires { 4 + length words.old ≤ length chunk.now }
    ensures words { words.new ≡ take (length words.old) (drop 4 chunk.now) }
    ensures end { result ≡ 4 + length words.old }
{
    let end = WHOLE_HEAD + words.len();
    words.copy_from(&chunk[WHOLE_HEAD..end]);
    end
}

/// Sets the slots that the record of what changed at a place lists in the words of all slots, and answers where it ends.
pub fn read_change(
    chunk: &[u32],
    place: usize,
    widths: &[u32],
    places: &[usize],
    words: &mut Words,
) -> usize
    requires there { IsChangeAt widths.now chunk.now place }
    requires placed { places.now ≡ places_of widths.now }
    requires room { length words.old ≡ words_of_widths widths.now }
    ensures words { words.new ≡ set_slots widths.now (slice_index chunk.now (place + 4)) (drop (place + 5) chunk.now) words.old }
    ensures behind { drop result chunk.now ≡ behind_slots widths.now (slice_index chunk.now (place + 4)) (drop (place + 5) chunk.now) }
    ensures within { result ≤ length chunk.now }
{
    let count = chunk[place + WHOLE_HEAD];
    let mut at = place + CHANGE_HEAD;
    for _ in 0..count {
        at = read_slot(chunk, at, widths, places, words);
    }
    at
}

/// Sets the slot that is listed at a place, and answers where its words end.
fn read_slot(chunk: &[u32], at: usize, widths: &[u32], places: &[usize], words: &mut Words) -> usize
    requires within { at ≤ length chunk.now }
    requires listed { AreSlots widths.now 1 (drop at chunk.now) }
    requires placed { places.now ≡ places_of widths.now }
    requires room { length words.old ≡ words_of_widths widths.now }
    ensures words { words.new ≡ set_slots widths.now 1 (drop at chunk.now) words.old }
    ensures behind { drop result chunk.now ≡ behind_slots widths.now 1 (drop at chunk.now) }
    ensures within { result ≤ length chunk.now }
    ensures room { length words.new ≡ length words.old }
{
    let slot = chunk[at] as usize;
    let room = widths[slot].div_ceil(32) as usize;
    words.write_at(places[slot], &chunk[at + 1..at + 1 + room]);
    at + 1 + room
}

/// The time of the record at a place, and zero where there is none.
pub fn time_or_zero(chunk: &[u32], place: usize) -> Time
    ensures { (t : ℕ) → time_at chunk.now place ≡ Some t → result ≡ t }
{
    match time(chunk, place) {
        Some(time) => time,
        None => Time::zero(),
    }
}
