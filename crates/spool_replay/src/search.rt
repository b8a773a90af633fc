//! Looking for the first sample at a time.
ghost use Rattle.std.specs.Prelude.{◌≡◌, ℕ, ◌+◌, ◌-◌, ◌*◌, ◌^◌, ◌<◌, ◌≤◌, length, drop, slice_index};
ghost use Rattle.std.specs.Int.{div_ceil};
ghost use Rattle.spool_format.specs.Reading.{AreSlots, behind_slots, sample_at};
ghost use Rattle.spool_format.specs.Records.{chunk_samples, chunk_words};
ghost use Rattle.spool_replay.specs.Standing.{IsChangeAt};

use crate::record::{CHANGE_HEAD, WHOLE_HEAD, time_or_zero};
use crate::taken::take_steps;
use sim_base::{Steps, Time};
use spool_format::SpoolView;
use std::sync::ledger::Ledger;

/// How many words a time has.
const TIME: usize = 3;

/// How many chunks begin before a time, found by halving. A step is a look at a chunk's first time.
pub fn chunks_before<L: Ledger>(view: &SpoolView, t: Time, steps: &mut Steps<L>) -> usize
    ensures within { result ≤ div_ceil (length view.now.samples) 256 }
    ensures before { 0 < result → (sample_at view.now.samples (256 * (result - 1))).time < t }
    ensures behind { result < div_ceil (length view.now.samples) 256 → t ≤ (sample_at view.now.samples (256 * result)).time }
    ensures steps { (p : ℕ) → div_ceil (length view.now.samples) 256 < 2 ^ p → steps.new ≤ steps.old + p }
{
    let mut low = 0usize;
    let mut high = view.chunks();
    while low < high {
        let middle = low + (high - low) / 2;
        steps.tick();
        if view.first_time(middle).femtoseconds() < t.femtoseconds() {
            low = middle + 1;
        } else {
            high = middle;
        }
    }
    low
}

/// How many samples of a chunk, which begins before a time, are before it. A step is a word that is read.
pub fn samples_before<L: Ledger>(view: &SpoolView, n: usize, t: Time, steps: &mut Steps<L>) -> u64
    requires there { n < div_ceil (length view.now.samples) 256 }
    requires first { (sample_at view.now.samples (256 * n)).time < t }
    ensures some { 0 < result }
    ensures within { result ≤ length (chunk_samples view.now.samples n) }
    ensures before { (sample_at view.now.samples (256 * n + (result - 1))).time < t }
    ensures behind { result < length (chunk_samples view.now.samples n) → t ≤ (sample_at view.now.samples (256 * n + result)).time }
    ensures steps { steps.new ≤ steps.old + length (chunk_words view.now.widths (chunk_samples view.now.samples n)) }
{
    let _samples = view.count();
    let chunk = view.chunk(n);
    let widths = view.shape().widths();
    let mut place = WHOLE_HEAD + view.shape().words() as usize;
    let mut found = 1u64;
    while place < chunk.len() {
        take_steps(TIME, steps);
        if t.femtoseconds() <= time_or_zero(chunk, place).femtoseconds() {
            return found;
        }
        let end = pass_change(chunk, place, widths);
        take_steps(end - place - TIME, steps);
        place = end;
        found += 1;
    }
    found
}

/// Where the record of what changed at a place ends.
fn pass_change(chunk: &[u32], place: usize, widths: &[u32]) -> usize
    requires { IsChangeAt widths.now chunk.now place }
    ensures behind { drop result chunk.now ≡ behind_slots widths.now (slice_index chunk.now (place + 4)) (drop (place + 5) chunk.now) }
    ensures within { result ≤ length chunk.now }
{
    let count = chunk[place + WHOLE_HEAD];
    let mut at = place + CHANGE_HEAD;
    for _ in 0..count {
        at = pass_slot(chunk, at, widths);
    }
    at
}

/// Where the words of the slot that is listed at a place end.
fn pass_slot(chunk: &[u32], at: usize, widths: &[u32]) -> usize
    requires within { at ≤ length chunk.now }
    requires listed { AreSlots widths.now 1 (drop at chunk.now) }
    ensures behind { drop result chunk.now ≡ behind_slots widths.now 1 (drop at chunk.now) }
    ensures within { result ≤ length chunk.now }
{
    at + 1 + widths[chunk[at] as usize].div_ceil(32) as usize
}
