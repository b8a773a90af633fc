//! Runs whose samples are known by a formula.
use sim_base::Time;
use spool_format::{Sample, Shape, Words};
use spool_writer::Spool;
use std::alloc::AllocGlobal;
use std::process::Abort;
use std::sync::Arc;

/// The time from one sample to the next, in femtoseconds.
pub const PERIOD: u128 = 5_000_000;

/// Which slots there are, and what they show.
#[derive(Clone, Copy)]
pub enum Run {
    /// A clock that changes at each sample, and a counter of 8 bits of its rises.
    Counter,
    /// Slots of many widths, each of which changes more seldom than the one before.
    Widths,
}

impl Run {
    pub fn widths(self) -> &'static [u32] {
        match self {
            Run::Counter => &[1, 8],
            Run::Widths => &[0, 1, 31, 32, 33, 64, 65, 1000],
        }
    }

    /// The word at a place of a slot, the least at 0, at sample `k`. The slot has `bits` bits from that word on.
    pub fn word(self, k: u64, slot: u32, place: u32, bits: u32) -> u32 {
        match self {
            Run::Counter if slot == 0 => (k % 2) as u32,
            Run::Counter => ((k / 2 + k % 2) % 256) as u32,
            Run::Widths => {
                let seldom = (k / (u64::from(slot) + 1)).wrapping_add(u64::from(place));
                let mixed = seldom.wrapping_mul(0x9E37_79B9_7F4A_7C15) >> 32;
                (mixed % (1u64 << bits.min(32))) as u32
            }
        }
    }
}

/// When sample `k` comes.
pub fn time_of<R: Abort>(rt: &R, k: u64) -> Time {
    Time::of(u128::from(k) * PERIOD).expect(rt, "a time")
}

fn push_slot<R: Abort>(rt: &R, run: Run, k: u64, slot: u32, width: u32, words: &mut Vec<u32>) {
    for place in 0..width.div_ceil(32) {
        let bits = width - place * 32;
        words
            .push(run.word(k, slot, place, bits))
            .expect(rt, "memory");
    }
}

/// Sample `k` of a run.
pub fn sample<R: AllocGlobal + Abort>(rt: &R, run: Run, k: u64) -> Sample {
    let mut words = Vec::new(rt.alloc());
    let mut slot = 0u32;
    for width in run.widths() {
        push_slot(rt, run, k, slot, *width, &mut words);
        slot = slot.saturating_add(1);
    }
    Sample {
        number: k,
        time: time_of(rt, k),
        words: Words::new(words),
    }
}

/// A recording of a run, without samples.
pub fn start<R: AllocGlobal + Abort>(rt: &R, run: Run) -> Spool {
    let widths = Vec::from_slice(rt.alloc(), run.widths()).expect(rt, "memory");
    assert!(rt; widths.len() < 256);
    let shape = Arc::new(rt.alloc(), Shape::new(widths)).expect(rt, "memory");
    Spool::new(rt.alloc(), shape).expect(rt, "memory")
}

/// Records the next sample of a run.
pub fn push_next<R: AllocGlobal + Abort>(rt: &R, run: Run, spool: &mut Spool) {
    let k = spool.count();
    let s = sample(rt, run, k);
    assert!(rt; k < u64::MAX && spool.is_next(&s));
    spool.push(rt.alloc(), &s).expect(rt, "memory");
}

/// Records the next samples of a run, all at once.
pub fn push_many<R: AllocGlobal + Abort>(rt: &R, run: Run, n: u64, spool: &mut Spool) {
    let samples = samples(rt, run, spool.count(), n);
    assert!(rt; spool.are_next(&samples));
    assert!(rt; spool.count() < 1 << 32 && samples.len() < 1 << 32);
    spool.push_all(rt.alloc(), &samples).expect(rt, "memory");
}

/// So many samples of a run, from one on.
pub fn samples<R: AllocGlobal + Abort>(rt: &R, run: Run, first: u64, n: u64) -> Vec<Sample> {
    let mut samples = Vec::new(rt.alloc());
    for k in 0..n {
        let s = sample(rt, run, first.saturating_add(k));
        samples.push(s).expect(rt, "memory");
    }
    samples
}
