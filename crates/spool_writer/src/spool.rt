//! A recording that grows.
ghost use Rattle.std.specs.Prelude.{◌≡◌, ◌+◌, ◌^◌, ◌<◌, ◌≤◌, [], ◌++◌, true, if◌then◌else◌, IfOk, is_ok, length, take};
ghost use Rattle.std.specs.Arc.{arc_value};
ghost use Rattle.spool_format.specs.Kept.{with_sample};
ghost use Rattle.spool_format.specs.Reading.{sample_at};
ghost use Rattle.spool_format.specs.Records.{IsLater, IsNext};
ghost use Rattle.spool_writer.specs.Growing.{AreNext};

use crate::grow::{close_full, keep_last, write_next};
use sim_base::{NoMemory, Time};
use spool_format::{Chunks, Sample, Shape, SpoolView, Words, is_sample};
use std::alloc::Global;
use std::marker::Model;
use std::sync::Arc;

/// A recording that grows by samples. Contracts see the widths of its slots and the samples.
#[derive(Debug, Drop)]
pub struct Spool {
    shape: Arc<Shape>,
    full: Chunks,
    growing: Vec<u32>,
    count: u64,
    /// The last sample, where there is one.
    last: Sample,
}

impl Model for Spool {
    ghost use Rattle.std.specs.Arc.{arc_value};
    ghost use Rattle.spool_format.specs.Kept.{Recording, recording_of};
    ghost use Rattle.spool_writer.specs.Growing.{IsGrowing};

    ghost Value = { Recording };

    ghost view = { λ s. recording_of (arc_value s.shape) s.full s.growing.items };

    ghost invariant = { λ s. IsGrowing (recording_of (arc_value s.shape) s.full s.growing.items) s.full s.growing.items s.count s.last.words s.last.time };
}

impl Spool {
    /// No samples yet.
    pub fn new(alloc: Global, shape: Arc<Shape>) -> Result<Spool, NoMemory>
        ensures { IfOk result (λ spool. spool ≡ record { widths = arc_value shape; samples = [] }) }
    {
        let words = Words::new(vec![in alloc; 0u32; shape.words() as usize]?);
        let last = Sample {
            number: 0,
            time: Time::zero(),
            words,
        };
        Ok(Spool {
            shape,
            full: Chunks::new(alloc),
            growing: Vec::new(alloc),
            count: 0,
            last,
        })
    }

    /// How many samples were recorded.
    pub fn count(&self) -> u64
        ensures { result ≡ length self.now.samples }
    {
        self.count
    }

    /// Whether a sample may come next: it has the next number, a later time than the last one, and the words of all slots.
    pub fn is_next(&self, s: &Sample) -> bool
        ensures yes { result ≡ true → IsNext self.now.widths self.now.samples s.now }
        ensures no { IsNext self.now.widths self.now.samples s.now → result ≡ true }
    {
        s.number == self.count && self.is_later(s.time) && is_sample(&self.shape, s)
    }

    /// Whether a time is later than that of the last sample.
    fn is_later(&self, time: Time) -> bool
        ensures yes { result ≡ true → IsLater self.now.samples time }
        ensures no { IsLater self.now.samples time → result ≡ true }
    {
        self.count == 0 || self.last.time.femtoseconds() < time.femtoseconds()
    }

    /// Whether samples may come next, one after another.
    pub fn are_next(&self, samples: &[Sample]) -> bool
        ensures yes { result ≡ true → AreNext self.now samples.now }
        ensures no { AreNext self.now samples.now → result ≡ true }
    {
        for k in 0..samples.len() {
            if !self.follows(samples, k) {
                return false;
            }
        }
        true
    }

    /// Whether the sample at a place may come next, once those before it came.
    fn follows(&self, samples: &[Sample], k: usize) -> bool
        requires { k < length samples.now }
        ensures yes { result ≡ true → IsNext self.now.widths (self.now.samples ++ take k samples.now) (sample_at samples.now k) }
        ensures no { IsNext self.now.widths (self.now.samples ++ take k samples.now) (sample_at samples.now k) → result ≡ true }
    {
        let s = &samples[k];
        self.is_numbered(samples, k, s.number)
            && self.is_later_behind(samples, k, s.time)
            && is_sample(&self.shape, s)
    }

    /// Whether a number is that of the next sample, once the first `k` of some came.
    fn is_numbered(&self, samples: &[Sample], k: usize, number: u64) -> bool
        requires { k ≤ length samples.now }
        ensures yes { result ≡ true → number ≡ length (self.now.samples ++ take k samples.now) }
        ensures no { number ≡ length (self.now.samples ++ take k samples.now) → result ≡ true }
    {
        let _ = samples;
        u128::from(number) == u128::from(self.count) + k as u128
    }

    /// Whether a time is later than that of the last sample, once the first `k` of some came.
    fn is_later_behind(&self, samples: &[Sample], k: usize, time: Time) -> bool
        requires { k ≤ length samples.now }
        ensures yes { result ≡ true → IsLater (self.now.samples ++ take k samples.now) time }
        ensures no { IsLater (self.now.samples ++ take k samples.now) time → result ≡ true }
    {
        if k == 0 {
            self.is_later(time)
        } else {
            samples[k - 1].time.femtoseconds() < time.femtoseconds()
        }
    }

    /// Records the next sample. Where memory is wanting, the recording is as before.
    pub fn push(&mut self, alloc: Global, s: &Sample) -> Result<(), NoMemory>
        requires next { IsNext self.old.widths self.old.samples s.now }
        requires few { length self.old.samples + 1 < 2 ^ 64 }
        ensures { self.new ≡ (if is_ok result then with_sample self.old s.now else self.old) }
    {
        let count = self.count + 1;
        let start = self.growing.len();
        write_next(&self.shape, self.count, &self.last, s, &mut self.growing)?;
        let closed = close_full(alloc, count, &mut self.full, &mut self.growing);
        if closed.is_err() {
            self.growing.truncate(start);
            return closed;
        }
        keep_last(&mut self.last, s);
        self.count = count;
        Ok(())
    }

    /// Records the next samples: all of them, or none where memory is wanting.
    pub fn push_all(&mut self, alloc: Global, samples: &[Sample]) -> Result<(), NoMemory>
        requires next { AreNext self.old samples.now }
        requires few { length self.old.samples + length samples.now < 2 ^ 64 }
        ensures { self.new ≡ (if is_ok result then record { widths = self.old.widths; samples = self.old.samples ++ samples.now } else self.old) }
    {
        let mut more = self.copy(alloc)?;
        for s in samples {
            more.push(alloc, s)?;
        }
        *self = more;
        Ok(())
    }

    /// The samples so far. The view shares the full chunks and copies the one that grows.
    pub fn view(&self, alloc: Global) -> Result<SpoolView, NoMemory>
        ensures { IfOk result (λ view. view ≡ self.now) }
    {
        let shape = Arc::try_clone(&self.shape)?;
        let full = self.full.share(alloc)?;
        let growing = Words::new(Vec::from_slice(alloc, &self.growing)?);
        Ok(SpoolView::new(shape, full, growing, self.count))
    }

    /// The same recording, which shares the full chunks.
    fn copy(&self, alloc: Global) -> Result<Spool, NoMemory>
        ensures { IfOk result (λ copy. copy ≡ self.now) }
    {
        let shape = Arc::try_clone(&self.shape)?;
        let full = self.full.share(alloc)?;
        let growing = Vec::from_slice(alloc, &self.growing)?;
        let words = Words::new(Vec::from_slice(alloc, self.last.words.as_slice())?);
        let last = Sample {
            number: self.last.number,
            time: self.last.time,
            words,
        };
        Ok(Spool {
            shape,
            full,
            growing,
            count: self.count,
            last,
        })
    }
}
