//! A recording that is looked at.
ghost use Rattle.std.specs.Prelude.{◌≡◌, ◌*◌, ◌<◌, length};
ghost use Rattle.std.specs.Arc.{arc_value};
ghost use Rattle.std.specs.Int.{div_ceil};
ghost use Rattle.spool_format.specs.Kept.{AreChunksOf, IsRun, recording_of};
ghost use Rattle.spool_format.specs.Reading.{sample_at};
ghost use Rattle.spool_format.specs.Records.{chunk_samples, chunk_words};

use crate::chunks::Chunks;
use crate::fields;
use crate::sample::Words;
use sim_base::{Shape, Time};
use std::marker::Model;
use std::sync::Arc;

/// How many samples a full chunk has.
const CHUNK: u64 = 256;

/// The samples that were recorded up to a time. It shares the full chunks and never changes. Contracts see the widths of its
/// slots and the samples.
#[derive(Debug, Drop)]
pub struct SpoolView {
    shape: Arc<Shape>,
    full: Chunks,
    growing: Words,
    count: u64,
}

impl Model for SpoolView {
    ghost use Rattle.std.specs.Prelude.{◌≡◌, length};
    ghost use Rattle.std.specs.Arc.{arc_value};
    ghost use Rattle.spool_format.specs.Kept.{AreChunksOf, Recording, recording_of};

    ghost Value = { Recording };

    ghost view = { λ v. recording_of (arc_value v.shape) v.full v.growing };

    ghost invariant = { λ v. AreChunksOf (recording_of (arc_value v.shape) v.full v.growing) v.full v.growing
        × (v.count ≡ length (recording_of (arc_value v.shape) v.full v.growing).samples) };
}

impl SpoolView {
    /// The recording that is kept in these chunks, of `count` samples.
    pub fn new(shape: Arc<Shape>, full: Chunks, growing: Words, count: u64) -> SpoolView
        requires kept { AreChunksOf (recording_of (arc_value shape) full growing) full growing }
        requires count { count ≡ length (recording_of (arc_value shape) full growing).samples }
        ensures { result ≡ recording_of (arc_value shape) full growing }
    {
        SpoolView {
            shape,
            full,
            growing,
            count,
        }
    }

    /// How many samples there are.
    pub fn count(&self) -> u64
        ensures value { result ≡ length self.now.samples }
        ensures run { IsRun self.now }
    {
        self.count
    }

    /// The widths of the slots.
    pub fn shape(&self) -> &Shape
        ensures { result.now ≡ self.now.widths }
    {
        &self.shape
    }

    /// How many chunks there are.
    pub fn chunks(&self) -> usize
        ensures { result ≡ div_ceil (length self.now.samples) 256 }
    {
        self.count.div_ceil(CHUNK) as usize
    }

    /// The words of a chunk.
    pub fn chunk(&self, n: usize) -> &[u32]
        requires { n < div_ceil (length self.now.samples) 256 }
        ensures { result.now ≡ chunk_words self.now.widths (chunk_samples self.now.samples n) }
    {
        let _ = self.count;
        match self.full.get(n) {
            Some(words) => words,
            None => self.growing.as_slice(),
        }
    }

    /// The time of the first sample of a chunk.
    pub fn first_time(&self, n: usize) -> Time
        requires { n < div_ceil (length self.now.samples) 256 }
        ensures { result ≡ (sample_at self.now.samples (256 * n)).time }
    {
        let _samples = self.count();
        match fields::time(self.chunk(n), 0) {
            Some(time) => time,
            None => Time::zero(),
        }
    }
}
