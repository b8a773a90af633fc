//! A player that stands at a sample of a recording.
ghost use Rattle.std.specs.Prelude.{◌≡◌, ◌≢◌, ℕ, ◌-◌, ◌^◌, count_by, ◌+◌, ◌*◌, ◌/◌, ◌%◌, ◌<◌, ◌≤◌, if◌then◌else◌, nat_lt, IfOk, length};
ghost use Rattle.std.specs.Int.{div_ceil};
ghost use Rattle.sim_base.specs.Shape.{words_of_widths};
ghost use Rattle.spool_format.specs.Reading.{sample_at};
ghost use Rattle.spool_format.specs.Records.{slot_words, times};
ghost use Rattle.spool_replay.specs.Standing.{places_of, words_of_chunk, words_through};

use crate::record::{read_change, read_whole, time_or_zero};
use crate::search::{chunks_before, samples_before};
use crate::taken::take_steps;
use sim_base::{NoMemory, Steps, Time};
use spool_format::{Shape, SpoolView, Words};
use std::alloc::Global;
use std::marker::Model;
use std::sync::ledger::Ledger;

/// How many samples a full chunk has.
const CHUNK: u64 = 256;

/// A player that stands at a sample of a recording. Contracts see the recording and the number of the sample.
#[derive(Debug, Drop)]
pub struct Player {
    view: SpoolView,
    /// Where the words of each slot begin.
    places: Vec<usize>,
    /// The words and the time of the sample.
    words: Words,
    time: Time,
    at: u64,
    /// Where the record behind that of the sample begins in its chunk.
    next: usize,
}

impl Model for Player {
    ghost use Rattle.spool_replay.specs.Standing.{IsStanding, Standing};

    ghost Value = { Standing };

    ghost view = { λ p. record { recording = p.view; at = p.at } };

    ghost invariant = { λ p. IsStanding (record { recording = p.view; at = p.at }) p.places.items p.words p.time p.next };
}

impl Player {
    /// A player at the first sample.
    pub fn new(alloc: Global, view: SpoolView) -> Result<Player, NoMemory>
        requires { 0 < length view.samples }
        ensures { IfOk result (λ player. player ≡ record { recording = view; at = 0 }) }
    {
        let _samples = view.count();
        let places = places_of(alloc, view.shape())?;
        let mut words = zeros(alloc, view.shape())?;
        let next = read_whole(view.chunk(0), &mut words);
        let time = view.first_time(0);
        Ok(Player {
            view,
            places,
            words,
            time,
            at: 0,
            next,
        })
    }

    /// Goes to the next sample, and answers whether there was one.
    pub fn step(&mut self) -> bool
        ensures there { result ≡ nat_lt (self.old.at + 1) (length self.old.recording.samples) }
        ensures at { self.new ≡ record { recording = self.old.recording; at = if result then self.old.at + 1 else self.old.at } }
    {
        if self.count() - self.at() <= 1 {
            return false;
        }
        if (self.at() + 1) % CHUNK == 0 {
            self.begin_chunk((self.at() + 1) / CHUNK);
        } else {
            self.advance();
        }
        true
    }

    /// Goes to a sample. A step is a word of a record that is read: they are at most those of the sample's chunk up to and
    /// including its record.
    pub fn seek<L: Ledger>(&mut self, k: u64, steps: &mut Steps<L>)
        requires { k < length self.old.recording.samples }
        ensures at { self.new ≡ record { recording = self.old.recording; at = k } }
        ensures steps { steps.new ≤ steps.old + words_through self.old.recording k }
    {
        self.reach_chunk(k, steps);
        while self.at() < k {
            let read = self.advance();
            take_steps(read, steps);
        }
    }

    /// How many samples are before a time. A step is a look at a chunk's first time, or a word of a record that is read: they
    /// are at most p and the words of one chunk, where 2^p is above twice the number of chunks.
    pub fn first_at<L: Ledger>(&self, t: Time, steps: &mut Steps<L>) -> u64
        ensures number { result ≡ count_by (λ time. nat_lt time t) (times self.now.recording.samples) }
        ensures steps { (p : ℕ) → 2 * div_ceil (length self.now.recording.samples) 256 < 2 ^ p → steps.new ≤ steps.old + (p + words_of_chunk self.now.recording (result - 1)) }
    {
        let _samples = self.view.count();
        let chunks = chunks_before(&self.view, t, steps);
        if chunks == 0 {
            return 0;
        }
        let behind = samples_before(&self.view, chunks - 1, t, steps);
        (chunks as u64 - 1) * CHUNK + behind
    }

    /// The time of the sample.
    pub fn time(&self) -> Time
        ensures { result ≡ (sample_at self.now.recording.samples self.now.at).time }
    {
        self.time
    }

    /// The words of a slot at the sample, the least first.
    pub fn words(&self, slot: u32) -> &[u32]
        requires { slot < length self.now.recording.widths }
        ensures { result.now ≡ slot_words self.now.recording.widths (sample_at self.now.recording.samples self.now.at).words slot }
    {
        let place = self.places[slot as usize];
        let room = self.view.shape().words_of(slot) as usize;
        &self.words.as_slice()[place..place + room]
    }

    /// How many samples the recording has.
    pub fn count(&self) -> u64
        ensures value { result ≡ length self.now.recording.samples }
        ensures there { self.now.at < length self.now.recording.samples }
    {
        self.view.count()
    }

    /// The number of the sample.
    pub fn at(&self) -> u64
        ensures { result ≡ self.now.at }
    {
        self.at
    }

    /// Goes to the first sample of a chunk, and answers how many words were read.
    fn begin_chunk(&mut self, chunk: u64) -> usize
        requires { 256 * chunk < length self.old.recording.samples }
        ensures at { self.new ≡ record { recording = self.old.recording; at = 256 * chunk } }
        ensures read { result ≡ words_through self.old.recording (256 * chunk) }
    {
        let _samples = self.view.count();
        self.next = read_whole(self.view.chunk(chunk as usize), &mut self.words);
        self.time = self.view.first_time(chunk as usize);
        self.at = chunk * CHUNK;
        self.next
    }

    /// Goes to the first sample of a sample's chunk, unless the player stands in that chunk and not behind that sample.
    fn reach_chunk<L: Ledger>(&mut self, k: u64, steps: &mut Steps<L>)
        requires { k < length self.old.recording.samples }
        ensures recording { self.new.recording ≡ self.old.recording }
        ensures chunk { self.new.at / 256 ≡ k / 256 }
        ensures before { self.new.at ≤ k }
        ensures steps { steps.new ≤ steps.old + words_through self.old.recording self.new.at }
    {
        if k / CHUNK != self.at() / CHUNK || k < self.at() {
            let read = self.begin_chunk(k / CHUNK);
            take_steps(read, steps);
        }
    }

    /// Goes to the next sample, of the same chunk, and answers how many words were read.
    fn advance(&mut self) -> usize
        requires there { self.old.at + 1 < length self.old.recording.samples }
        requires within { (self.old.at + 1) % 256 ≢ 0 }
        ensures at { self.new ≡ record { recording = self.old.recording; at = self.old.at + 1 } }
        ensures read { words_through self.old.recording self.old.at + result ≡ words_through self.old.recording (self.old.at + 1) }
    {
        let chunk = self.view.chunk((self.at / CHUNK) as usize);
        let place = self.next;
        self.time = time_or_zero(chunk, place);
        self.next = read_change(
            chunk,
            place,
            self.view.shape().widths(),
            &self.places,
            &mut self.words,
        );
        self.at += 1;
        self.next - place
    }
}

/// Where the words of each slot begin.
fn places_of(alloc: Global, shape: &Shape) -> Result<Vec<usize>, NoMemory>
    ensures { IfOk result (λ places. places.items ≡ places_of shape.now) }
{
    let _words = shape.words();
    let widths = shape.widths();
    let mut places = Vec::with_capacity(alloc, widths.len())?;
    let mut place = 0usize;
    for width in widths {
        places.push(place)?;
        place += width.div_ceil(32) as usize;
    }
    Ok(places)
}

/// Zeros, as many words as a sample takes.
fn zeros(alloc: Global, shape: &Shape) -> Result<Words, NoMemory>
    ensures { IfOk result (λ words. length words ≡ words_of_widths shape.now) }
{
    Ok(Words::new(vec![in alloc; 0u32; shape.words() as usize]?))
}
