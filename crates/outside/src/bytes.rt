//! A source in memory.
ghost use Rattle.std.specs.Prelude.{◌≡◌, ◌↔◌, ℕ, ◌<◌, length, min, IsTrue};
ghost use Rattle.outside.specs.Bytes.{new_giving, seen_of};
ghost use Rattle.outside.specs.Calls as numbers;
ghost use Rattle.outside.specs.Source.{Gives, IsGot, SourceCause, Stays};

use crate::calls::{is_listed, one_more};
use crate::source::{Got, Source};
use std::alloc::Global;
use std::marker::Model;

/// A source in memory, which tells what it has left. The calls of its `read` are counted from 1, and
/// those whose numbers are listed fail.
#[derive(Debug, Drop)]
pub struct Bytes {
    bytes: Vec<u8>,
    given: usize,
    failing: Vec<u64>,
    most: usize,
    calls: u64,
    faults: u64,
}

impl Model for Bytes {
    ghost use Rattle.std.specs.Prelude.{◌<◌, ◌≤◌, drop, length};
    ghost use Rattle.outside.specs.Bytes.{Giving};

    ghost Value = { Giving };

    ghost view = { λ b. record { left = drop b.given b.bytes.items; failing = b.failing.items; most = b.most; calls = b.calls; faults = b.faults } };

    ghost invariant = { λ b. (b.given ≤ length b.bytes.items) × (0 < b.most) };
}

impl Bytes {
    /// A source of these bytes. It fails at no call, and fills each buffer that it has bytes for.
    pub fn new(alloc: Global, bytes: Vec<u8>) -> Bytes
        ensures { result ≡ new_giving bytes.items }
    {
        Bytes {
            bytes,
            given: 0,
            failing: Vec::new(alloc),
            most: usize::MAX,
            calls: 0,
            faults: 0,
        }
    }

    /// The same source, which fails at the calls of these numbers.
    pub fn failing(self, calls: Vec<u64>) -> Bytes
        ensures { result ≡ record self { failing = calls.items } }
    {
        Bytes {
            failing: calls,
            ..self
        }
    }

    /// The same source, which gives at most so many bytes at a call.
    pub fn giving(self, most: usize) -> Bytes
        requires { 0 < most }
        ensures { result ≡ record self { most = most } }
    {
        Bytes { most, ..self }
    }

    /// All that it has left.
    pub fn left(&self) -> &[u8]
        ensures { result.now ≡ self.now.left }
    {
        &self.bytes[self.given..]
    }

    /// How often it failed.
    pub fn faults(&self) -> u64
        ensures { result ≡ self.now.faults }
    {
        self.faults
    }
}

impl Source for Bytes {
    ghost seen = { λ b. seen_of b };

    fn read(&mut self, buf: &mut [u8]) -> Got
        requires { 0 < length buf.old }
        ensures room { length buf.new ≡ length buf.old }
        ensures within { IsGot result (length buf.old) }
        ensures bytes { Gives (seen_of self.old) (seen_of self.new) result buf.new }
        ensures stays { Stays (seen_of self.old) (seen_of self.new) result }
        ensures cause { SourceCause (seen_of self.old) (seen_of self.new) result }
        ensures gave { (count : ℕ) → result ≡ Got.Bytes count → count ≡ min (min (length self.old.left) (length buf.old)) self.old.most }
        ensures listed { result ≡ Got.Failed ↔ IsTrue (numbers.is_listed self.old.failing self.new.calls) }
        ensures calls { self.new.calls ≡ numbers.one_more self.old.calls }
        ensures rules { self.new ≡ record self.old { left = self.new.left; calls = self.new.calls; faults = self.new.faults } }
    {
        self.calls = one_more(self.calls);
        if is_listed(&self.failing, self.calls) {
            self.faults = one_more(self.faults);
            return Got::Failed;
        }
        let left = &self.bytes[self.given..];
        let count = left.len().min(buf.len()).min(self.most);
        if count == 0 {
            return Got::End;
        }
        buf[..count].copy_from_slice(&left[..count]);
        self.given += count;
        Got::Bytes(count)
    }
}
