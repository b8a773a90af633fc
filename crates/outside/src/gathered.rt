//! A sink in memory.
ghost use Rattle.std.specs.Prelude.{◌≡◌, ℕ, ◌<◌, length, min, IfOk, IsTrue};
ghost use Rattle.outside.specs.Calls as numbers;
ghost use Rattle.outside.specs.Gathered.{new_gathering, seen_of};
ghost use Rattle.outside.specs.Sink.{IsWithin, SinkCause, Takes};

use crate::calls::{is_listed, one_more};
use crate::sink::{Put, Sink};
use sim_base::NoMemory;
use std::alloc::Global;
use std::marker::Model;

/// A sink in memory, which tells what it took. The calls of its `write` are counted from 1, and those
/// whose numbers are listed fail; so does one that finds no memory.
#[derive(Debug, Drop)]
pub struct Gathered {
    bytes: Vec<u8>,
    failing: Vec<u64>,
    most: usize,
    calls: u64,
    faults: u64,
}

impl Model for Gathered {
    ghost use Rattle.std.specs.Prelude.{◌<◌};
    ghost use Rattle.outside.specs.Gathered.{Gathering};

    ghost Value = { Gathering };

    ghost view = { λ g. record { bytes = g.bytes.items; failing = g.failing.items; most = g.most; calls = g.calls; faults = g.faults } };

    ghost invariant = { λ g. 0 < g.most };
}

impl Gathered {
    /// A sink that took nothing yet. It fails at no call, and takes each piece whole.
    pub fn new(alloc: Global) -> Gathered
        ensures { result ≡ new_gathering }
    {
        Gathered {
            bytes: Vec::new(alloc),
            failing: Vec::new(alloc),
            most: usize::MAX,
            calls: 0,
            faults: 0,
        }
    }

    /// The same, with room for so many bytes: until these are taken, its calls need no memory.
    pub fn with_room(alloc: Global, room: usize) -> Result<Gathered, NoMemory>
        ensures { IfOk result (λ gathered. gathered ≡ new_gathering) }
    {
        let bytes = Vec::with_capacity(alloc, room)?;
        Ok(Gathered {
            bytes,
            ..Gathered::new(alloc)
        })
    }

    /// The same sink, which fails at the calls of these numbers.
    pub fn failing(self, calls: Vec<u64>) -> Gathered
        ensures { result ≡ record self { failing = calls.items } }
    {
        Gathered {
            failing: calls,
            ..self
        }
    }

    /// The same sink, which takes at most so many bytes at a call.
    pub fn taking(self, most: usize) -> Gathered
        requires { 0 < most }
        ensures { result ≡ record self { most = most } }
    {
        Gathered { most, ..self }
    }

    /// All that it took.
    pub fn bytes(&self) -> &[u8]
        ensures { result.now ≡ self.now.bytes }
    {
        &self.bytes
    }

    /// How often it failed.
    pub fn faults(&self) -> u64
        ensures { result ≡ self.now.faults }
    {
        self.faults
    }
}

impl Sink for Gathered {
    ghost seen = { λ g. seen_of g };

    fn write(&mut self, piece: &[u8]) -> Put
        requires { 0 < length piece.now }
        ensures within { IsWithin result piece.now }
        ensures bytes { Takes (seen_of self.old) (seen_of self.new) result piece.now }
        ensures cause { SinkCause (seen_of self.old) (seen_of self.new) result }
        ensures took { (count : ℕ) → result ≡ Put.Took count → count ≡ min (length piece.now) self.old.most }
        ensures listed { IsTrue (numbers.is_listed self.old.failing self.new.calls) → result ≡ Put.Failed }
        ensures calls { self.new.calls ≡ numbers.one_more self.old.calls }
        ensures rules { self.new ≡ record self.old { bytes = self.new.bytes; calls = self.new.calls; faults = self.new.faults } }
    {
        self.calls = one_more(self.calls);
        let count = piece.len().min(self.most);
        if is_listed(&self.failing, self.calls)
            || self.bytes.extend_from_slice(&piece[..count]).is_err()
        {
            self.faults = one_more(self.faults);
            return Put::Failed;
        }
        Put::Took(count)
    }
}
