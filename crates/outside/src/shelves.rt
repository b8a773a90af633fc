//! A shelf in memory.
ghost use Rattle.std.specs.Prelude.{◌≡◌, ◌≢◌, ℕ, ◌<◌, ◌≤◌, ◌↔◌, List, length, IfOk, OnOk, OnErr, IsErrOf, IsTrue, MatchOption, vec_len};
ghost use Rattle.outside.specs.Faults.{Rose};
ghost use Rattle.outside.specs.Shelf.{Holds, IsLonger, IsOf, IsKnown, Missing};
ghost use Rattle.outside.specs.Shelves.{after_read, after_write, empty_shelves, fails_read, fails_write, file_in, seen_of};

use crate::calls::{is_listed, one_more};
use crate::shelf::{Shelf, ShelfFault};
use sim_base::{Name, NoMemory};
use std::alloc::Global;
use std::collections::BTreeMap;
use std::marker::Model;

/// All bytes of a file.
#[derive(Debug, Drop)]
struct Contents {
    bytes: Vec<u8>,
}

impl Model for Contents {
    ghost use Rattle.std.specs.Prelude.{List, ℕ};

    ghost Value = { List ℕ };

    ghost view = { λ c. c.bytes.items };
}

/// A shelf in memory, which tells its files. Its reads and its writes are counted from 1, each for
/// itself, and those whose numbers are listed fail; so does a read of a file that is not there. A write
/// that fails leaves the file as it was.
#[derive(Debug, Drop)]
pub struct Shelves {
    files: BTreeMap<Name, Contents>,
    failing_reads: Vec<u64>,
    failing_writes: Vec<u64>,
    reads: u64,
    writes: u64,
    read_faults: u64,
    write_faults: u64,
}

impl Model for Shelves {
    ghost use Rattle.outside.specs.Shelves.{Shelved};

    ghost Value = { Shelved };

    ghost view = { λ s. record { files = s.files.entries; failing_reads = s.failing_reads.items; failing_writes = s.failing_writes.items; reads = s.reads; writes = s.writes; read_faults = s.read_faults; write_faults = s.write_faults } };
}

impl Shelves {
    /// No files, and no call that fails.
    pub fn new(alloc: Global) -> Shelves
        ensures { result ≡ empty_shelves }
    {
        Shelves {
            files: BTreeMap::new(alloc),
            failing_reads: Vec::new(alloc),
            failing_writes: Vec::new(alloc),
            reads: 0,
            writes: 0,
            read_faults: 0,
            write_faults: 0,
        }
    }

    /// The same shelf, whose reads of these numbers fail.
    pub fn failing_reads(self, calls: Vec<u64>) -> Shelves
        ensures { result ≡ record self { failing_reads = calls.items } }
    {
        Shelves {
            failing_reads: calls,
            ..self
        }
    }

    /// The same shelf, whose writes of these numbers fail.
    pub fn failing_writes(self, calls: Vec<u64>) -> Shelves
        ensures { result ≡ record self { failing_writes = calls.items } }
    {
        Shelves {
            failing_writes: calls,
            ..self
        }
    }

    /// Puts a file on the shelf, in place of the one that has the name. This is no write that is counted.
    pub fn add(&mut self, name: Name, bytes: Vec<u8>) -> Result<(), NoMemory>
        ensures added { OnOk result (file_in self.new.files name ≡ Holds bytes.items) }
        ensures others { (other : List ℕ) → other ≢ name → file_in self.new.files other ≡ file_in self.old.files other }
        ensures err { OnErr result (self.new ≡ self.old) }
        ensures rest { self.new ≡ record self.old { files = self.new.files } }
    {
        put(&mut self.files, name, bytes)
    }

    /// The bytes of the file of this name, if there is one.
    pub fn bytes_of(&self, name: &Name) -> Option<&[u8]>
        ensures { MatchOption result (file_in self.now.files name.now ≡ Missing) (λ bytes. file_in self.now.files name.now ≡ Holds bytes.now) }
    {
        match self.files.get(name) {
            Some(contents) => Some(contents.bytes.as_slice()),
            None => None,
        }
    }

    /// How many reads failed.
    pub fn read_faults(&self) -> u64
        ensures { result ≡ self.now.read_faults }
    {
        self.read_faults
    }

    /// How many writes failed.
    pub fn write_faults(&self) -> u64
        ensures { result ≡ self.now.write_faults }
    {
        self.write_faults
    }
}

impl Shelf for Shelves {
    ghost seen = { λ s. seen_of s };

    fn read(&mut self, alloc: Global, name: &Name, limit: u64) -> Result<Vec<u8>, ShelfFault>
        ensures within { IfOk result (λ bytes. vec_len bytes ≤ limit) }
        ensures bytes { IfOk result (λ bytes. IsOf (file_in self.old.files name.now) bytes.items) }
        ensures too_long { IsErrOf result ShelfFault.TooLong → IsLonger (file_in self.old.files name.now) limit }
        ensures failed { IsErrOf result ShelfFault.Failed → Rose self.old.read_faults self.new.read_faults }
        ensures no_memory { IsErrOf result ShelfFault.NoMemory → self.new.read_faults ≡ self.old.read_faults }
        ensures later { self.old.read_faults ≤ self.new.read_faults }
        ensures files { (other : List ℕ) → file_in self.new.files other ≡ file_in self.old.files other }
        ensures writes { self.new.write_faults ≡ self.old.write_faults }
        ensures refused { IsErrOf result ShelfFault.Failed ↔ IsTrue (fails_read self.old name.now) }
        ensures after { self.new ≡ after_read self.old name.now }
    {
        self.reads = one_more(self.reads);
        if is_listed(&self.failing_reads, self.reads) {
            self.read_faults = one_more(self.read_faults);
            return Err(ShelfFault::Failed);
        }
        let Some(contents) = self.files.get(name) else {
            self.read_faults = one_more(self.read_faults);
            return Err(ShelfFault::Failed);
        };
        copy_within(alloc, contents.bytes.as_slice(), limit)
    }

    fn write(&mut self, alloc: Global, name: &Name, bytes: &[u8]) -> Result<(), ShelfFault>
        ensures written { OnOk result (IsKnown (file_in self.old.files name.now) → file_in self.new.files name.now ≡ Holds bytes.now) }
        ensures known { IsKnown (file_in self.old.files name.now) → IsKnown (file_in self.new.files name.now) }
        ensures too_long { IsErrOf result ShelfFault.TooLong → ⊥ }
        ensures failed { IsErrOf result ShelfFault.Failed → Rose self.old.write_faults self.new.write_faults }
        ensures no_memory { IsErrOf result ShelfFault.NoMemory → self.new.write_faults ≡ self.old.write_faults }
        ensures as_before { IsErrOf result ShelfFault.NoMemory → file_in self.new.files name.now ≡ file_in self.old.files name.now }
        ensures later { self.old.write_faults ≤ self.new.write_faults }
        ensures others { (other : List ℕ) → other ≢ name.now → file_in self.new.files other ≡ file_in self.old.files other }
        ensures reads { self.new.read_faults ≡ self.old.read_faults }
        ensures refused { IsErrOf result ShelfFault.Failed ↔ IsTrue (fails_write self.old) }
        ensures kept { IsErrOf result ShelfFault.Failed → self.new.files ≡ self.old.files }
        ensures after { self.new ≡ after_write self.old self.new.files }
    {
        self.writes = one_more(self.writes);
        if is_listed(&self.failing_writes, self.writes) {
            self.write_faults = one_more(self.write_faults);
            return Err(ShelfFault::Failed);
        }
        store(&mut self.files, alloc, name, bytes).map_err(|_| ShelfFault::NoMemory)
    }
}

/// A copy of the bytes, if there are at most `limit` of them.
fn copy_within(alloc: Global, bytes: &[u8], limit: u64) -> Result<Vec<u8>, ShelfFault>
    ensures ok { IfOk result (λ copy. copy.items ≡ bytes.now) }
    ensures within { IfOk result (λ copy. vec_len copy ≤ limit) }
    ensures too_long { IsErrOf result ShelfFault.TooLong → limit < length bytes.now }
    ensures never_failed { result ≢ Err ShelfFault.Failed }
{
    if bytes.len() as u64 > limit {
        return Err(ShelfFault::TooLong);
    }
    Vec::from_slice(alloc, bytes).map_err(|_| ShelfFault::NoMemory)
}

/// Puts a copy of the bytes under a copy of the name, in place of what has the name.
fn store(
    files: &mut BTreeMap<Name, Contents>,
    alloc: Global,
    name: &Name,
    bytes: &[u8],
) -> Result<(), NoMemory>
    ensures stored { OnOk result (file_in files.new.entries name.now ≡ Holds bytes.now) }
    ensures others { (other : List ℕ) → other ≢ name.now → file_in files.new.entries other ≡ file_in files.old.entries other }
    ensures err { OnErr result (files.new.entries ≡ files.old.entries) }
{
    let name = Name::copy_of(alloc, name.as_bytes())?;
    let bytes = Vec::from_slice(alloc, bytes)?;
    put(files, name, bytes)
}

/// Puts the bytes under the name, in place of what has the name.
fn put(files: &mut BTreeMap<Name, Contents>, name: Name, bytes: Vec<u8>) -> Result<(), NoMemory>
    ensures stored { OnOk result (file_in files.new.entries name ≡ Holds bytes.items) }
    ensures others { (other : List ℕ) → other ≢ name → file_in files.new.entries other ≡ file_in files.old.entries other }
    ensures err { OnErr result (files.new.entries ≡ files.old.entries) }
{
    files.insert(name, Contents { bytes })?;
    Ok(())
}
