//! Shelves of files.
ghost use Rattle.std.specs.Prelude.{◌≡◌, ◌≢◌, ℕ, ◌≤◌, List, IfOk, OnOk, IsErrOf, vec_len};
ghost use Rattle.outside.specs.Faults.{Rose};
ghost use Rattle.outside.specs.Shelf.{Holds, IsLonger, IsOf, IsKnown, ShelfSeen};

use sim_base::Name;
use std::alloc::Global;
use thiserror::Error;

/// Why a shelf did not read or write a file.
#[derive(Clone, Copy, Debug, PartialEq, Eq, Error)]
pub enum ShelfFault {
    /// The file could not be read or written, and the count of such faults rose.
    #[error("a file could not be read or written")]
    Failed,
    /// The file has more bytes than were asked for.
    #[error("a file is too long")]
    TooLong,
    #[error("out of memory")]
    NoMemory,
}

/// Files by their names. Seen of it is what it tells of the file of each name; an object that tells goes on
/// telling. Seen too are the counts of the faults of its reads and of its writes; a count that stands at
/// 2^64 - 1 no longer rises.
pub trait Shelf {
    ghost seen: { Self → ShelfSeen };

    /// All bytes of a file that has at most `limit` of them.
    fn read(&mut self, alloc: Global, name: &Name, limit: u64) -> Result<Vec<u8>, ShelfFault>
        ensures within { IfOk result (λ bytes. vec_len bytes ≤ limit) }
        ensures bytes { IfOk result (λ bytes. IsOf ((seen self.old).file name.now) bytes.items) }
        ensures too_long { IsErrOf result ShelfFault.TooLong → IsLonger ((seen self.old).file name.now) limit }
        ensures failed { IsErrOf result ShelfFault.Failed → Rose (seen self.old).read_faults (seen self.new).read_faults }
        ensures no_memory { IsErrOf result ShelfFault.NoMemory → (seen self.new).read_faults ≡ (seen self.old).read_faults }
        ensures later { (seen self.old).read_faults ≤ (seen self.new).read_faults }
        ensures files { (other : List ℕ) → (seen self.new).file other ≡ (seen self.old).file other }
        ensures writes { (seen self.new).write_faults ≡ (seen self.old).write_faults };

    /// Makes these all the bytes of the file, which is made where there is none. After `Failed` the file
    /// may hold anything, and `TooLong` never comes.
    fn write(&mut self, alloc: Global, name: &Name, bytes: &[u8]) -> Result<(), ShelfFault>
        ensures written { OnOk result (IsKnown ((seen self.old).file name.now) → (seen self.new).file name.now ≡ Holds bytes.now) }
        ensures known { IsKnown ((seen self.old).file name.now) → IsKnown ((seen self.new).file name.now) }
        ensures too_long { IsErrOf result ShelfFault.TooLong → ⊥ }
        ensures failed { IsErrOf result ShelfFault.Failed → Rose (seen self.old).write_faults (seen self.new).write_faults }
        ensures no_memory { IsErrOf result ShelfFault.NoMemory → (seen self.new).write_faults ≡ (seen self.old).write_faults }
        ensures as_before { IsErrOf result ShelfFault.NoMemory → (seen self.new).file name.now ≡ (seen self.old).file name.now }
        ensures later { (seen self.old).write_faults ≤ (seen self.new).write_faults }
        ensures others { (other : List ℕ) → other ≢ name.now → (seen self.new).file other ≡ (seen self.old).file other }
        ensures reads { (seen self.new).read_faults ≡ (seen self.old).read_faults };
}
