//! What a reading of a packet found.
ghost use Rattle.std.specs.Prelude.{◌≡◌, ◌≢◌, Err, false, true};
ghost use Rattle.proto_packets.specs.declared.fault.PacketFault.TheVariants as faults;

use proto_packets::{PacketFault, Request};

/// Whether a reading found no memory.
pub fn is_want_of_memory(read: &Result<Request, PacketFault>) -> bool
    ensures yes { result ≡ true → read.now ≡ Err faults.NoMemory }
    ensures no_ { result ≡ false → read.now ≢ Err faults.NoMemory }
{
    matches!(read, Err(PacketFault::NoMemory))
}
