//! Why a packet is refused.
ghost use Rattle.std.specs.Prelude.{◌≡◌};
ghost use Rattle.proto_packets.specs.declared.fault.PacketFault.TheVariants.{NoMemory as OutOfMemory};

use sim_base::NoMemory;
use std::alloc::AllocError;
use thiserror::Error;

/// The first fault of a packet, in the order of the variants.
#[derive(Clone, Copy, Debug, PartialEq, Eq, Error)]
pub enum PacketFault {
    /// The bytes are no UTF-8, no JSON, or JSON with more than 127 nested lists and objects.
    #[error("the packet is not JSON")]
    Json,
    /// Neither a greeting with a whole version nor a command with a name.
    #[error("the packet is not a greeting or a command")]
    Packet,
    /// No command has the name.
    #[error("the command is unknown")]
    Command,
    /// A key of the command is missing, of a wrong kind, or no time.
    #[error("an argument is missing or malformed")]
    Argument,
    /// There was no memory for the request. This comes in the place of any other answer.
    #[error("out of memory")]
    NoMemory,
}

impl From<NoMemory> for PacketFault {
    ghost from_gives = { λ _ e. e ≡ OutOfMemory };

    fn from(_cause: NoMemory) -> PacketFault {
        PacketFault::NoMemory
    }
}

impl From<AllocError> for PacketFault {
    ghost from_gives = { λ _ e. e ≡ OutOfMemory };

    fn from(_cause: AllocError) -> PacketFault {
        PacketFault::NoMemory
    }
}
