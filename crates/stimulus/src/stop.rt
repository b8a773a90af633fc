//! Why the reading of a line stops.
ghost use Rattle.std.specs.Prelude.{◌≡◌};
ghost use Rattle.stimulus.specs.Stops.{stopped};
ghost use Rattle.stimulus.specs.declared.stop.Stop.TheVariants.{NoMemory as OutOfMemory};

use sim_base::NoMemory;
use std::alloc::{AllocError, AllocFailed};
use stimulus_text::{StimFault, StimFaultKind};

#[derive(Debug, Drop)]
pub(crate) enum Stop {
    Fault(StimFaultKind),
    NoMemory,
}

impl Stop {
    /// The fault at a line.
    pub(crate) fn at(self, line: u32) -> StimFault
        ensures { result ≡ stopped self line }
    {
        match self {
            Stop::Fault(kind) => StimFault::At { kind, line },
            Stop::NoMemory => StimFault::NoMemory,
        }
    }
}

impl From<NoMemory> for Stop {
    ghost from_gives = { λ _ e. e ≡ OutOfMemory };

    fn from(_cause: NoMemory) -> Stop {
        Stop::NoMemory
    }
}

impl From<AllocError> for Stop {
    ghost from_gives = { λ _ e. e ≡ OutOfMemory };

    fn from(_cause: AllocError) -> Stop {
        Stop::NoMemory
    }
}

impl<T: Drop> From<AllocFailed<T>> for Stop {
    ghost from_gives = { λ _ e. e ≡ OutOfMemory };

    fn from(_cause: AllocFailed<T>) -> Stop {
        Stop::NoMemory
    }
}
