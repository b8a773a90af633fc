//! Why a text was not read.
use sim_base::NoMemory;
use std::alloc::{AllocError, AllocFailed};
use thiserror::Error;

#[derive(Clone, Copy, Debug, PartialEq, Eq, Error)]
pub enum FlatFault {
    /// The text is not of the form that is read so far.
    #[error("this form is not built yet")]
    NotBuilt,
    #[error("out of memory")]
    NoMemory,
}

impl From<NoMemory> for FlatFault {
    ghost use Rattle.std.specs.Prelude.{◌≡◌};
    ghost use Rattle.flat_text.specs.declared.fault.FlatFault.TheVariants as fault;

    ghost from_gives = { λ _ e. e ≡ fault.NoMemory };

    fn from(_cause: NoMemory) -> FlatFault {
        FlatFault::NoMemory
    }
}

impl From<AllocError> for FlatFault {
    ghost use Rattle.std.specs.Prelude.{◌≡◌};
    ghost use Rattle.flat_text.specs.declared.fault.FlatFault.TheVariants as fault;

    ghost from_gives = { λ _ e. e ≡ fault.NoMemory };

    fn from(_cause: AllocError) -> FlatFault {
        FlatFault::NoMemory
    }
}

impl<T: Drop> From<AllocFailed<T>> for FlatFault {
    ghost use Rattle.std.specs.Prelude.{◌≡◌};
    ghost use Rattle.flat_text.specs.declared.fault.FlatFault.TheVariants as fault;

    ghost from_gives = { λ _ e. e ≡ fault.NoMemory };

    fn from(_cause: AllocFailed<T>) -> FlatFault {
        FlatFault::NoMemory
    }
}
