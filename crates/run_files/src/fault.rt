//! Why files give no run.
ghost use Rattle.std.specs.Prelude.{◌≡◌};
ghost use Rattle.run_files.specs.Refusals.{design_refused, stimulus_refused};
ghost use Rattle.run_files.specs.declared.fault.FileFault.TheVariants.{NoMemory as OutOfMemory};

use crate::refusal::Refusal;
use design_load::LoadFault;
use sim_base::NoMemory;
use stimulus_text::StimFault;

/// Why files give no run.
#[derive(Debug, Drop)]
pub enum FileFault {
    /// A file could not be read.
    Read,
    Refused(Refusal),
    NoMemory,
}

impl From<LoadFault> for FileFault {
    ghost from_gives = { λ f e. e ≡ design_refused f };

    fn from(fault: LoadFault) -> FileFault {
        match fault {
            LoadFault::Text(fault) => FileFault::Refused(Refusal::Text(fault)),
            LoadFault::Design(fault) => FileFault::Refused(Refusal::Design(fault)),
            LoadFault::NoMemory => FileFault::NoMemory,
        }
    }
}

impl From<StimFault> for FileFault {
    ghost from_gives = { λ f e. e ≡ stimulus_refused f };

    fn from(fault: StimFault) -> FileFault {
        match fault {
            StimFault::At { kind, line } => FileFault::Refused(Refusal::Stimulus { kind, line }),
            StimFault::NoMemory => FileFault::NoMemory,
        }
    }
}

impl From<NoMemory> for FileFault {
    ghost from_gives = { λ _ e. e ≡ OutOfMemory };

    fn from(_cause: NoMemory) -> FileFault {
        FileFault::NoMemory
    }
}
