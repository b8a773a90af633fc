//! Why a text gives no circuit that can be evaluated.
ghost use Rattle.std.specs.Prelude.{◌≡◌};
ghost use Rattle.design_load.specs.Loaded.{design_refused, text_refused};
ghost use Rattle.design_load.specs.declared.fault.LoadFault.TheVariants.{NoMemory as OutOfMemory};

use circuit::DesignFault;
use design_parts::Refusal;
use rtlil_lexer::TextFault;
use sim_base::NoMemory;

/// Why a text gives no circuit that can be evaluated.
#[derive(Debug, Drop)]
pub enum LoadFault {
    /// The first fault of the text, of which a process is the last that is looked for.
    Text(TextFault),
    /// The first fault of the design, or of the drives of its circuit.
    Design(DesignFault),
    NoMemory,
}

impl From<TextFault> for LoadFault {
    ghost from_gives = { λ f e. e ≡ text_refused f };

    fn from(fault: TextFault) -> LoadFault {
        match fault {
            TextFault::At { kind, line, column } => {
                LoadFault::Text(TextFault::At { kind, line, column })
            }
            TextFault::NoMemory => LoadFault::NoMemory,
        }
    }
}

impl From<Refusal> for LoadFault {
    ghost from_gives = { λ r e. e ≡ design_refused r };

    fn from(refusal: Refusal) -> LoadFault {
        match refusal {
            Refusal::At(fault) => LoadFault::Design(fault),
            Refusal::NoMemory => LoadFault::NoMemory,
        }
    }
}

impl From<NoMemory> for LoadFault {
    ghost from_gives = { λ _ e. e ≡ OutOfMemory };

    fn from(_cause: NoMemory) -> LoadFault {
        LoadFault::NoMemory
    }
}
