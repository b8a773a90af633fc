//! Why a part of a design is refused.
ghost use Rattle.std.specs.Prelude.{◌≡◌, ◌++◌, ◌∷◌, IfOk};
ghost use Rattle.design_parts.specs.Parts.{Says, at};
ghost use Rattle.design_parts.specs.declared.refusal.Refusal.TheVariants.{NoMemory as OutOfMemory};

use circuit::{DesignFault, DesignKind};
use sim_base::{Name, NoMemory};
use sqlite_items::Items;
use std::alloc::{AllocError, AllocFailed, Global};

/// What a part of a design is refused with.
#[derive(Debug, Drop)]
pub enum Refusal {
    /// The first of its checks that fails.
    At(DesignFault),
    NoMemory,
}

impl From<NoMemory> for Refusal {
    ghost from_gives = { λ _ e. e ≡ OutOfMemory };

    fn from(_cause: NoMemory) -> Refusal {
        Refusal::NoMemory
    }
}

impl From<AllocError> for Refusal {
    ghost from_gives = { λ _ e. e ≡ OutOfMemory };

    fn from(_cause: AllocError) -> Refusal {
        Refusal::NoMemory
    }
}

impl<T: Drop> From<AllocFailed<T>> for Refusal {
    ghost from_gives = { λ _ e. e ≡ OutOfMemory };

    fn from(_cause: AllocFailed<T>) -> Refusal {
        Refusal::NoMemory
    }
}

/// Two texts with a space between them.
fn spaced(alloc: Global, owner: &[u8], item: &[u8]) -> Result<Name, NoMemory>
    ensures { IfOk result (λ name. name ≡ owner.now ++ 32 ∷ item.now) }
{
    let mut bytes = Vec::from_slice(alloc, owner)?;
    bytes.push(b' ')?;
    bytes.extend_from_slice(item)?;
    Ok(Name::new(bytes))
}

/// The refusal of an item in a module, by their identifiers.
pub fn refused_at(alloc: Global, kind: DesignKind, owner: &[u8], item: &[u8]) -> Refusal
    ensures { Says result (at kind owner.now item.now) }
{
    match spaced(alloc, owner, item) {
        Ok(place) => Refusal::At(DesignFault {
            kind,
            place,
            bits: Items::new(alloc),
            drives: Items::new(alloc),
        }),
        Err(NoMemory) => Refusal::NoMemory,
    }
}
