//! Which modules names stand for.
ghost use Rattle.std.specs.Prelude.{◌≡◌, [], IfOk};
ghost use Rattle.design_parts.specs.Parts.{Passes, Says};
ghost use Rattle.design_top.specs.Names as spec;

use circuit::{DesignFault, DesignKind};
use design_parts::Refusal;
use name_table::Table;
use rtlil_tree::Module;
use sim_base::{Name, NoMemory};
use sqlite_items::Items;
use std::alloc::Global;

/// The refusal of a second module of a name.
fn refused_module(alloc: Global, name: &[u8]) -> Refusal
    ensures { Says result (spec.second name.now) }
{
    match Name::copy_of(alloc, name) {
        Ok(place) => Refusal::At(DesignFault {
            kind: DesignKind::DuplicateName,
            place,
            bits: Items::new(alloc),
            drives: Items::new(alloc),
        }),
        Err(NoMemory) => Refusal::NoMemory,
    }
}

/// The number of the module behind each name. The second of two modules of one name is refused, in the order of
/// the file, at its identifier.
pub fn number_modules<'t>(
    alloc: Global,
    modules: &[Module<'t>],
) -> Result<Table<'t, usize>, Refusal>
    ensures passes { Passes (spec.name_checks [] modules.now) result }
    ensures numbers { IfOk result (λ numbers. numbers ≡ spec.numbered 0 modules.now) }
{
    let mut numbers = Table::new(alloc);
    for number in 0..modules.len() {
        let name = modules[number].name.as_bytes();
        if !numbers.add(name, number)? {
            return Err(refused_module(alloc, name));
        }
    }
    Ok(numbers)
}
