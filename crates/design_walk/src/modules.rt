//! The modules of a file by their names.
ghost use Rattle.std.specs.Prelude.{◌≡◌};
ghost use Rattle.std.specs.Option.{option_copied};
ghost use Rattle.design_walk.specs.Modules as spec;

use name_table::Table;
use rtlil_tree::Module;
use sqlite_items::at;

/// The first module of a name.
#[tactic(auto, using(crate::proofs::Names::found))]
pub fn module_named<'s, 't>(
    modules: &'s [Module<'t>],
    places: &Table<usize>,
    name: &[u8],
) -> Option<&'s Module<'t>>
    requires { spec.LeadsTo places.now modules.now }
    ensures { option_copied result ≡ spec.module_named modules.now name.now }
{
    at(modules, places.get(name)?)
}
