//! Names that stand again.
ghost use Rattle.std.specs.Prelude.{◌≡◌, IfOk, OnOk};
ghost use Rattle.design_names.specs.Names as spec;

use name_table::Table;
use sim_base::NoMemory;

/// Whether a name is among others, to which it is added.
pub(crate) fn is_again<'t>(names: &mut Table<'t, ()>, name: &'t [u8]) -> Result<bool, NoMemory>
    ensures value { IfOk result (λ again. again ≡ spec.has names.old name.now) }
    ensures names { OnOk result (names.new ≡ spec.with_name names.old name.now) }
{
    Ok(!names.add(name, ())?)
}
