//! Statement by statement whether a name of its cell stands for something else already.
ghost use Rattle.std.specs.Prelude.{◌≡◌, ◌||◌, IfOk};
ghost use Rattle.design_names.specs.Clashes.{clashes_in};
ghost use Rattle.design_walk.specs.Walks as spec;

use design_names::clashes_in;
use name_table::Table;
use rtlil_signals::NamedNet;
use rtlil_tree::Statement;
use sim_base::NoMemory;
use sqlite_items::{Items, at};
use std::alloc::Global;

fn is_either(cell: bool, item: bool) -> bool
    ensures { result ≡ (cell || item) }
{
    cell || item
}

/// Place by place whether one of two flags is set, as far as both go.
fn either(alloc: Global, cells: &[bool], items: &[bool]) -> Result<Items<bool>, NoMemory>
    ensures { IfOk result (λ flags. flags ≡ spec.clash_flags cells.now items.now) }
{
    let mut flags = Items::new(alloc);
    for place in 0..cells.len() {
        let Some(item) = at(items, place) else {
            return Ok(flags);
        };
        flags.push(is_either(cells[place], *item))?;
    }
    Ok(flags)
}

/// Statement by statement whether it is a cell that has the name of an earlier one, or is given something twice, or
/// is a memory whose item has a name that stands for something else, in a module with these wires.
pub fn clash_flags(
    alloc: Global,
    wires: &Table<NamedNet>,
    statements: &[Statement],
) -> Result<Items<bool>, NoMemory>
    ensures { IfOk result (λ flags. flags ≡ spec.flags_of (clashes_in wires.now statements.now)) }
{
    let clashes = clashes_in(alloc, wires, statements)?;
    either(alloc, clashes.cells.as_slice(), clashes.items.as_slice())
}
