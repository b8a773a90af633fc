//! The names of a module that stand for something else.
ghost use Rattle.std.specs.Prelude.{◌≡◌, IfOk};
ghost use Rattle.design_names.specs.Clashes as spec;

use crate::cells::cells_clash;
use crate::items::{items_clash, items_of};
use name_table::Table;
use rtlil_signals::NamedNet;
use rtlil_tree::Statement;
use sim_base::NoMemory;
use sqlite_items::Items;
use std::alloc::Global;

/// Statement by statement which names of a module stand for something else already.
#[derive(Debug, Drop)]
pub struct Clashes {
    /// Whether it is a cell that has the name of an earlier one, or is given a parameter or a port twice.
    pub cells: Items<bool>,
    /// Whether it is a memory whose item has the name of a wire or of the item of an earlier one.
    pub items: Items<bool>,
}

/// Looks for equal names among the statements of a module with these wires.
pub fn clashes_in(
    alloc: Global,
    wires: &Table<NamedNet>,
    statements: &[Statement],
) -> Result<Clashes, NoMemory>
    ensures { IfOk result (λ clashes. clashes ≡ spec.clashes_in wires.now statements.now) }
{
    let items = items_of(alloc, statements)?;
    Ok(Clashes {
        cells: cells_clash(alloc, statements)?,
        items: items_clash(alloc, wires, items.as_slice())?,
    })
}
