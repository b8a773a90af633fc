//! The walk of a whole design.
ghost use Rattle.std.specs.Prelude.{◌≡◌, Some};
ghost use Rattle.design_parts.specs.Parts.{Runs};
ghost use Rattle.design_top.specs.Inputs.{inputs};
ghost use Rattle.design_walk.specs.Modules.{LeadsTo, module_named};
ghost use Rattle.design_walk.specs.Walks.{top_walk};

use crate::descent::Descent;
use crate::frame::Frame;
use design_parts::{Draft, Refusal};
use design_top::drive_inputs;
use design_walk::{arrive_at_top, clash_flags};
use name_table::Table;
use rtlil_tree::Module;
use std::alloc::Global;

/// Walks a design from its top, one of the modules of a file, which these places lead to by their names: its wires, what drives
/// its inputs, and then statement by statement; where one is an instance of a module, the statements of that stand
/// before the rest. The draft has what all of them give, in that order, unless a check fails: then the first one that does
/// is answered.
pub fn walk_design<'m, 't>(
    alloc: Global,
    modules: &'m [Module<'t>],
    places: &Table<usize>,
    top: &'m Module<'t>,
    draft: &mut Draft<'t>,
) -> Result<(), Refusal>
    requires places { LeadsTo places.now modules.now }
    requires top { module_named modules.now top.now.name ≡ Some top.now }
    ensures { Runs (top_walk (λ scope. inputs scope top.now.statements) modules.now top.now) draft.old result draft.new }
{
    let Some(number) = places.get(top.name.as_bytes()) else {
        unreachable!()
    };
    let inside = arrive_at_top(alloc, top, draft)?;
    let statements = top.statements.as_slice();
    drive_inputs(alloc, &inside.wires, statements, draft)?;
    let clashes = clash_flags(alloc, &inside.wires, statements)?;
    let mut descent = Descent::new(alloc, modules.len())?;
    descent.enter(Frame {
        number,
        unit: top,
        place: inside.place,
        wires: inside.wires,
        clashes,
        next: 0,
    })?;
    descent.finish(alloc, modules, places, draft)
}
