//! A statement of an instance, up to the statements of an instance that it leads into.
ghost use Rattle.std.specs.Prelude.{◌≡◌, ℕ, List, suc};
ghost use Rattle.rtlil_tree.specs.declared.module.Statement.TheVariants as statement;
ghost use Rattle.design_walk.specs.Kept.{AreOpen};
ghost use Rattle.design_walk.specs.Modules.{LeadsTo};
ghost use Rattle.design_walk.specs.Walks as walks;
ghost use Rattle.design_descent.specs.Frames.{standing};
ghost use Rattle.design_descent.specs.Turns.{Takes};

use crate::frame::Frame;
use design_parts::{Draft, Refusal};
use design_walk::{arrive, clash_allowed, clash_flags, here, instance_module, typed_cell};
use design_wires::connect;
use name_table::Table;
use rtlil_tree::{Cell, Module, Statement};
use std::alloc::Global;

/// Goes into the module of a cell whose type is none of those that are no modules, and answers the instance.
fn take_instance<'m, 't>(
    alloc: Global,
    modules: &'m [Module<'t>],
    places: &Table<usize>,
    open_modules: &[bool],
    frame: &Frame<'m, 't>,
    cell: &Cell<'t>,
    draft: &mut Draft<'t>,
) -> Result<Option<Frame<'m, 't>>, Refusal>
    requires { LeadsTo places.now modules.now }
    ensures { (names : List (List ℕ)) → AreOpen open_modules.now modules.now names → Takes modules.now names (λ depth. walks.instance (walks.walk (suc depth) modules.now) modules.now (standing names frame.now) cell.now) (statement.Cell cell.now) draft.old result draft.new }
{
    let owner = frame.place.owner;
    let wires = &frame.wires;
    let found = instance_module(
        alloc,
        modules,
        places,
        open_modules,
        owner,
        wires,
        cell,
        draft,
    )?;
    let unit = &modules[found.number];
    let place = here(&frame.place);
    let inside = arrive(alloc, &place, wires, &found.ports, cell, unit, draft)?;
    let clashes = clash_flags(alloc, &inside.wires, unit.statements.as_slice())?;
    Ok(Some(Frame {
        number: found.number,
        unit,
        place: inside.place,
        wires: inside.wires,
        clashes,
        next: 0,
    }))
}

fn take_cell<'m, 't>(
    alloc: Global,
    modules: &'m [Module<'t>],
    places: &Table<usize>,
    open_modules: &[bool],
    frame: &Frame<'m, 't>,
    clash: bool,
    cell: &Cell<'t>,
    draft: &mut Draft<'t>,
) -> Result<Option<Frame<'m, 't>>, Refusal>
    requires { LeadsTo places.now modules.now }
    ensures { (names : List (List ℕ)) → AreOpen open_modules.now modules.now names → Takes modules.now names (λ depth. walks.cell (walks.walk (suc depth) modules.now) modules.now (standing names frame.now) clash cell.now) (statement.Cell cell.now) draft.old result draft.new }
{
    clash_allowed(alloc, frame.place.owner, clash, cell)?;
    let place = here(&frame.place);
    let typed = typed_cell(alloc, &place, &frame.wires, cell, draft)?;
    if typed {
        return Ok(None);
    }
    take_instance(alloc, modules, places, open_modules, frame, cell, draft)
}

/// Takes a statement of an instance, where these are the modules that are open. If it is a cell of a module, the
/// statements of that instance are still to be taken, and it is answered.
pub fn take_statement<'m, 't>(
    alloc: Global,
    modules: &'m [Module<'t>],
    places: &Table<usize>,
    open_modules: &[bool],
    frame: &Frame<'m, 't>,
    clash: bool,
    statement: &Statement<'t>,
    draft: &mut Draft<'t>,
) -> Result<Option<Frame<'m, 't>>, Refusal>
    requires { LeadsTo places.now modules.now }
    ensures { (names : List (List ℕ)) → AreOpen open_modules.now modules.now names → Takes modules.now names (λ depth. walks.step (walks.walk (suc depth) modules.now) modules.now (standing names frame.now) clash statement.now) statement.now draft.old result draft.new }
{
    match statement {
        Statement::Cell(cell) => take_cell(
            alloc,
            modules,
            places,
            open_modules,
            frame,
            clash,
            cell,
            draft,
        ),
        Statement::Connect(assignment) => {
            connect(alloc, frame.place.owner, &frame.wires, assignment, draft)?;
            Ok(None)
        }
        Statement::Parameter(_)
        | Statement::Wire(_)
        | Statement::Memory(_)
        | Statement::Process(_) => Ok(None),
    }
}
