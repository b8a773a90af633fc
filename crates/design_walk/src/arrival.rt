//! An instance up to its statements.
ghost use Rattle.std.specs.Prelude.{◌≡◌, ◌<◌, ◌++◌, IfOk, OnOk, length};
ghost use Rattle.design_cells.specs.Rules.{most_parts};
ghost use Rattle.design_instances.specs.Ports.{ports_of};
ghost use Rattle.design_parts.specs.Parts.{Runs, part_count};
ghost use Rattle.design_wires.specs.Places.{seen_here};
ghost use Rattle.design_wires.specs.Wires.{scope_of};
ghost use Rattle.design_walk.specs.Instances as instances;
ghost use Rattle.design_walk.specs.Kept.{seen_place};
ghost use Rattle.design_walk.specs.Walks as spec;

use crate::place::{Place, here, place_within, top_place};
use crate::scopes::{enter, enter_top};
use design_instances::{PortWire, join};
use design_parts::{Draft, Refusal};
use design_wires::{Here, wires};
use name_table::Table;
use rtlil_signals::NamedNet;
use rtlil_tree::{Cell, Module};
use sim_base::NoMemory;
use std::alloc::Global;

/// An instance that was gone into.
#[derive(Drop)]
pub struct Inside<'t> {
    pub place: Place<'t>,
    pub wires: Table<'t, NamedNet>,
}

/// How many scopes there are. More than 4,294,967,295 are refused like memory that is at its end.
fn scope_number(draft: &Draft) -> Result<u32, NoMemory>
    ensures { IfOk result (λ n. n ≡ length draft.now.scopes) }
{
    match u32::try_from(draft.scope_count()) {
        Ok(number) => Ok(number),
        Err(_) => Err(NoMemory),
    }
}

/// Joins the wires of a module, which is this cell, to those around it.
fn join_cell(
    alloc: Global,
    within: &Table<NamedNet>,
    around: &Table<NamedNet>,
    ports: &Table<PortWire>,
    cell: &Cell,
    unit: &Module,
    draft: &mut Draft,
) -> Result<(), Refusal>
    requires { ports.now ≡ ports_of unit.now.statements }
    ensures { Runs (spec.joins within.now around.now cell.now unit.now) draft.old result draft.new }
{
    join(
        alloc,
        within,
        around,
        ports,
        cell.connections.as_slice(),
        draft,
    )?;
    Ok(())
}

/// Goes into a module that is a cell: its scope, if it is shown, one more instance, its wires, and what joins these
/// to the wires around it.
pub fn arrive<'t>(
    alloc: Global,
    around: &Here,
    around_wires: &Table<NamedNet>,
    ports: &Table<PortWire>,
    cell: &Cell,
    unit: &Module<'t>,
    draft: &mut Draft<'t>,
) -> Result<Inside<'t>, Refusal>
    requires ports { ports.now ≡ ports_of unit.now.statements }
    requires room { part_count draft.old < most_parts }
    ensures runs { Runs (spec.arrival (seen_here around.now) around_wires.now cell.now unit.now) draft.old result draft.new }
    ensures place { IfOk result (λ inside. seen_place inside.place ≡ instances.place_within (seen_here around.now) unit.now.name cell.now.name (length draft.old.scopes)) }
    ensures wires { IfOk result (λ inside. inside.wires ≡ scope_of (length draft.old.nets) unit.now.statements) }
{
    let scopes = scope_number(draft)?;
    let place = place_within(alloc, around, unit, cell.name.as_bytes(), scopes)?;
    enter(alloc, around, unit, cell, draft)?;
    let wires = wires(alloc, &here(&place), unit.statements.as_slice(), draft)?;
    join_cell(alloc, &wires, around_wires, ports, cell, unit, draft)?;
    Ok(Inside { place, wires })
}

/// Goes into the top: its scope and its wires.
pub fn arrive_at_top<'t>(
    alloc: Global,
    unit: &Module<'t>,
    draft: &mut Draft<'t>,
) -> Result<Inside<'t>, Refusal>
    ensures runs { Runs (spec.top_wires unit.now) draft.old result draft.new }
    ensures place { IfOk result (λ inside. seen_place inside.place ≡ instances.top_place unit.now (length draft.old.scopes)) }
    ensures wires { IfOk result (λ inside. inside.wires ≡ scope_of (length draft.old.nets) unit.now.statements) }
{
    let scopes = scope_number(draft)?;
    let place = top_place(alloc, unit, scopes);
    enter_top(alloc, unit, draft)?;
    let wires = wires(alloc, &here(&place), unit.statements.as_slice(), draft)?;
    Ok(Inside { place, wires })
}
