//! The module of a cell that is an instance, and the checks of such a cell.
ghost use Rattle.std.specs.Prelude.{◌≡◌, ◌<◌, List, ℕ, IfOk, OnOk, Some, length, slice_get};
ghost use Rattle.design_cells.specs.Rules.{most_parts};
ghost use Rattle.design_instances.specs.Ports.{ports_of};
ghost use Rattle.design_parts.specs.Parts.{Passes, part_count};
ghost use Rattle.design_walk.specs.Instances as spec;
ghost use Rattle.design_walk.specs.Kept.{AreOpen, is_set, number_named};
ghost use Rattle.design_walk.specs.Modules.{LeadsTo, module_named};

use circuit::DesignKind;
use design_instances::{PortWire, instance_allowed, ports_of};
use design_parts::{Draft, Refusal, refused_at};
use name_table::Table;
use rtlil_signals::NamedNet;
use rtlil_tree::{Cell, Module};
use sqlite_items::at;
use std::alloc::Global;

/// The module of a cell that is an instance.
#[derive(Drop)]
pub struct InstanceModule<'t> {
    /// Its place in the file.
    pub number: usize,
    /// Its wires.
    pub ports: Table<'t, PortWire>,
}

fn is_set(flags: &[bool], number: usize) -> bool
    ensures { result ≡ is_set flags.now number }
{
    match at(flags, number) {
        Some(flag) => *flag,
        None => false,
    }
}

/// The place of the module of a cell. It is there, and none of those that the cell stands in.
#[tactic(auto, using(crate::proofs::Steps::says_fails))]
fn number_of(
    alloc: Global,
    modules: &[Module],
    places: &Table<usize>,
    open_modules: &[bool],
    owner: &[u8],
    cell: &Cell,
) -> Result<usize, Refusal>
    requires { LeadsTo places.now modules.now }
    ensures passes { (ancestors : List (List ℕ)) → AreOpen open_modules.now modules.now ancestors → Passes (spec.type_checks modules.now ancestors owner.now cell.now) result }
    ensures number { IfOk result (λ n. number_named modules.now cell.now.kind ≡ Some n) }
    ensures below { IfOk result (λ n. n < length modules.now) }
{
    let name = cell.name.as_bytes();
    let Some(number) = places.get(cell.kind.as_bytes()) else {
        return Err(refused_at(alloc, DesignKind::UnknownCell, owner, name));
    };
    if is_set(open_modules, number) {
        return Err(refused_at(alloc, DesignKind::RecursiveModules, owner, name));
    }
    Ok(number)
}

/// Checks a cell of a type that is none of those that are no modules, and answers its module. It is checked in this
/// order: its type is a module of the file; that is none of those that the cell stands in, which are flagged by
/// their places; then as an instance.
pub fn instance_module<'t>(
    alloc: Global,
    modules: &[Module<'t>],
    places: &Table<usize>,
    open_modules: &[bool],
    owner: &[u8],
    around: &Table<NamedNet>,
    cell: &Cell,
    draft: &Draft,
) -> Result<InstanceModule<'t>, Refusal>
    requires { LeadsTo places.now modules.now }
    ensures passes { (ancestors : List (List ℕ)) → AreOpen open_modules.now modules.now ancestors → Passes (spec.instance_checks modules.now ancestors owner.now around.now cell.now draft.now) result }
    ensures number { IfOk result (λ found. number_named modules.now cell.now.kind ≡ Some found.number) }
    ensures is { IfOk result (λ found. slice_get modules.now found.number ≡ module_named modules.now cell.now.kind) }
    ensures below { IfOk result (λ found. found.number < length modules.now) }
    ensures ports { IfOk result (λ found. found.ports ≡ ports_of (spec.statements_in (module_named modules.now cell.now.kind))) }
    ensures room { OnOk result (part_count draft.now < most_parts) }
{
    let number = number_of(alloc, modules, places, open_modules, owner, cell)?;
    let ports = ports_of(alloc, modules[number].statements.as_slice())?;
    instance_allowed(alloc, owner, around, &ports, cell, draft)?;
    Ok(InstanceModule { number, ports })
}
