//! The scopes of instances.
ghost use Rattle.std.specs.Prelude.{◌≡◌, ◌+◌, ◌<◌, ◌^◌, ◌++◌, [], IfOk, None, OnOk, option_map};
ghost use Rattle.design_parts.specs.Parts.{Runs};
ghost use Rattle.design_wires.specs.Places.{seen_here, seen_shown};
ghost use Rattle.design_walk.specs.Instances as spec;

use circuit::Scope;
use design_parts::{Draft, Refusal};
use design_wires::{Here, Shown, is_public, shown_name, source_text};
use rtlil_tree::{Cell, Module};
use sim_base::{Name, NoMemory};
use std::alloc::Global;

/// An identifier without the `\` with which it begins.
fn bare_name(name: &[u8]) -> &[u8]
    ensures { result.now ≡ spec.bare_name name.now }
{
    if is_public(name) { &name[1..] } else { name }
}

fn scope_of_instance(
    alloc: Global,
    name: Name,
    unit: &Module,
    cell_src: Option<Name>,
) -> Result<Scope, NoMemory>
    ensures { IfOk result (λ scope. scope ≡ spec.scope_of_instance name unit.now cell_src) }
{
    let module = Name::copy_of(alloc, bare_name(unit.name.as_bytes()))?;
    let module_src = source_text(alloc, unit.attributes.as_slice())?;
    Ok(Scope {
        name,
        module,
        module_src,
        cell_src,
    })
}

/// Appends the scope of a module that is a cell, if it is shown.
fn show(
    alloc: Global,
    around: &Option<Shown>,
    unit: &Module,
    cell: &Cell,
    draft: &mut Draft,
) -> Result<(), NoMemory>
    ensures { OnOk result (draft.new ≡ (record draft.old { scopes = draft.old.scopes ++ spec.scopes_within (option_map seen_shown around.now) unit.now cell.now })) }
{
    let Some(around) = around else {
        return Ok(());
    };
    if !is_public(cell.name.as_bytes()) {
        return Ok(());
    }
    let name = shown_name(alloc, around, cell.name.as_bytes())?;
    let src = source_text(alloc, cell.attributes.as_slice())?;
    draft.push_scope(scope_of_instance(alloc, name, unit, src)?)
}

/// Appends the scope of a module that is a cell, if it is shown, and counts the instance.
pub(crate) fn enter(
    alloc: Global,
    around: &Here,
    unit: &Module,
    cell: &Cell,
    draft: &mut Draft,
) -> Result<(), Refusal>
    requires { draft.old.instances + 1 < 2 ^ 64 }
    ensures { Runs (spec.entered (seen_here around.now) unit.now cell.now) draft.old result draft.new }
{
    show(alloc, &around.shown, unit, cell, draft)?;
    draft.add_instance();
    Ok(())
}

/// Appends the scope of the top.
pub(crate) fn enter_top(alloc: Global, unit: &Module, draft: &mut Draft) -> Result<(), Refusal>
    ensures { Runs (spec.top_entered unit.now) draft.old result draft.new }
{
    let name = Name::new(Vec::new(alloc));
    draft.push_scope(scope_of_instance(alloc, name, unit, None)?)?;
    Ok(())
}
