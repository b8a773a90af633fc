//! What drives the inputs of the top.
ghost use Rattle.std.specs.Prelude.{◌≡◌, ◌++◌, ◌∷◌, [], OnOk, length};
ghost use Rattle.sim_base.specs.BitValue.{zeros};
ghost use Rattle.circuit.specs.declared.netlist.By.TheVariants as by;
ghost use Rattle.design_parts.specs.Parts.{Runs, both_made};
ghost use Rattle.design_top.specs.Inputs as spec;

use circuit::{By, Drive};
use design_parts::{Draft, Refusal};
use design_wires::is_public;
use name_table::Table;
use rtlil_signals::NamedNet;
use rtlil_tree::{Statement, Wire};
use sim_base::{Bits, NoMemory};
use std::alloc::Global;

fn drive_whole(net: NamedNet, by: By, draft: &mut Draft) -> Result<(), NoMemory>
    ensures { OnOk result (draft.new ≡ (record draft.old { drives = draft.old.drives ++ spec.whole_driven net by })) }
{
    if net.width == 0 {
        return Ok(());
    }
    draft.push_drive(Drive {
        net: net.net,
        at: 0,
        width: net.width,
        by,
    })
}

/// Appends an input. Of more than 2^32 of them there is no memory for it.
fn take_public(net: NamedNet, draft: &mut Draft) -> Result<(), NoMemory>
    ensures { OnOk result (draft.new ≡ (record draft.old { drives = draft.old.drives ++ spec.whole_driven net (by.Input (length draft.old.inputs) 0); inputs = draft.old.inputs ++ net.net ∷ [] })) }
{
    let number = draft.input_count();
    if number > u32::MAX as usize {
        return Err(NoMemory);
    }
    drive_whole(net, By::Input(number as u32, 0), draft)?;
    draft.push_input(net.net)
}

fn take_private(alloc: Global, net: NamedNet, draft: &mut Draft) -> Result<(), NoMemory>
    ensures { OnOk result (draft.new ≡ (record draft.old { drives = draft.old.drives ++ spec.whole_driven net (by.Const (zeros net.width)) })) }
{
    let zeros = Bits::zero(alloc, net.width)?;
    drive_whole(net, By::Const(zeros), draft)
}

#[tactic(auto, using(crate::proofs::Steps::made_public, crate::proofs::Steps::made_private))]
fn take_input(alloc: Global, net: NamedNet, wire: &Wire, draft: &mut Draft) -> Result<(), NoMemory>
    ensures { OnOk result (draft.new ≡ both_made draft.old (spec.input_made net wire.now draft.old)) }
{
    if is_public(wire.name.as_bytes()) {
        take_public(net, draft)
    } else {
        take_private(alloc, net, draft)
    }
}

#[tactic(auto, using(crate::proofs::Parts::give_ok, crate::proofs::Parts::nothing_ok))]
fn take_wire(
    alloc: Global,
    scope: &Table<NamedNet>,
    wire: &Wire,
    draft: &mut Draft,
) -> Result<(), Refusal>
    ensures { Runs (spec.wire_input scope.now wire.now) draft.old result draft.new }
{
    let Some(net) = scope.get(wire.name.as_bytes()) else {
        return Ok(());
    };
    if wire.options.input.is_none() {
        return Ok(());
    }
    take_input(alloc, net, wire, draft)?;
    Ok(())
}

#[tactic(auto, using(crate::proofs::Parts::nothing_ok))]
fn take_statement(
    alloc: Global,
    scope: &Table<NamedNet>,
    statement: &Statement,
    draft: &mut Draft,
) -> Result<(), Refusal>
    ensures { Runs (spec.input_in scope.now statement.now) draft.old result draft.new }
{
    match statement {
        Statement::Wire(wire) => take_wire(alloc, scope, wire, draft),
        Statement::Parameter(_)
        | Statement::Memory(_)
        | Statement::Cell(_)
        | Statement::Connect(_)
        | Statement::Process(_) => Ok(()),
    }
}

/// Drives the input wires of the top, of which these are the nets, in the order of the file: a public one is the
/// next input, another one reads 0.
pub fn drive_inputs(
    alloc: Global,
    scope: &Table<NamedNet>,
    statements: &[Statement],
    draft: &mut Draft,
) -> Result<(), Refusal>
    ensures { Runs (spec.inputs scope.now statements.now) draft.old result draft.new }
{
    for statement in statements {
        take_statement(alloc, scope, statement, draft)?;
    }
    Ok(())
}
