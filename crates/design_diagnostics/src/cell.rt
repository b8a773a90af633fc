//! A cell that drives nothing.
ghost use Rattle.std.specs.Prelude.{◌≡◌, ◌<◌, ◌^◌, IfOk, OnOk, true};
ghost use Rattle.design_parts.specs.Parts.{Runs, both_made};
ghost use Rattle.design_wires.specs.Places.{seen_here};
ghost use Rattle.design_cells.specs.Joined.{seen_ports};
ghost use Rattle.design_diagnostics.specs.Readings as readings;
ghost use Rattle.design_diagnostics.specs.declared.names.Parameter.TheVariants as parameter;
ghost use Rattle.design_diagnostics.specs.Diagnostics as spec;

use crate::allowed::allowed;
use crate::names::{Parameter, Port, SilentType};
use crate::reading::{Reading, cell_text, number_at, reading_of};
use crate::signals::{signal_at, trigger_if};
use circuit::Diag;
use design_cells::{JoinedPort, joined_in};
use design_parts::{Draft, Refusal};
use design_wires::{Here, source_text};
use name_table::Table;
use rtlil_signals::NamedNet;
use rtlil_tree::{Attribute, Cell, Setting};
use sim_base::{Name, NoMemory};
use std::alloc::Global;

fn diagnostic_of(
    alloc: Global,
    reading: &Reading,
    text: Name,
    attributes: &[Attribute],
    settings: &[Setting],
    ports: &[JoinedPort],
    width: u64,
) -> Result<Diag, NoMemory>
    requires width { width ≡ readings.number_at settings.now parameter.TriggerWidth }
    requires narrow { reading.now.has_trigger ≡ true → width < 2 ^ 32 }
    ensures { IfOk result (λ diagnostic. diagnostic ≡ spec.diagnostic_of reading.now text attributes.now settings.now (seen_ports ports.now)) }
{
    Ok(Diag {
        kind: reading.kind,
        text,
        src: source_text(alloc, attributes)?,
        a: signal_at(alloc, ports, Port::Value, 1)?,
        en: signal_at(alloc, ports, Port::Enable, 1)?,
        trigger: trigger_if(alloc, reading, settings, ports, width)?,
    })
}

/// Appends a diagnostic, where the cell is one.
#[tactic(auto, using(crate::proofs::Steps::made_diagnostic, crate::proofs::Steps::made_nothing))]
fn push_diagnostic(
    alloc: Global,
    reading: Option<Reading>,
    text: Name,
    attributes: &[Attribute],
    settings: &[Setting],
    ports: &[JoinedPort],
    width: u64,
    draft: &mut Draft,
) -> Result<(), NoMemory>
    requires width { width ≡ readings.number_at settings.now parameter.TriggerWidth }
    requires narrow { readings.has_trigger reading ≡ true → width < 2 ^ 32 }
    ensures { OnOk result (draft.new ≡ both_made draft.old (spec.silent_made reading text attributes.now settings.now (seen_ports ports.now))) }
{
    let Some(reading) = reading else {
        return Ok(());
    };
    draft.push_diagnostic(diagnostic_of(alloc, &reading, text, attributes, settings, ports, width)?)
}

/// Checks a cell, and appends what it becomes.
fn take_cell(
    alloc: Global,
    here: &Here,
    name: &[u8],
    attributes: &[Attribute],
    reading: Option<Reading>,
    settings: &[Setting],
    ports: &[JoinedPort],
    draft: &mut Draft,
) -> Result<(), Refusal>
    ensures { Runs (spec.taken (seen_here here.now) name.now attributes.now reading settings.now (seen_ports ports.now)) draft.old result draft.new }
{
    let text = cell_text(alloc, here, name)?;
    let width = number_at(alloc, settings, Parameter::TriggerWidth)?;
    allowed(
        alloc, here, name, reading, settings, ports, width, &text, draft,
    )?;
    push_diagnostic(
        alloc, reading, text, attributes, settings, ports, width, draft,
    )?;
    Ok(())
}

/// Takes a cell of a type that drives nothing. It is checked in this order: what triggers it is given, and is less
/// than 2^31 bits wide; each wire at its ports is there; each slice is inside, and each port that is not ignored is
/// joined to as many bits as it has; no port has more than 65,536 bits; and if it is a diagnostic, there are fewer
/// than 1,000,000 cells, registers, memories, diagnostics and instances, and its text has at most 4,294,967,295
/// bytes.
pub fn silent_cell(
    alloc: Global,
    here: &Here,
    scope: &Table<NamedNet>,
    silent: SilentType,
    cell: &Cell,
    draft: &mut Draft,
) -> Result<(), Refusal>
    ensures { Runs (spec.silent_cell (seen_here here.now) scope.now silent cell.now) draft.old result draft.new }
{
    let settings = cell.settings.as_slice();
    let reading = reading_of(alloc, silent, settings)?;
    let ports = joined_in(alloc, scope, cell.connections.as_slice())?;
    take_cell(
        alloc,
        here,
        cell.name.as_bytes(),
        cell.attributes.as_slice(),
        reading,
        settings,
        ports.as_slice(),
        draft,
    )
}
