//! A cell of the library.
ghost use Rattle.std.specs.Prelude.{◌≡◌, ◌<◌, ◌^◌, IfOk, None, OnOk, length};
ghost use Rattle.cell_library.specs.Checks as library;
ghost use Rattle.cell_library.specs.Table.{seen};
ghost use Rattle.circuit.specs.Valid.{widest};
ghost use Rattle.circuit.specs.declared.fault.DesignKind.TheVariants as kind;
ghost use Rattle.design_parts.specs.Parts.{Runs, both_made};
ghost use Rattle.design_cells.specs.Joined.{connections_of, seen_ports};
ghost use Rattle.design_cells.specs.Cells as spec;

use crate::allowed::allowed;
use crate::ports::{JoinedPort, connections_of, joined_in, settings_of};
use crate::register::push_register;
use crate::signals::{drive_output, flag, has, signal_at};
use cell_library::{Connection, Gives, Line, Parameter, PortName, Setting, number, port_width};
use circuit::{Cell, Op};
use design_parts::{Draft, Refusal};
use name_table::Table;
use rtlil_signals::{NamedNet, Source};
use rtlil_tree::{Cell as Written, Setting as WrittenSetting};
use sim_base::NoMemory;
use std::alloc::Global;

fn offset(line: &Line, settings: &[Setting]) -> u32
    ensures { result ≡ spec.offset_of (seen line.now) settings.now }
{
    if !has(line, Parameter::Offset) {
        return 0;
    }
    number(settings, Parameter::Offset).min(u32::MAX as u64) as u32
}

fn cell_of(
    alloc: Global,
    op: Op,
    line: &Line,
    settings: &[Setting],
    ports: &[JoinedPort],
) -> Result<Cell, NoMemory>
    requires { library.first_fault (library.limit_checks settings.now widest kind.TooWide line.now.ports.now) ≡ None }
    ensures { IfOk result (λ cell. cell ≡ spec.cell_of op (seen line.now) settings.now (seen_ports ports.now)) }
{
    Ok(Cell {
        op,
        a: signal_at(alloc, line, settings, ports, PortName::A)?,
        b: signal_at(alloc, line, settings, ports, PortName::B)?,
        s: signal_at(alloc, line, settings, ports, PortName::S)?,
        a_signed: flag(line, settings, Parameter::ASigned),
        b_signed: flag(line, settings, Parameter::BSigned),
        width: port_width(settings, line.ports, PortName::Y),
        offset: offset(line, settings),
    })
}

/// Appends a cell without a state and what it drives.
#[tactic(auto, using(crate::proofs::Steps::made_cell))]
fn push_cell(
    alloc: Global,
    op: Op,
    line: &Line,
    settings: &[Setting],
    ports: &[JoinedPort],
    draft: &mut Draft,
) -> Result<(), NoMemory>
    requires room { length draft.old.cells < 2 ^ 32 }
    requires limits { library.first_fault (library.limit_checks settings.now widest kind.TooWide line.now.ports.now) ≡ None }
    ensures { OnOk result (draft.new ≡ both_made draft.old (spec.cell_made op (seen line.now) settings.now (seen_ports ports.now) draft.old)) }
{
    let number = draft.cell_count() as u32;
    draft.push_cell(cell_of(alloc, op, line, settings, ports)?)?;
    drive_output(ports, PortName::Y, Source::Cell(number), draft)
}

/// Appends what a cell becomes.
fn push_made(
    alloc: Global,
    line: &Line,
    written: &[WrittenSetting],
    settings: &[Setting],
    ports: &[JoinedPort],
    draft: &mut Draft,
) -> Result<(), NoMemory>
    requires cells { length draft.old.cells < 2 ^ 32 }
    requires registers { length draft.old.regs < 2 ^ 32 }
    requires limits { library.first_fault (library.limit_checks settings.now widest kind.TooWide line.now.ports.now) ≡ None }
    ensures { OnOk result (draft.new ≡ both_made draft.old (spec.made_by line.now.gives (seen line.now) written.now settings.now (seen_ports ports.now) draft.old)) }
{
    match line.gives {
        Gives::Cell(op) => push_cell(alloc, op, line, settings, ports, draft),
        Gives::Register(kind) => push_register(alloc, kind, line, written, settings, ports, draft),
    }
}

/// Checks a cell, and appends what it becomes.
fn take_cell(
    alloc: Global,
    owner: &[u8],
    name: &[u8],
    line: &Line,
    written: &[WrittenSetting],
    settings: &[Setting],
    ports: &[JoinedPort],
    connections: &[Connection],
    draft: &mut Draft,
) -> Result<(), Refusal>
    requires { connections.now ≡ connections_of (seen_ports ports.now) }
    ensures { Runs (spec.taken owner.now name.now (seen line.now) written.now settings.now (seen_ports ports.now)) draft.old result draft.new }
{
    allowed(
        alloc,
        owner,
        name,
        line,
        settings,
        ports,
        connections,
        draft,
    )?;
    push_made(alloc, line, written, settings, ports, draft)?;
    Ok(())
}

/// Takes a cell whose type has this line. It is checked in this order: each parameter of its type is given a number
/// that it may have, but for the signs, which need not be given, and a `$slice` stays inside its operand; each port
/// that is joined is one of the type, and each wire at it is there; each slice is inside, and each port is joined to
/// as many bits as it has; no port of the type has more than 65,536 bits; none of an arithmetic type more than
/// 128; there are fewer than 1,000,000 cells, registers, memories, diagnostics and instances.
pub fn library_cell(
    alloc: Global,
    owner: &[u8],
    scope: &Table<NamedNet>,
    line: &Line,
    cell: &Written,
    draft: &mut Draft,
) -> Result<(), Refusal>
    ensures { Runs (spec.library_cell owner.now scope.now (seen line.now) cell.now) draft.old result draft.new }
{
    let written = cell.settings.as_slice();
    let settings = settings_of(alloc, written)?;
    let ports = joined_in(alloc, scope, cell.connections.as_slice())?;
    let connections = connections_of(alloc, ports.as_slice())?;
    take_cell(
        alloc,
        owner,
        cell.name.as_bytes(),
        line,
        written,
        settings.as_slice(),
        ports.as_slice(),
        connections.as_slice(),
        draft,
    )
}
