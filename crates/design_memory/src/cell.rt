//! A memory.
ghost use Rattle.std.specs.Prelude.{◌≡◌, ◌+◌, ◌*◌, ◌<◌, ◌≤◌, ◌^◌, IfOk, OnOk, length, option_map, sum_by};
ghost use Rattle.design_parts.specs.Parts.{Runs, both_made};
ghost use Rattle.design_wires.specs.Places.{seen_here, seen_shown};
ghost use Rattle.design_cells.specs.Joined.{seen_ports};
ghost use Rattle.design_memory.specs.Rules.{most_memory_bits, most_rows};
ghost use Rattle.design_memory.specs.Settings as settings;
ghost use Rattle.design_memory.specs.Memories as spec;

use crate::allowed::allowed;
use crate::item::{item_identifier, show};
use crate::ports::{drive_reads, read_ports, write_ports};
use crate::settings::{Shape, Values, shape_of, values_of};
use circuit::Mem;
use design_cells::{JoinedPort, joined_in};
use design_parts::{Draft, Refusal};
use design_wires::{Here, Shown};
use name_table::Table;
use rtlil_signals::{NamedNet, bits_part};
use rtlil_tree::{Attribute, Cell, Connection, Setting};
use sim_base::{Name, NoMemory};
use std::alloc::Global;

fn memory_of(
    alloc: Global,
    shape: &Shape,
    values: &Values,
    ports: &[JoinedPort],
) -> Result<Mem, NoMemory>
    requires offset { shape.now.offset < 2 ^ 32 }
    requires address { shape.now.address_width < 2 ^ 32 }
    requires width { shape.now.width < 2 ^ 32 }
    requires reads { shape.now.reads < 2 ^ 32 }
    requires writes { shape.now.writes < 2 ^ 32 }
    requires rows { shape.now.size ≤ most_rows }
    requires bits { shape.now.size * shape.now.width ≤ most_memory_bits }
    ensures { IfOk result (λ memory. memory ≡ spec.memory_of shape.now values.now (seen_ports ports.now)) }
{
    let bits = (shape.size * shape.width) as u32;
    Ok(Mem {
        width: shape.width as u32,
        size: shape.size as u32,
        offset: shape.offset as u32,
        init: bits_part(alloc, &values.init, 0, bits)?,
        reads: read_ports(alloc, shape, values, ports)?,
        writes: write_ports(alloc, shape, values, ports)?,
    })
}

/// Appends a memory, what its read ports drive and its item.
#[tactic(auto, using(crate::proofs::Steps::made_memory))]
fn push_memory(
    alloc: Global,
    shown: &Option<Shown>,
    identifier: &Option<Name>,
    attributes: &[Attribute],
    shape: &Shape,
    values: &Values,
    ports: &[JoinedPort],
    draft: &mut Draft,
) -> Result<(), NoMemory>
    requires offset { shape.now.offset < 2 ^ 32 }
    requires address { shape.now.address_width < 2 ^ 32 }
    requires width { shape.now.width < 2 ^ 32 }
    requires reads { shape.now.reads < 2 ^ 32 }
    requires writes { shape.now.writes < 2 ^ 32 }
    requires count { length draft.old.mems < 2 ^ 32 }
    requires rows { sum_by (λ m. m.size) draft.old.mems + shape.now.size ≤ most_rows }
    requires bits { sum_by (λ m. m.size * m.width) draft.old.mems + shape.now.size * shape.now.width ≤ most_memory_bits }
    ensures { OnOk result (draft.new ≡ both_made draft.old (spec.memory_made (option_map seen_shown shown.now) identifier.now attributes.now shape.now values.now (seen_ports ports.now) draft.old)) }
{
    let number = draft.memory_count() as u32;
    draft.push_memory(memory_of(alloc, shape, values, ports)?)?;
    drive_reads(alloc, number, shape, ports, draft)?;
    show(alloc, shown, number, identifier, attributes, draft)
}

/// Checks a memory, and appends what it becomes.
fn take_memory(
    alloc: Global,
    here: &Here,
    name: &[u8],
    attributes: &[Attribute],
    settings: &[Setting],
    connections: &[Connection],
    ports: &[JoinedPort],
    draft: &mut Draft,
) -> Result<(), Refusal>
    ensures { Runs (spec.taken (seen_here here.now) name.now attributes.now settings.now connections.now (seen_ports ports.now)) draft.old result draft.new }
{
    let identifier = item_identifier(alloc, settings)?;
    let shape = shape_of(alloc, settings)?;
    let values = values_of(alloc, settings)?;
    allowed(
        alloc,
        here,
        name,
        settings,
        connections,
        ports,
        &identifier,
        &shape,
        &values,
        draft,
    )?;
    push_memory(
        alloc,
        &here.shown,
        &identifier,
        attributes,
        &shape,
        &values,
        ports,
        draft,
    )?;
    Ok(())
}

/// Takes a memory, which is a cell of the type `$mem_v2`. It is checked in this order: each parameter that it needs
/// is given, its widths and its offset are below 2^31, each write port has a clock, no port is wide, and no read port
/// is reset by anything but constant zeros; each port that is joined is one of a memory, and each wire at it is
/// there; each slice is inside, and each port is joined to as many bits as it has; no port and no row has more than
/// 65,536 bits; there are fewer than 1,000,000 cells, registers, memories, diagnostics and instances, with it all
/// memories have at most 67,108,864 rows and as many bits, and the name under which it is shown has at most
/// 4,294,967,295 bytes.
pub fn memory(
    alloc: Global,
    here: &Here,
    scope: &Table<NamedNet>,
    cell: &Cell,
    draft: &mut Draft,
) -> Result<(), Refusal>
    ensures { Runs (spec.memory (seen_here here.now) scope.now cell.now) draft.old result draft.new }
{
    let ports = joined_in(alloc, scope, cell.connections.as_slice())?;
    take_memory(
        alloc,
        here,
        cell.name.as_bytes(),
        cell.attributes.as_slice(),
        cell.settings.as_slice(),
        cell.connections.as_slice(),
        ports.as_slice(),
        draft,
    )
}
