//! The read and write ports of a memory.
ghost use Rattle.std.specs.Prelude.{◌≡◌, ◌+◌, ◌*◌, ◌<◌, ◌^◌, ◌++◌, IfOk, OnOk, flat_map, map};
ghost use Rattle.std.specs.List.{range_with_len};
ghost use Rattle.circuit.specs.Signal.{sig_part};
ghost use Rattle.rtlil_signals.specs.Spans.{pieces_of};
ghost use Rattle.design_wires.specs.Connects.{or_none};
ghost use Rattle.design_cells.specs.Joined.{joined_at, pieces_in, seen_port, seen_ports};
ghost use Rattle.design_memory.specs.Names.{port_name};
ghost use Rattle.design_memory.specs.Settings.{is_set};
ghost use Rattle.design_memory.specs.Memories as spec;

use crate::names::Port;
use crate::settings::{Shape, Values, is_set};
use circuit::{Piece, ReadPort, WritePort};
use design_cells::{JoinedPort, joined_at, zero_signal};
use design_parts::Draft;
use rtlil_signals::{Source, Span, bits_part, part_of, sig_of, width_of};
use sim_base::{Bits, NoMemory};
use sqlite_items::Items;
use std::alloc::Global;

/// Bits of what a port is joined to, which are none where it is not joined.
#[tactic(auto, using(crate::proofs::Steps::no_part))]
fn joined_part<'a, 't>(
    alloc: Global,
    ports: &[JoinedPort<'a, 't>],
    port: Port,
    at: u64,
    width: u32,
) -> Result<Items<Span<'a, 't>>, NoMemory>
    ensures { IfOk result (λ part. pieces_of part ≡ sig_part at width (pieces_in (joined_at (seen_ports ports.now) (port_name port)))) }
{
    match joined_at(ports, port.name()) {
        Some(joined) => spans_part(alloc, joined, at, width),
        None => Ok(Items::new(alloc)),
    }
}

/// Bits of the signal at a port; where nothing is joined, zeros.
fn part_at(
    alloc: Global,
    ports: &[JoinedPort],
    port: Port,
    at: u64,
    width: u32,
) -> Result<Items<Piece>, NoMemory>
    ensures { IfOk result (λ sig. sig ≡ spec.part_at (seen_ports ports.now) port at width) }
{
    match joined_at(ports, port.name()) {
        Some(joined) => {
            let part = spans_part(alloc, joined, at, width)?;
            sig_of(alloc, part.as_slice())
        }
        None => zero_signal(alloc, width),
    }
}

/// Bits of what a port is joined to.
#[tactic(auto, using(crate::proofs::Steps::no_part))]
fn spans_part<'a, 't>(
    alloc: Global,
    joined: &JoinedPort<'a, 't>,
    at: u64,
    width: u32,
) -> Result<Items<Span<'a, 't>>, NoMemory>
    ensures { IfOk result (λ part. pieces_of part ≡ sig_part at width (or_none (seen_port joined.now).pieces)) }
{
    match &joined.spans {
        Some(spans) => part_of(alloc, spans.as_slice(), at as u128, width as u128),
        None => Ok(Items::new(alloc)),
    }
}

/// The write ports that a read port sees.
#[tactic(auto, using(crate::proofs::Lists::map_more))]
fn seen_writes(alloc: Global, sees: &Bits, port: u32, writes: u32) -> Result<Items<bool>, NoMemory>
    ensures { IfOk result (λ see. see ≡ map (λ j. is_set sees.now (port * writes + j)) (range_with_len 0 writes)) }
{
    let mut see = Items::new(alloc);
    for write in 0..writes {
        see.push(is_set(sees, port as u64 * writes as u64 + write as u64))?;
    }
    Ok(see)
}

#[tactic(auto, unfolding(crate::specs::Memories::read_port))]
fn read_port(
    alloc: Global,
    shape: &Shape,
    values: &Values,
    ports: &[JoinedPort],
    port: u32,
) -> Result<ReadPort, NoMemory>
    requires address { shape.now.address_width < 2 ^ 32 }
    requires width { shape.now.width < 2 ^ 32 }
    requires writes { shape.now.writes < 2 ^ 32 }
    ensures { IfOk result (λ read. read ≡ spec.read_port shape.now values.now (seen_ports ports.now) port) }
{
    let number = port as u64;
    let width = shape.width as u32;
    let address_width = shape.address_width as u32;
    Ok(ReadPort {
        clocked: is_set(&values.clocked_reads, number),
        rising: is_set(&values.rising_reads, number),
        clk: part_at(alloc, ports, Port::ReadClock, number, 1)?,
        en: part_at(alloc, ports, Port::ReadEnable, number, 1)?,
        addr: part_at(
            alloc,
            ports,
            Port::ReadAddress,
            number * shape.address_width,
            address_width,
        )?,
        see: seen_writes(alloc, &values.sees, port, shape.writes as u32)?,
        init: bits_part(alloc, &values.starts, number * shape.width, width)?,
    })
}

#[tactic(auto, unfolding(crate::specs::Memories::write_port))]
fn write_port(
    alloc: Global,
    shape: &Shape,
    values: &Values,
    ports: &[JoinedPort],
    port: u32,
) -> Result<WritePort, NoMemory>
    requires address { shape.now.address_width < 2 ^ 32 }
    requires width { shape.now.width < 2 ^ 32 }
    ensures { IfOk result (λ write. write ≡ spec.write_port shape.now values.now (seen_ports ports.now) port) }
{
    let number = port as u64;
    let width = shape.width as u32;
    let address_width = shape.address_width as u32;
    Ok(WritePort {
        rising: is_set(&values.rising_writes, number),
        clk: part_at(alloc, ports, Port::WriteClock, number, 1)?,
        en: part_at(alloc, ports, Port::WriteEnable, number * shape.width, width)?,
        addr: part_at(
            alloc,
            ports,
            Port::WriteAddress,
            number * shape.address_width,
            address_width,
        )?,
        word: part_at(alloc, ports, Port::WriteData, number * shape.width, width)?,
    })
}

#[tactic(auto, using(crate::proofs::Lists::map_more))]
pub(crate) fn read_ports(
    alloc: Global,
    shape: &Shape,
    values: &Values,
    ports: &[JoinedPort],
) -> Result<Items<ReadPort>, NoMemory>
    requires address { shape.now.address_width < 2 ^ 32 }
    requires width { shape.now.width < 2 ^ 32 }
    requires reads { shape.now.reads < 2 ^ 32 }
    requires writes { shape.now.writes < 2 ^ 32 }
    ensures { IfOk result (λ reads. reads ≡ map (spec.read_port shape.now values.now (seen_ports ports.now)) (range_with_len 0 shape.now.reads)) }
{
    let mut reads = Items::new(alloc);
    for port in 0..shape.reads as u32 {
        reads.push(read_port(alloc, shape, values, ports, port)?)?;
    }
    Ok(reads)
}

#[tactic(auto, using(crate::proofs::Lists::map_more))]
pub(crate) fn write_ports(
    alloc: Global,
    shape: &Shape,
    values: &Values,
    ports: &[JoinedPort],
) -> Result<Items<WritePort>, NoMemory>
    requires address { shape.now.address_width < 2 ^ 32 }
    requires width { shape.now.width < 2 ^ 32 }
    requires writes { shape.now.writes < 2 ^ 32 }
    ensures { IfOk result (λ writes. writes ≡ map (spec.write_port shape.now values.now (seen_ports ports.now)) (range_with_len 0 shape.now.writes)) }
{
    let mut writes = Items::new(alloc);
    for port in 0..shape.writes as u32 {
        writes.push(write_port(alloc, shape, values, ports, port)?)?;
    }
    Ok(writes)
}

// ---- what read ports drive

/// Drives the bits of a read port. Of 2^32 bits and more there is no memory for the drives.
#[tactic(auto, unfolding(crate::specs::Memories::read_drives))]
fn drive_read(
    alloc: Global,
    memory: u32,
    shape: &Shape,
    ports: &[JoinedPort],
    port: u32,
    draft: &mut Draft,
) -> Result<(), NoMemory>
    requires width { shape.now.width < 2 ^ 32 }
    ensures { OnOk result (draft.new ≡ (record draft.old { drives = draft.old.drives ++ spec.read_drives memory shape.now (seen_ports ports.now) port })) }
{
    let at = port as u64 * shape.width;
    let part = joined_part(alloc, ports, Port::ReadData, at, shape.width as u32)?;
    if width_of(part.as_slice()) > u32::MAX as u128 {
        return Err(NoMemory);
    }
    draft.drive(part.as_slice(), Source::Read(memory, port))
}

/// Drives the bits of all read ports.
#[tactic(auto, using(crate::proofs::Lists::flat_more))]
pub(crate) fn drive_reads(
    alloc: Global,
    memory: u32,
    shape: &Shape,
    ports: &[JoinedPort],
    draft: &mut Draft,
) -> Result<(), NoMemory>
    requires width { shape.now.width < 2 ^ 32 }
    requires reads { shape.now.reads < 2 ^ 32 }
    ensures { OnOk result (draft.new ≡ (record draft.old { drives = draft.old.drives ++ spec.drives_of memory shape.now (seen_ports ports.now) shape.now.reads })) }
{
    for port in 0..shape.reads as u32 {
        drive_read(alloc, memory, shape, ports, port, draft)?;
    }
    Ok(())
}
