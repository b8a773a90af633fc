//! The checks of an instance of a module.
ghost use Rattle.std.specs.Prelude.{◌≡◌, ◌<◌, OnOk};
ghost use Rattle.design_cells.specs.Joined.{seen_port, seen_ports};
ghost use Rattle.design_cells.specs.Rules.{most_parts};
ghost use Rattle.design_parts.specs.Parts.{Passes, part_count};
ghost use Rattle.design_instances.specs.Instances as spec;
ghost use Rattle.design_instances.specs.Ports.{is_port, is_some_port, port_width};

use crate::port::PortWire;
use circuit::DesignKind;
use design_cells::{JoinedPort, has_room, joined_in};
use design_parts::{Draft, Refusal, refused_at};
use name_table::Table;
use rtlil_signals::{NamedNet, width_of};
use rtlil_tree::Cell;
use std::alloc::Global;

/// The most bits of a port.
const WIDEST: u32 = 65536;

fn is_some_port(port: Option<PortWire>) -> bool
    ensures { result ≡ is_some_port port }
{
    match port {
        Some(wire) => wire.is_input || wire.is_output,
        None => false,
    }
}

fn port_width(port: Option<PortWire>) -> u32
    ensures { result ≡ port_width port }
{
    match port {
        Some(wire) => wire.width,
        None => 0,
    }
}

/// Each port is an input or an output of the module, and each wire at it is there.
fn are_known(ports: &Table<PortWire>, joined: &[JoinedPort]) -> bool
    ensures { result ≡ spec.are_known ports.now (seen_ports joined.now) }
{
    for port in joined {
        if !is_some_port(ports.get(port.port.as_bytes())) || !port.is_named {
            return false;
        }
    }
    true
}

fn has_width(port: &JoinedPort, width: u32) -> bool
    ensures { result ≡ spec.has_width width (seen_port port.now).pieces }
{
    match &port.spans {
        Some(spans) => width_of(spans.as_slice()) == width as u128,
        None => false,
    }
}

/// Each slice is inside, and each port is joined to as many bits as it has.
fn are_fitting(ports: &Table<PortWire>, joined: &[JoinedPort]) -> bool
    ensures { result ≡ spec.are_fitting ports.now (seen_ports joined.now) }
{
    for port in joined {
        let width = port_width(ports.get(port.port.as_bytes()));
        if !has_width(port, width) {
            return false;
        }
    }
    true
}

fn is_narrow(wire: PortWire) -> bool
    ensures { result ≡ spec.is_narrow wire }
{
    !(wire.is_input || wire.is_output) || wire.width <= WIDEST
}

/// No port of the module is too wide, joined or not.
fn are_narrow(ports: &Table<PortWire>) -> bool
    ensures { result ≡ spec.are_narrow ports.now }
{
    for at in 0..ports.len() {
        let (_, wire) = ports.entry(at);
        if !is_narrow(wire) {
            return false;
        }
    }
    true
}

#[tactic(auto, using(crate::proofs::Steps::says_fails), unfolding(crate::specs::Instances::joined_checks))]
fn joined_allowed(
    alloc: Global,
    owner: &[u8],
    ports: &Table<PortWire>,
    cell: &Cell,
    joined: &[JoinedPort],
    draft: &Draft,
) -> Result<(), Refusal>
    ensures passes { Passes (spec.joined_checks owner.now ports.now cell.now (seen_ports joined.now) draft.now) result }
    ensures room { OnOk result (part_count draft.now < most_parts) }
{
    let name = cell.name.as_bytes();
    if !cell.settings.is_empty() {
        return Err(refused_at(alloc, DesignKind::BadParameter, owner, name));
    }
    if !are_known(ports, joined) {
        return Err(refused_at(alloc, DesignKind::UnknownName, owner, name));
    }
    if !are_fitting(ports, joined) {
        return Err(refused_at(alloc, DesignKind::Width, owner, name));
    }
    if !are_narrow(ports) {
        return Err(refused_at(alloc, DesignKind::TooWide, owner, name));
    }
    if !has_room(draft) {
        return Err(refused_at(alloc, DesignKind::TooLarge, owner, name));
    }
    Ok(())
}

/// Checks a cell that is an instance of a module, of which these are the wires. In this order: it has no parameters;
/// each port that is joined is an input or an output of the module, and each wire at it is there; each slice is
/// inside, and each port is joined to as many bits as it has; no port of the module has more than 65,536 bits; there
/// are fewer than 1,000,000 cells, registers, memories, diagnostics and instances.
pub fn instance_allowed(
    alloc: Global,
    owner: &[u8],
    around: &Table<NamedNet>,
    ports: &Table<PortWire>,
    cell: &Cell,
    draft: &Draft,
) -> Result<(), Refusal>
    ensures passes { Passes (spec.instance_checks owner.now around.now ports.now cell.now draft.now) result }
    ensures room { OnOk result (part_count draft.now < most_parts) }
{
    let joined = joined_in(alloc, around, cell.connections.as_slice())?;
    joined_allowed(alloc, owner, ports, cell, joined.as_slice(), draft)
}
