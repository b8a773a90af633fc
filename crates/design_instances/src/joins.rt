//! What joins an instance to the wires around it.
ghost use Rattle.std.specs.Prelude.{◌≡◌, ◌++◌, OnOk, Some, flat_map};
ghost use Rattle.design_cells.specs.Joined.{seen_port, seen_ports};
ghost use Rattle.rtlil_signals.specs.Signals.{net_pieces};
ghost use Rattle.rtlil_signals.specs.Spans.{pieces_of};
ghost use Rattle.design_instances.specs.Joins as spec;

use crate::port::PortWire;
use circuit::{By, Drive};
use design_cells::{JoinedPort, joined_at, joined_in};
use design_parts::Draft;
use name_table::Table;
use rtlil_signals::{NamedNet, Span};
use rtlil_tree::Connection;
use sim_base::{Bits, NoMemory};
use std::alloc::Global;

fn is_input(port: Option<PortWire>) -> bool
    ensures { result ≡ spec.is_input port }
{
    match port {
        Some(wire) => wire.is_input,
        None => false,
    }
}

/// Appends the drives of an input's net by a signal, or those of a signal by the net of an output.
fn tie(
    alloc: Global,
    input: bool,
    net: NamedNet,
    sig: &[Span],
    draft: &mut Draft,
) -> Result<(), NoMemory>
    ensures { OnOk result (draft.new ≡ (record draft.old { drives = draft.old.drives ++ spec.tied input (net_pieces (Some net)) (pieces_of sig.now) })) }
{
    let whole = [Span::Net {
        net: net.net,
        from: 0,
        to: net.width,
    }];
    let pieces = if net.width == 0 { 0 } else { 1 };
    let net = &whole[..pieces];
    if input {
        draft.connect(alloc, net, sig)
    } else {
        draft.connect(alloc, sig, net)
    }
}

/// Appends the drives at a port.
fn join_port(
    alloc: Global,
    inside: &Table<NamedNet>,
    ports: &Table<PortWire>,
    port: &JoinedPort,
    draft: &mut Draft,
) -> Result<(), NoMemory>
    ensures { OnOk result (draft.new ≡ (record draft.old { drives = draft.old.drives ++ spec.port_drives inside.now ports.now (seen_port port.now) })) }
{
    let name = port.port.as_bytes();
    let Some(net) = inside.get(name) else {
        return Ok(());
    };
    let Some(spans) = &port.spans else {
        return Ok(());
    };
    tie(
        alloc,
        is_input(ports.get(name)),
        net,
        spans.as_slice(),
        draft,
    )
}

fn join_ports(
    alloc: Global,
    inside: &Table<NamedNet>,
    ports: &Table<PortWire>,
    joined: &[JoinedPort],
    draft: &mut Draft,
) -> Result<(), NoMemory>
    ensures { OnOk result (draft.new ≡ (record draft.old { drives = draft.old.drives ++ flat_map (spec.port_drives inside.now ports.now) (seen_ports joined.now) })) }
{
    for port in joined {
        join_port(alloc, inside, ports, port, draft)?;
    }
    Ok(())
}

/// Appends the drive of a net by zeros.
fn drive_zeros(alloc: Global, net: Option<NamedNet>, draft: &mut Draft) -> Result<(), NoMemory>
    ensures { OnOk result (draft.new ≡ (record draft.old { drives = draft.old.drives ++ spec.zero_drives net })) }
{
    let Some(net) = net else {
        return Ok(());
    };
    if net.width == 0 {
        return Ok(());
    }
    draft.push_drive(Drive {
        net: net.net,
        at: 0,
        width: net.width,
        by: By::Const(Bits::zero(alloc, net.width)?),
    })
}

/// Appends the drive of a wire of the module, if it is an input that nothing is joined to.
fn join_missing(
    alloc: Global,
    inside: &Table<NamedNet>,
    joined: &[JoinedPort],
    name: &[u8],
    wire: PortWire,
    draft: &mut Draft,
) -> Result<(), NoMemory>
    ensures { OnOk result (draft.new ≡ (record draft.old { drives = draft.old.drives ++ spec.missing_drives inside.now (seen_ports joined.now) (name.now, wire) })) }
{
    if !wire.is_input || joined_at(joined, name).is_some() {
        return Ok(());
    }
    drive_zeros(alloc, inside.get(name), draft)
}

fn join_others(
    alloc: Global,
    inside: &Table<NamedNet>,
    ports: &Table<PortWire>,
    joined: &[JoinedPort],
    draft: &mut Draft,
) -> Result<(), NoMemory>
    ensures { OnOk result (draft.new ≡ (record draft.old { drives = draft.old.drives ++ flat_map (spec.missing_drives inside.now (seen_ports joined.now)) ports.now })) }
{
    for at in 0..ports.len() {
        let (name, wire) = ports.entry(at);
        join_missing(alloc, inside, joined, name, wire, draft)?;
    }
    Ok(())
}

/// Appends what joins an instance to the wires around it: port by port as they are written, the drives of an
/// input's net by what it is joined to, and those of a signal by the net of an output that it is joined to; then the
/// drives by zeros of the inputs that nothing is joined to. Bits of an output that are joined to a constant are dropped.
#[tactic(auto, unfolding(crate::specs::Joins::joined_drives))]
pub fn join(
    alloc: Global,
    inside: &Table<NamedNet>,
    around: &Table<NamedNet>,
    ports: &Table<PortWire>,
    connections: &[Connection],
    draft: &mut Draft,
) -> Result<(), NoMemory>
    ensures { OnOk result (draft.new ≡ (record draft.old { drives = draft.old.drives ++ spec.join_drives inside.now around.now ports.now connections.now })) }
{
    let joined = joined_in(alloc, around, connections)?;
    join_ports(alloc, inside, ports, joined.as_slice(), draft)?;
    join_others(alloc, inside, ports, joined.as_slice(), draft)
}
