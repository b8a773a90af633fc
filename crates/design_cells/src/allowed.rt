//! The checks of a cell of the library.
ghost use Rattle.std.specs.Prelude.{◌≡◌, ◌<◌, ◌∷◌, ◌^◌, [], None, OnOk, length};
ghost use Rattle.cell_library.specs.Checks as library;
ghost use Rattle.cell_library.specs.Table.{seen};
ghost use Rattle.circuit.specs.Valid.{widest};
ghost use Rattle.circuit.specs.declared.fault.DesignKind.TheVariants as fault;
ghost use Rattle.design_parts.specs.Parts.{Passes};
ghost use Rattle.design_cells.specs.Joined.{connections_of, seen_ports};
ghost use Rattle.design_cells.specs.Rules as spec;

use crate::ports::JoinedPort;
use cell_library::{
    Connection, Line, Port, Setting, WIDEST, WIDEST_ARITHMETIC, limits_pass, parameters_pass,
    port_named, slice_passes, widths_pass,
};
use circuit::DesignKind;
use design_parts::{Draft, Refusal, refused_at};
use std::alloc::Global;

/// The most cells, registers, memories, diagnostics and instances together.
const MOST_PARTS: u64 = 1_000_000;

/// Whether there are fewer cells, registers, memories, diagnostics and instances than a design may have.
pub fn has_room(draft: &Draft) -> bool
    ensures { result ≡ spec.has_room draft.now }
{
    draft.part_count() < MOST_PARTS as u128
}

/// Each port is one of the type, and each wire at it is there.
fn are_known(ports: &[Port], joined: &[JoinedPort]) -> bool
    ensures { result ≡ spec.are_known ports.now (seen_ports joined.now) }
{
    for port in joined {
        if port_named(ports, port.port.as_bytes()).is_none() || !port.is_named {
            return false;
        }
    }
    true
}

/// Each slice is inside.
fn are_inside(joined: &[JoinedPort]) -> bool
    ensures { result ≡ spec.are_inside (seen_ports joined.now) }
{
    for port in joined {
        if port.spans.is_none() {
            return false;
        }
    }
    true
}

fn narrow(line: &Line, settings: &[Setting]) -> Result<(), DesignKind>
    ensures { library.Passes (spec.narrow_checks (seen line.now) settings.now) result }
{
    if !line.arithmetic {
        return Ok(());
    }
    limits_pass(
        settings,
        WIDEST_ARITHMETIC,
        DesignKind::ArithTooWide,
        line.ports,
    )
}

fn holds(holds: bool, kind: DesignKind) -> Result<(), DesignKind>
    ensures { library.Passes (library.check holds kind ∷ []) result }
{
    if holds { Ok(()) } else { Err(kind) }
}

/// The checks of a cell whose type has this line, in their order.
#[tactic(auto, using(crate::proofs::Orders::after), unfolding(crate::specs::Rules::kind_checks))]
fn kind_passes(
    line: &Line,
    settings: &[Setting],
    joined: &[JoinedPort],
    connections: &[Connection],
    room: bool,
) -> Result<(), DesignKind>
    requires { connections.now ≡ connections_of (seen_ports joined.now) }
    ensures { library.Passes (spec.kind_checks (seen line.now) settings.now (seen_ports joined.now) room) result }
{
    parameters_pass(settings, line.parameters)?;
    slice_passes(line.gives, settings)?;
    holds(are_known(line.ports, joined), DesignKind::UnknownName)?;
    holds(are_inside(joined), DesignKind::Width)?;
    widths_pass(settings, line.ports, connections)?;
    limits_pass(settings, WIDEST, DesignKind::TooWide, line.ports)?;
    narrow(line, settings)?;
    holds(room, DesignKind::TooLarge)
}

/// The same, of an item in a module.
pub(crate) fn allowed(
    alloc: Global,
    owner: &[u8],
    item: &[u8],
    line: &Line,
    settings: &[Setting],
    joined: &[JoinedPort],
    connections: &[Connection],
    draft: &Draft,
) -> Result<(), Refusal>
    requires { connections.now ≡ connections_of (seen_ports joined.now) }
    ensures passes { Passes (spec.located owner.now item.now (spec.kind_checks (seen line.now) settings.now (seen_ports joined.now) (spec.has_room draft.now))) result }
    ensures cells { OnOk result (length draft.now.cells < 2 ^ 32) }
    ensures registers { OnOk result (length draft.now.regs < 2 ^ 32) }
    ensures limits { OnOk result (library.first_fault (library.limit_checks settings.now widest fault.TooWide line.now.ports.now) ≡ None) }
{
    match kind_passes(line, settings, joined, connections, has_room(draft)) {
        Ok(()) => Ok(()),
        Err(kind) => Err(refused_at(alloc, kind, owner, item)),
    }
}
