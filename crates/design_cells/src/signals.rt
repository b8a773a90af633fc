//! The signals and flags of a cell.
ghost use Rattle.std.specs.Prelude.{◌≡◌, ◌++◌, IfOk, None, OnOk};
ghost use Rattle.cell_library.specs.Checks as library;
ghost use Rattle.cell_library.specs.Names.{port_name};
ghost use Rattle.cell_library.specs.Table.{seen};
ghost use Rattle.circuit.specs.Valid.{widest};
ghost use Rattle.circuit.specs.declared.fault.DesignKind.TheVariants as kind;
ghost use Rattle.circuit.specs.declared.netlist.Piece.TheVariants as piece;
ghost use Rattle.rtlil_signals.specs.Drives.{by_at, driven_from};
ghost use Rattle.rtlil_signals.specs.Signals.{whole};
ghost use Rattle.sim_base.specs.BitValue.{zeros};
ghost use Rattle.design_cells.specs.Joined.{joined_at, pieces_in, seen_port, seen_ports};
ghost use Rattle.design_wires.specs.Connects.{or_none};
ghost use Rattle.design_cells.specs.Cells as spec;

use crate::ports::{JoinedPort, joined_at};
use cell_library::{Line, Parameter, PortName, Setting, number, port_width};
use circuit::Piece;
use design_parts::Draft;
use rtlil_signals::{Source, sig_of, width_of};
use sim_base::{Bits, NoMemory};
use sqlite_items::Items;
use std::alloc::Global;

/// Whether the type has a parameter.
pub(crate) fn has(line: &Line, parameter: Parameter) -> bool
    ensures { result ≡ spec.has (seen line.now) parameter }
{
    for other in line.parameters {
        if parameter.name() == other.name() {
            return true;
        }
    }
    false
}

/// A parameter of the type, as a flag.
pub(crate) fn flag(line: &Line, settings: &[Setting], parameter: Parameter) -> bool
    ensures { result ≡ spec.flag (seen line.now) settings.now parameter }
{
    has(line, parameter) && number(settings, parameter) != 0
}

/// Zeros as a signal.
#[tactic(auto, using(crate::proofs::Words::zero_piece))]
pub fn zero_signal(alloc: Global, width: u32) -> Result<Items<Piece>, NoMemory>
    ensures { IfOk result (λ sig. sig ≡ whole (piece.Const (zeros width))) }
{
    if width == 0 {
        return Ok(Items::new(alloc));
    }
    let mut sig = Items::new(alloc);
    sig.push(Piece::Const(Bits::zero(alloc, width)?))?;
    Ok(sig)
}

/// The signal that a port is joined to.
fn joined_signal(alloc: Global, port: &JoinedPort) -> Result<Items<Piece>, NoMemory>
    ensures { IfOk result (λ sig. sig ≡ or_none (seen_port port.now).pieces) }
{
    match &port.spans {
        Some(spans) => sig_of(alloc, spans.as_slice()),
        None => Ok(Items::new(alloc)),
    }
}

/// The signal at a port of the type; where nothing is joined, zeros of its width.
pub(crate) fn signal_at(
    alloc: Global,
    line: &Line,
    settings: &[Setting],
    ports: &[JoinedPort],
    name: PortName,
) -> Result<Items<Piece>, NoMemory>
    requires { library.first_fault (library.limit_checks settings.now widest kind.TooWide line.now.ports.now) ≡ None }
    ensures { IfOk result (λ sig. sig ≡ spec.signal_at (seen line.now) settings.now (seen_ports ports.now) name) }
{
    match joined_at(ports, name.name()) {
        Some(port) => joined_signal(alloc, port),
        None => zero_signal(alloc, port_width(settings, line.ports, name)),
    }
}

/// Drives what an output is joined to. Of 2^32 bits and more there is no memory for the drives.
pub(crate) fn drive_output(
    ports: &[JoinedPort],
    name: PortName,
    source: Source,
    draft: &mut Draft,
) -> Result<(), NoMemory>
    ensures { OnOk result (draft.new ≡ (record draft.old { drives = draft.old.drives ++ driven_from (by_at source) 0 (pieces_in (joined_at (seen_ports ports.now) (port_name name))) })) }
{
    let Some(port) = joined_at(ports, name.name()) else {
        return Ok(());
    };
    let Some(spans) = &port.spans else {
        return Ok(());
    };
    if width_of(spans.as_slice()) > u32::MAX as u128 {
        return Err(NoMemory);
    }
    draft.drive(spans.as_slice(), source)
}
