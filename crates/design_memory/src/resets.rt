//! The resets of read ports, which stay zero.
ghost use Rattle.std.specs.Prelude.{◌≡◌, IfOk};
ghost use Rattle.std.specs.List.{list_all};
ghost use Rattle.design_memory.specs.Rules as spec;

use crate::names::Port;
use circuit::Piece;
use design_cells::capped;
use name_table::Table;
use rtlil_signals::{NamedNet, is_named, sig_of, spans_of};
use rtlil_tree::{Connection, Sig};
use sim_base::NoMemory;
use std::alloc::Global;

fn is_zero_piece(piece: &Piece) -> bool
    ensures { result ≡ spec.is_zero_piece piece.now }
{
    match piece {
        Piece::Const(value) => capped(value) == 0,
        Piece::Part {
            net: _,
            at: _,
            width: _,
        } => false,
    }
}

fn are_zero(pieces: &[Piece]) -> bool
    ensures { result ≡ list_all spec.is_zero_piece pieces.now }
{
    for piece in pieces {
        if !is_zero_piece(piece) {
            return false;
        }
    }
    true
}

/// A signal names no wire and has no bit 1.
fn is_zero(alloc: Global, sig: &Sig) -> Result<bool, NoMemory>
    ensures { IfOk result (λ zero. zero ≡ spec.is_zero sig.now) }
{
    let wires: Table<NamedNet> = Table::new(alloc);
    if !is_named(&wires, sig) {
        return Ok(false);
    }
    let Some(spans) = spans_of(alloc, &wires, sig)? else {
        return Ok(true);
    };
    let pieces = sig_of(alloc, spans.as_slice())?;
    Ok(are_zero(pieces.as_slice()))
}

fn is_reset(name: &[u8]) -> bool
    ensures { result ≡ spec.is_reset name.now }
{
    name == Port::ReadArst.name() || name == Port::ReadSrst.name()
}

fn stays_zero(alloc: Global, connection: &Connection) -> Result<bool, NoMemory>
    ensures { IfOk result (λ zero. zero ≡ spec.stays_zero connection.now) }
{
    if !is_reset(connection.port.as_bytes()) {
        return Ok(true);
    }
    is_zero(alloc, &connection.sig)
}

/// No read port is reset.
pub(crate) fn stay_zero(alloc: Global, connections: &[Connection]) -> Result<bool, NoMemory>
    ensures { IfOk result (λ zero. zero ≡ list_all spec.stays_zero connections.now) }
{
    for connection in connections {
        if !stays_zero(alloc, connection)? {
            return Ok(false);
        }
    }
    Ok(true)
}
