//! What the ports of cells are joined to, and the numbers of their parameters.
ghost use Rattle.std.specs.Prelude.{◌≡◌, ◌==◌, ◌<◌, ◌≤◌, ◌^◌, length, find, position, Some, None, IfOk, Err};
ghost use Rattle.std.specs.Option.{option_copied};
ghost use Rattle.flat_design.specs.Names.{same_name};
ghost use Rattle.flat_design.specs.Ports.{place_of, wire_piece, digits_piece, piece_of, joined, is_number, has_parameter, joined_with_width};
ghost use Rattle.circuit.specs.Signal.{piece_width};

use crate::names::is_named;
use crate::wires::is_word_width;
use circuit::Piece;
use flat_text::{Cell, Connection, Constant, FlatFault, Operand, Parameter, Wire};
use sim_base::{Bits, Name};
use std::alloc::Global;

/// In bits.
pub fn piece_width(piece: &Piece) -> u32
    ensures { result ≡ piece_width piece.now }
{
    match piece {
        Piece::Const(value) => value.width(),
        Piece::Part { width, .. } => *width,
    }
}

fn place_of(wires: &[Wire], name: &Name) -> Option<usize>
    ensures { result ≡ place_of wires.now name.now }
{
    wires.iter().position(|w| w.name == *name)
}

/// The piece that an operand is: a whole wire, or digits of 1 to 64 bits.
pub fn piece_of(alloc: Global, wires: &[Wire], operand: &Operand) -> Result<Piece, FlatFault>
    requires few { length wires.now ≤ 2 ^ 32 }
    ensures ok { IfOk result (λ p. piece_of wires.now operand.now ≡ Some p) }
    ensures not_built { result ≡ Err FlatFault.NotBuilt → piece_of wires.now operand.now ≡ None }
{
    match operand {
        Operand::Wire(name) => wire_piece(wires, name),
        Operand::Digits(digits) => digits_piece(alloc, digits),
    }
}

#[tactic(auto, unfolding(crate::specs::Ports::wire_piece))]
fn wire_piece(wires: &[Wire], name: &Name) -> Result<Piece, FlatFault>
    requires few { length wires.now ≤ 2 ^ 32 }
    ensures ok { IfOk result (λ p. wire_piece wires.now name.now ≡ Some p) }
    ensures not_built { result ≡ Err FlatFault.NotBuilt → wire_piece wires.now name.now ≡ None }
{
    match place_of(wires, name) {
        None => Err(FlatFault::NotBuilt),
        Some(net) => Ok(Piece::Part {
            net: net as u32,
            at: 0,
            width: wires[net].width,
        }),
    }
}

fn digits_piece(alloc: Global, digits: &Bits) -> Result<Piece, FlatFault>
    ensures ok { IfOk result (λ p. digits_piece digits.now ≡ Some p) }
    ensures not_built { result ≡ Err FlatFault.NotBuilt → digits_piece digits.now ≡ None }
{
    if !is_word_width(digits.width()) {
        return Err(FlatFault::NotBuilt);
    }
    Ok(Piece::Const(digits.try_clone(alloc)?))
}

fn connection_at<'a>(connections: &'a [Connection], port: &[u8]) -> Option<&'a Connection>
    ensures { option_copied result ≡ find (λ c. same_name c.port port.now) connections.now }
{
    connections.iter().find(|c| is_named(&c.port, port))
}

/// What a port is joined to.
#[tactic(auto, unfolding(crate::specs::Ports::joined))]
pub fn joined(
    alloc: Global,
    wires: &[Wire],
    connections: &[Connection],
    port: &[u8],
) -> Result<Piece, FlatFault>
    requires few { length wires.now ≤ 2 ^ 32 }
    ensures ok { IfOk result (λ p. joined wires.now connections.now port.now ≡ Some p) }
    ensures not_built { result ≡ Err FlatFault.NotBuilt → joined wires.now connections.now port.now ≡ None }
{
    match connection_at(connections, port) {
        None => Err(FlatFault::NotBuilt),
        Some(connection) => piece_of(alloc, wires, &connection.to),
    }
}

fn parameter_at<'a>(parameters: &'a [Parameter], name: &[u8]) -> Option<&'a Parameter>
    ensures { option_copied result ≡ find (λ p. same_name p.name name.now) parameters.now }
{
    parameters.iter().find(|p| is_named(&p.name, name))
}

/// Whether a parameter's value is this number.
pub fn is_number(number: u32, value: &Constant) -> bool
    ensures { result ≡ is_number number value.now }
{
    match value {
        Constant::Number(n) => *n == number,
        Constant::Digits(digits) => has_number(digits, number),
        Constant::Text(_) => false,
    }
}

fn has_number(digits: &Bits, number: u32) -> bool
    ensures { result ≡ (digits.now.number == number) }
{
    let width = digits.width();
    let low = width.min(64);
    if digits.field(0, low) != number as u64 {
        return false;
    }
    let mut at = low;
    while at < width {
        let part = (width - at).min(64);
        if digits.field(at, part) != 0 {
            return false;
        }
        at += part;
    }
    true
}

/// Whether the parameter stands there and is this number.
#[tactic(auto, unfolding(crate::specs::Ports::has_parameter))]
pub fn has_parameter(parameters: &[Parameter], name: &[u8], number: u32) -> bool
    ensures { result ≡ has_parameter parameters.now name.now number }
{
    match parameter_at(parameters, name) {
        None => false,
        Some(parameter) => is_number(number, &parameter.value),
    }
}

/// What a port is joined to, where the parameter is its width.
#[tactic(auto, unfolding(crate::specs::Ports::joined_with_width))]
pub fn joined_with_width(
    alloc: Global,
    wires: &[Wire],
    cell: &Cell,
    port: &[u8],
    parameter: &[u8],
) -> Result<Piece, FlatFault>
    requires few { length wires.now ≤ 2 ^ 32 }
    ensures ok { IfOk result (λ p. joined_with_width wires.now cell.now port.now parameter.now ≡ Some p) }
    ensures not_built { result ≡ Err FlatFault.NotBuilt → joined_with_width wires.now cell.now port.now parameter.now ≡ None }
{
    let piece = joined(alloc, wires, cell.connections.as_slice(), port)?;
    if !has_parameter(cell.parameters.as_slice(), parameter, piece_width(&piece)) {
        return Err(FlatFault::NotBuilt);
    }
    Ok(piece)
}
