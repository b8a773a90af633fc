//! Cells: what each adds to a circuit.
ghost use Rattle.std.specs.Prelude.{◌≡◌, ◌≢◌, ◌<◌, ◌≤◌, ◌+◌, ◌^◌, ◌||◌, map, length, Some, None, OnOk, IfOk, Err, [], ◌∷◌, slice_get};
ghost use Rattle.std.specs.List.{list_any, list_all};
ghost use Rattle.std.specs.Option.{option_copied};
ghost use Rattle.flat_design.specs.Names.{are_distinct};
ghost use Rattle.flat_design.specs.Cells.{
  is_adder_port,
  is_adder_width,
  is_adder_sign,
  is_adder_parameter,
  is_register_port,
  is_register_parameter,
  has_adder_form,
  has_register_form,
  reads,
  sig_reads,
  cell_reads,
  is_driven,
  adder_of,
  rising_edge,
  register_of,
  start_at,
  with_adder_to,
  with_adder,
  of_width,
  with_register_to,
  with_register,
  with_cell,
  with_cells,
  GrowsByOne,
};

use crate::names::{is_named, names_differ};
use crate::ports::{has_parameter, is_number, joined, joined_with_width, piece_width};
use crate::wires::start_of;
use circuit::{By, Circuit, Drive, Op, Piece, Polarity, Reg, RegKind};
use flat_text::{Cell, Connection, FlatFault, Parameter, Wire};
use sim_base::{Bits, Name};
use sqlite_items::Items;
use std::alloc::Global;

fn is_adder_port(name: &Name) -> bool
    ensures { result ≡ is_adder_port name.now }
{
    is_named(name, b"\\A") || (is_named(name, b"\\B") || is_named(name, b"\\Y"))
}

fn is_adder_width(name: &Name) -> bool
    ensures { result ≡ is_adder_width name.now }
{
    is_named(name, b"\\A_WIDTH") || (is_named(name, b"\\B_WIDTH") || is_named(name, b"\\Y_WIDTH"))
}

fn is_adder_sign(name: &Name) -> bool
    ensures { result ≡ is_adder_sign name.now }
{
    is_named(name, b"\\A_SIGNED") || is_named(name, b"\\B_SIGNED")
}

fn is_adder_parameter(parameter: &Parameter) -> bool
    ensures { result ≡ is_adder_parameter parameter.now }
{
    is_adder_width(&parameter.name)
        || (is_adder_sign(&parameter.name) && is_number(0, &parameter.value))
}

fn is_register_port(name: &Name) -> bool
    ensures { result ≡ is_register_port name.now }
{
    is_named(name, b"\\CLK") || (is_named(name, b"\\D") || is_named(name, b"\\Q"))
}

fn is_register_parameter(name: &Name) -> bool
    ensures { result ≡ is_register_parameter name.now }
{
    is_named(name, b"\\WIDTH") || is_named(name, b"\\CLK_POLARITY")
}

fn are_adder_ports(connections: &[Connection]) -> bool
    ensures { result ≡ list_all (λ c. is_adder_port c.port) connections.now }
{
    connections.iter().all(|c| is_adder_port(&c.port))
}

fn are_adder_parameters(parameters: &[Parameter]) -> bool
    ensures { result ≡ list_all is_adder_parameter parameters.now }
{
    parameters.iter().all(|p| is_adder_parameter(p))
}

fn are_register_ports(connections: &[Connection]) -> bool
    ensures { result ≡ list_all (λ c. is_register_port c.port) connections.now }
{
    connections.iter().all(|c| is_register_port(&c.port))
}

fn are_register_parameters(parameters: &[Parameter]) -> bool
    ensures { result ≡ list_all (λ p. is_register_parameter p.name) parameters.now }
{
    parameters.iter().all(|p| is_register_parameter(&p.name))
}

#[tactic(auto, unfolding(crate::specs::Cells::has_adder_form))]
fn has_adder_form(cell: &Cell) -> bool
    ensures { result ≡ has_adder_form cell.now }
{
    let connections = cell.connections.as_slice();
    let parameters = cell.parameters.as_slice();
    (names_differ(connections) && are_adder_ports(connections))
        && (names_differ(parameters) && are_adder_parameters(parameters))
}

#[tactic(auto, unfolding(crate::specs::Cells::has_register_form))]
fn has_register_form(cell: &Cell) -> bool
    ensures { result ≡ has_register_form cell.now }
{
    let connections = cell.connections.as_slice();
    let parameters = cell.parameters.as_slice();
    (names_differ(connections) && are_register_ports(connections))
        && ((names_differ(parameters) && are_register_parameters(parameters))
            && has_parameter(parameters, b"\\CLK_POLARITY", 1))
}

fn reads(net: u32, piece: &Piece) -> bool
    ensures { result ≡ reads net piece.now }
{
    match piece {
        Piece::Const(_) => false,
        Piece::Part { net: read, .. } => *read == net,
    }
}

fn sig_reads(net: u32, pieces: &[Piece]) -> bool
    ensures { result ≡ sig_reads net pieces.now }
{
    pieces.iter().any(|p| reads(net, p))
}

fn cell_reads(net: u32, cell: &circuit::Cell) -> bool
    ensures { result ≡ cell_reads net cell.now }
{
    sig_reads(net, cell.a.as_slice()) || sig_reads(net, cell.b.as_slice())
}

fn is_read(net: u32, cells: &[circuit::Cell]) -> bool
    ensures { result ≡ list_any (cell_reads net) cells.now }
{
    cells.iter().any(|x| cell_reads(net, x))
}

fn is_driven(drives: &[Drive], net: u32) -> bool
    ensures { result ≡ is_driven drives.now net }
{
    drives.iter().any(|d| d.net == net)
}

fn one_piece(alloc: Global, piece: Piece) -> Result<Items<Piece>, FlatFault>
    ensures ok { IfOk result (λ s. s ≡ piece ∷ []) }
    ensures memory { result ≢ Err FlatFault.NotBuilt }
{
    let mut pieces = Items::new(alloc);
    pieces.push(piece)?;
    Ok(pieces)
}

fn adder_of(alloc: Global, a: Piece, b: Piece, width: u32) -> Result<circuit::Cell, FlatFault>
    ensures ok { IfOk result (λ x. x ≡ adder_of a b width) }
    ensures memory { result ≢ Err FlatFault.NotBuilt }
{
    Ok(circuit::Cell {
        op: Op::Add,
        a: one_piece(alloc, a)?,
        b: one_piece(alloc, b)?,
        s: Items::new(alloc),
        a_signed: false,
        b_signed: false,
        width,
        offset: 0,
    })
}

/// Adds an adder whose output is joined to `y`.
#[tactic(auto, unfolding(crate::specs::Cells::with_adder_to))]
fn add_adder_to(
    alloc: Global,
    circuit: &mut Circuit,
    a: Piece,
    b: Piece,
    y: Piece,
) -> Result<(), FlatFault>
    requires { length circuit.old.cells < 2 ^ 32 }
    ensures ok { OnOk result (with_adder_to circuit.old a b y ≡ Some circuit.new) }
    ensures grown { OnOk result (GrowsByOne circuit.old circuit.new) }
    ensures not_built { result ≡ Err FlatFault.NotBuilt → with_adder_to circuit.old a b y ≡ None }
{
    let Piece::Part { net, width, .. } = y else {
        return Err(FlatFault::NotBuilt);
    };
    let adder = adder_of(alloc, a, b, width)?;
    if is_driven(circuit.drives.as_slice(), net)
        || (is_read(net, circuit.cells.as_slice()) || cell_reads(net, &adder))
    {
        return Err(FlatFault::NotBuilt);
    }
    let place = circuit.cells.len() as u32;
    circuit.cells.push(adder)?;
    circuit.drives.push(Drive {
        net,
        at: 0,
        width,
        by: By::Cell(place, 0),
    })?;
    Ok(())
}

#[tactic(auto, unfolding(crate::specs::Cells::with_adder))]
fn add_adder(
    alloc: Global,
    circuit: &mut Circuit,
    wires: &[Wire],
    cell: &Cell,
) -> Result<(), FlatFault>
    requires few { length wires.now ≤ 2 ^ 32 }
    requires cells { length circuit.old.cells < 2 ^ 32 }
    ensures ok { OnOk result (with_adder wires.now circuit.old cell.now ≡ Some circuit.new) }
    ensures grown { OnOk result (GrowsByOne circuit.old circuit.new) }
    ensures not_built { result ≡ Err FlatFault.NotBuilt → with_adder wires.now circuit.old cell.now ≡ None }
{
    if !has_adder_form(cell) {
        return Err(FlatFault::NotBuilt);
    }
    let a = joined_with_width(alloc, wires, cell, b"\\A", b"\\A_WIDTH")?;
    let b = joined_with_width(alloc, wires, cell, b"\\B", b"\\B_WIDTH")?;
    let y = joined_with_width(alloc, wires, cell, b"\\Y", b"\\Y_WIDTH")?;
    add_adder_to(alloc, circuit, a, b, y)
}

fn start_at(alloc: Global, width: u32, wire: Option<&Wire>) -> Result<Bits, FlatFault>
    ensures ok { IfOk result (λ b. b ≡ start_at width (option_copied wire.entry)) }
    ensures memory { result ≢ Err FlatFault.NotBuilt }
{
    match wire {
        None => Ok(Bits::zero(alloc, width)?),
        Some(wire) => start_of(alloc, wire),
    }
}

/// The rising edge. The polarity of a port that a register lacks says nothing, and is true.
fn rising_edge() -> Polarity
    ensures { result ≡ rising_edge }
{
    Polarity {
        clk: true,
        en: true,
        set: true,
        clr: true,
        load: true,
    }
}

/// The register whose output is a whole net.
fn register_on(
    alloc: Global,
    wires: &[Wire],
    clk: Piece,
    d: Piece,
    net: u32,
    width: u32,
) -> Result<Reg, FlatFault>
    ensures ok { IfOk result (λ x. x ≡ register_of clk d width (start_at width (slice_get wires.now net))) }
    ensures memory { result ≢ Err FlatFault.NotBuilt }
{
    Ok(Reg {
        kind: RegKind::Dff,
        width,
        clk: one_piece(alloc, clk)?,
        d: one_piece(alloc, d)?,
        en: Items::new(alloc),
        set: Items::new(alloc),
        clr: Items::new(alloc),
        load: Items::new(alloc),
        ad: Items::new(alloc),
        pol: rising_edge(),
        value: Bits::zero(alloc, width)?,
        init: start_at(alloc, width, wires.get(net as usize))?,
    })
}

/// Adds a register whose output is joined to `q`.
#[tactic(auto, unfolding(crate::specs::Cells::with_register_to))]
fn add_register_to(
    alloc: Global,
    circuit: &mut Circuit,
    wires: &[Wire],
    clk: Piece,
    d: Piece,
    q: Piece,
) -> Result<(), FlatFault>
    requires { length circuit.old.regs < 2 ^ 32 }
    ensures ok { OnOk result (with_register_to wires.now circuit.old clk d q ≡ Some circuit.new) }
    ensures grown { OnOk result (GrowsByOne circuit.old circuit.new) }
    ensures not_built { result ≡ Err FlatFault.NotBuilt → with_register_to wires.now circuit.old clk d q ≡ None }
{
    let Piece::Part { net, width, .. } = q else {
        return Err(FlatFault::NotBuilt);
    };
    if is_driven(circuit.drives.as_slice(), net) {
        return Err(FlatFault::NotBuilt);
    }
    let register = register_on(alloc, wires, clk, d, net, width)?;
    let place = circuit.regs.len() as u32;
    circuit.regs.push(register)?;
    circuit.drives.push(Drive {
        net,
        at: 0,
        width,
        by: By::Reg(place, 0),
    })?;
    Ok(())
}

fn of_width(width: u32, piece: Piece) -> Result<Piece, FlatFault>
    ensures ok { IfOk result (λ p. of_width width piece ≡ Some p) }
    ensures not_built { result ≡ Err FlatFault.NotBuilt → of_width width piece ≡ None }
{
    if piece_width(&piece) == width {
        Ok(piece)
    } else {
        Err(FlatFault::NotBuilt)
    }
}

#[tactic(auto, unfolding(crate::specs::Cells::with_register))]
fn add_register(
    alloc: Global,
    circuit: &mut Circuit,
    wires: &[Wire],
    cell: &Cell,
) -> Result<(), FlatFault>
    requires few { length wires.now ≤ 2 ^ 32 }
    requires regs { length circuit.old.regs < 2 ^ 32 }
    ensures ok { OnOk result (with_register wires.now circuit.old cell.now ≡ Some circuit.new) }
    ensures grown { OnOk result (GrowsByOne circuit.old circuit.new) }
    ensures not_built { result ≡ Err FlatFault.NotBuilt → with_register wires.now circuit.old cell.now ≡ None }
{
    if !has_register_form(cell) {
        return Err(FlatFault::NotBuilt);
    }
    let clk = of_width(
        1,
        joined(alloc, wires, cell.connections.as_slice(), b"\\CLK")?,
    )?;
    let d = joined_with_width(alloc, wires, cell, b"\\D", b"\\WIDTH")?;
    let q = joined_with_width(alloc, wires, cell, b"\\Q", b"\\WIDTH")?;
    add_register_to(alloc, circuit, wires, clk, d, q)
}

/// Adds a cell and its drive.
#[tactic(auto, unfolding(crate::specs::Cells::with_cell))]
fn add_cell(
    alloc: Global,
    circuit: &mut Circuit,
    wires: &[Wire],
    cell: &Cell,
) -> Result<(), FlatFault>
    requires few { length wires.now ≤ 2 ^ 32 }
    requires cells { length circuit.old.cells < 2 ^ 32 }
    requires regs { length circuit.old.regs < 2 ^ 32 }
    ensures ok { OnOk result (with_cell wires.now circuit.old cell.now ≡ Some circuit.new) }
    ensures grown { OnOk result (GrowsByOne circuit.old circuit.new) }
    ensures not_built { result ≡ Err FlatFault.NotBuilt → with_cell wires.now circuit.old cell.now ≡ None }
{
    if is_named(&cell.kind, b"$add") {
        add_adder(alloc, circuit, wires, cell)
    } else if is_named(&cell.kind, b"$dff") {
        add_register(alloc, circuit, wires, cell)
    } else {
        Err(FlatFault::NotBuilt)
    }
}

/// Adds the cells in their order.
pub fn add_cells(
    alloc: Global,
    circuit: &mut Circuit,
    wires: &[Wire],
    cells: &[Cell],
) -> Result<(), FlatFault>
    requires few { length wires.now ≤ 2 ^ 32 }
    requires cells { length circuit.old.cells + length cells.now ≤ 2 ^ 32 }
    requires regs { length circuit.old.regs + length cells.now ≤ 2 ^ 32 }
    ensures ok { OnOk result (with_cells wires.now circuit.old cells.now ≡ Some circuit.new) }
    ensures not_built { result ≡ Err FlatFault.NotBuilt → with_cells wires.now circuit.old cells.now ≡ None }
{
    for cell in cells {
        add_cell(alloc, circuit, wires, cell)?;
    }
    Ok(())
}
