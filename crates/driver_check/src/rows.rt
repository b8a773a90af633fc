//! What each bit and each node of a circuit needs.
ghost use Rattle.std.specs.Prelude.{◌≡◌, ◌++◌, ℕ, ◌+◌, ◌<◌, length, map, true, IfOk, OnOk, slice_get, Some};
ghost use Rattle.std.specs.List.{list_all};
ghost use Rattle.circuit.specs.Valid.{cell_fits, drive_fits, drivers_of, is_valid, piece_fits, sig_fits};
ghost use Rattle.driver_check.specs.Depends.{Bit};
ghost use Rattle.driver_check.specs.Numbers.{IsBit, IsNumbering, bit_number};
ghost use Rattle.driver_check.specs.Owners.{AreOwners};
ghost use Rattle.driver_check.specs.Nodes.{AreParts, IsPart};
ghost use Rattle.driver_check.specs.Vertices.{IsGraphOf, bit_span, by_span, cell_spans, node_spans, port_spans, piece_spans, sig_spans};

use crate::graph::{Graph, Span};
use crate::numbering::Numbering;
use crate::parts::{Node, Parts};
use circuit::{By, Cell, Circuit, Drive, Piece, ReadPort};
use sim_base::NoMemory;
use sqlite_items::Items;
use std::alloc::Global;

const NOTHING: Span = Span { first: 0, width: 0 };

/// What a bit of a drive needs.
fn drive_span(
    circuit: &Circuit,
    numbering: &Numbering,
    parts: &Parts,
    drive: &Drive,
    offset: usize,
) -> Span
    requires valid { is_valid circuit.now ≡ true }
    requires numbers { IsNumbering circuit.now.nets numbering.now.firsts.items numbering.now.bits }
    requires parts { AreParts circuit.now parts.now.nodes.items parts.now.ports.items }
    requires fits { drive_fits (drivers_of circuit.now) drive.now ≡ true }
    requires offset { offset < drive.now.width }
    ensures { result ≡ by_span circuit.now drive.now.by offset }
{
    match &drive.by {
        By::Const(_) => NOTHING,
        By::Input(_, _) => NOTHING,
        By::Wire(net, at) => Span {
            first: numbering.number(circuit.nets.as_slice(), *net, *at) + offset,
            width: 1,
        },
        By::Cell(cell, _) => Span {
            first: numbering.bits + *cell as usize,
            width: 1,
        },
        By::Reg(_, _) => NOTHING,
        By::Read(mem, port, _) => Span {
            first: numbering.bits + parts.port_place(circuit, *mem, *port),
            width: 1,
        },
    }
}

/// What the bit with this number needs.
fn bit_row(
    circuit: &Circuit,
    numbering: &Numbering,
    parts: &Parts,
    owners: &[usize],
    number: usize,
) -> Span
    requires valid { is_valid circuit.now ≡ true }
    requires numbers { IsNumbering circuit.now.nets numbering.now.firsts.items numbering.now.bits }
    requires parts { AreParts circuit.now parts.now.nodes.items parts.now.ports.items }
    requires length { length owners.now ≡ numbering.now.bits }
    requires owners { AreOwners circuit.now (length circuit.now.drives) owners.now }
    requires there { number < numbering.now.bits }
    ensures { (x : Bit) → IsBit circuit.now.nets x → bit_number circuit.now.nets x ≡ number → result ≡ bit_span circuit.now x }
{
    let place = owners[number];
    let drives = circuit.drives.as_slice();
    if place >= drives.len() {
        return NOTHING;
    }
    let drive = &drives[place];
    let start = numbering.start(circuit.nets.as_slice(), drive);
    drive_span(circuit, numbering, parts, drive, number - start)
}

fn bit_rows(
    alloc: Global,
    circuit: &Circuit,
    numbering: &Numbering,
    parts: &Parts,
    owners: &[usize],
) -> Result<Vec<Span>, NoMemory>
    requires valid { is_valid circuit.now ≡ true }
    requires numbers { IsNumbering circuit.now.nets numbering.now.firsts.items numbering.now.bits }
    requires parts { AreParts circuit.now parts.now.nodes.items parts.now.ports.items }
    requires length { length owners.now ≡ numbering.now.bits }
    requires owners { AreOwners circuit.now (length circuit.now.drives) owners.now }
    ensures { IfOk result (λ bits. (length bits.items ≡ numbering.now.bits) × ((x : Bit) → IsBit circuit.now.nets x → slice_get bits.items (bit_number circuit.now.nets x) ≡ Some (bit_span circuit.now x))) }
{
    let mut bits = Vec::new(alloc);
    for number in 0..numbering.bits {
        bits.push(bit_row(circuit, numbering, parts, owners, number))?;
    }
    Ok(bits)
}

fn push_piece(
    circuit: &Circuit,
    numbering: &Numbering,
    piece: &Piece,
    spans: &mut Items<Span>,
) -> Result<(), NoMemory>
    requires valid { is_valid circuit.now ≡ true }
    requires numbers { IsNumbering circuit.now.nets numbering.now.firsts.items numbering.now.bits }
    requires fits { piece_fits circuit.now.nets piece.now ≡ true }
    ensures { OnOk result (spans.new ≡ spans.old ++ piece_spans circuit.now.nets piece.now) }
{
    if let Piece::Part { net, at, width } = piece {
        spans.push(Span {
            first: numbering.number(circuit.nets.as_slice(), *net, *at),
            width: *width as usize,
        })?;
    }
    Ok(())
}

fn push_signal(
    circuit: &Circuit,
    numbering: &Numbering,
    pieces: &[Piece],
    spans: &mut Items<Span>,
) -> Result<(), NoMemory>
    requires valid { is_valid circuit.now ≡ true }
    requires numbers { IsNumbering circuit.now.nets numbering.now.firsts.items numbering.now.bits }
    requires fits { list_all (piece_fits circuit.now.nets) pieces.now ≡ true }
    ensures { OnOk result (spans.new ≡ spans.old ++ sig_spans circuit.now.nets pieces.now) }
{
    for piece in pieces {
        push_piece(circuit, numbering, piece, spans)?;
    }
    Ok(())
}

/// What a cell needs.
fn cell_row(
    alloc: Global,
    circuit: &Circuit,
    numbering: &Numbering,
    cell: &Cell,
) -> Result<Items<Span>, NoMemory>
    requires valid { is_valid circuit.now ≡ true }
    requires numbers { IsNumbering circuit.now.nets numbering.now.firsts.items numbering.now.bits }
    requires fits { cell_fits circuit.now.nets cell.now ≡ true }
    ensures { IfOk result (λ row. row ≡ cell_spans circuit.now.nets (Some cell.now)) }
{
    let mut row = Items::new(alloc);
    push_signal(circuit, numbering, cell.a.as_slice(), &mut row)?;
    push_signal(circuit, numbering, cell.b.as_slice(), &mut row)?;
    push_signal(circuit, numbering, cell.s.as_slice(), &mut row)?;
    Ok(row)
}

/// What a read port needs: with a clock nothing.
fn port_row(
    alloc: Global,
    circuit: &Circuit,
    numbering: &Numbering,
    port: &ReadPort,
) -> Result<Items<Span>, NoMemory>
    requires valid { is_valid circuit.now ≡ true }
    requires numbers { IsNumbering circuit.now.nets numbering.now.firsts.items numbering.now.bits }
    requires fits { sig_fits circuit.now.nets port.now.addr ≡ true }
    ensures { IfOk result (λ row. row ≡ port_spans circuit.now.nets (Some port.now)) }
{
    let mut row = Items::new(alloc);
    if !port.clocked {
        push_signal(circuit, numbering, port.addr.as_slice(), &mut row)?;
    }
    Ok(row)
}

/// What a cell or a read port needs.
fn node_row(
    alloc: Global,
    circuit: &Circuit,
    numbering: &Numbering,
    node: Node,
) -> Result<Items<Span>, NoMemory>
    requires valid { is_valid circuit.now ≡ true }
    requires numbers { IsNumbering circuit.now.nets numbering.now.firsts.items numbering.now.bits }
    requires there { IsPart circuit.now node }
    ensures { IfOk result (λ row. row ≡ node_spans circuit.now node) }
{
    match node {
        Node::Cell(cell) => cell_row(
            alloc,
            circuit,
            numbering,
            &circuit.cells.as_slice()[cell as usize],
        ),
        Node::Read(mem, port) => {
            let mem = &circuit.mems.as_slice()[mem as usize];
            port_row(
                alloc,
                circuit,
                numbering,
                &mem.reads.as_slice()[port as usize],
            )
        }
    }
}

/// The graph of what the bits and the nodes of a circuit need.
pub fn graph_of(
    alloc: Global,
    circuit: &Circuit,
    numbering: &Numbering,
    parts: &Parts,
    owners: &[usize],
) -> Result<Graph, NoMemory>
    requires valid { is_valid circuit.now ≡ true }
    requires numbers { IsNumbering circuit.now.nets numbering.now.firsts.items numbering.now.bits }
    requires parts { AreParts circuit.now parts.now.nodes.items parts.now.ports.items }
    requires length { length owners.now ≡ numbering.now.bits }
    requires owners { AreOwners circuit.now (length circuit.now.drives) owners.now }
    ensures { IfOk result (λ g. IsGraphOf circuit.now parts.now.nodes.items g.bits.items g.nodes.items) }
{
    let bits = bit_rows(alloc, circuit, numbering, parts, owners)?;
    let mut nodes = Vec::new(alloc);
    for node in &parts.nodes {
        nodes.push(node_row(alloc, circuit, numbering, *node)?)?;
    }
    Ok(Graph { bits, nodes })
}
