//! Drives of signals.
ghost use Rattle.std.specs.Prelude.{◌≡◌, ◌-◌, ◌<◌, ◌≤◌, ◌^◌, ◌++◌, ◌∷◌, [], IfOk, OnOk, length};
ghost use Rattle.circuit.specs.Signal.{sig_width};
ghost use Rattle.rtlil_signals.specs.Drives.{bit_of, by_at, by_of, connected, driven, driven_from, onto};
ghost use Rattle.rtlil_signals.specs.Spans.{piece_of, pieces_of};

use crate::span::{Span, part_of};
use crate::value::const_part;
use circuit::{By, Drive, Piece};
use sim_base::NoMemory;
use sqlite_items::Items;
use std::alloc::Global;

/// A part as a piece of a signal. Of 2^32 bits and more there is no memory for it.
fn piece_of(alloc: Global, span: &Span) -> Result<Piece, NoMemory>
    ensures { IfOk result (λ piece. piece ≡ piece_of span.now) }
{
    match span {
        Span::Const { of, from, to } => {
            let width = to.saturating_sub(*from);
            if width > u32::MAX as u64 {
                return Err(NoMemory);
            }
            Ok(Piece::Const(const_part(alloc, of, *from, width as u32)?))
        }
        Span::Net { net, from, to } => Ok(Piece::Part {
            net: *net,
            at: *from,
            width: to.saturating_sub(*from),
        }),
    }
}

/// The signal that parts make.
pub fn sig_of(alloc: Global, spans: &[Span]) -> Result<Items<Piece>, NoMemory>
    ensures { IfOk result (λ sig. sig ≡ pieces_of spans.now) }
{
    let mut sig = Items::new(alloc);
    for span in spans {
        sig.push(piece_of(alloc, span)?)?;
    }
    Ok(sig)
}

/// What drives with a piece's bits.
fn by_of(piece: Piece) -> By
    ensures { result ≡ by_of piece }
{
    match piece {
        Piece::Const(value) => By::Const(value),
        Piece::Part { net, at, width: _ } => By::Wire(net, at),
    }
}

/// Drives the bits `from` to `to - 1` of a net by parts, one behind the other, of no more bits.
fn drive_net(
    alloc: Global,
    net: u32,
    from: u32,
    to: u32,
    parts: &[Span],
    drives: &mut Items<Drive>,
) -> Result<(), NoMemory>
    requires { sig_width (pieces_of parts.now) ≤ to - from }
    ensures { OnOk result (drives.new ≡ drives.old ++ onto net from (pieces_of parts.now)) }
{
    let _ = to;
    let mut next = from;
    for part in parts {
        let width = part.width() as u32;
        let by = by_of(piece_of(alloc, part)?);
        drives.push(Drive {
            net,
            at: next,
            width,
            by,
        })?;
        next += width;
    }
    Ok(())
}

/// A bit of a signal: so many behind the first of a part.
#[derive(Clone, Copy, Debug, PartialEq, Eq)]
struct Position {
    part: usize,
    skipped: u128,
}

/// The same bit, inside its part.
fn settled(spans: &[Span], from: Position) -> Position
    ensures same { bit_of spans.now result ≡ bit_of spans.now from }
    ensures within { from.part ≤ length spans.now → result.part ≤ length spans.now }
    ensures near { result.skipped ≤ from.skipped }
{
    let mut position = from;
    for part in from.part..spans.len() {
        let width = spans[part].width() as u128;
        if position.skipped < width {
            return position;
        }
        position = Position {
            part: part + 1,
            skipped: position.skipped - width,
        };
    }
    position
}

/// Drives a part by parts of as many bits; what would drive a constant is dropped.
fn drive_part(
    alloc: Global,
    part: &Span,
    by: &[Span],
    drives: &mut Items<Drive>,
) -> Result<(), NoMemory>
    requires { sig_width (pieces_of by.now) ≤ sig_width (pieces_of (part.now ∷ [])) }
    ensures { OnOk result (drives.new ≡ drives.old ++ driven (piece_of part.now) (pieces_of by.now)) }
{
    match part {
        Span::Const {
            of: _,
            from: _,
            to: _,
        } => Ok(()),
        Span::Net { net, from, to } => drive_net(alloc, *net, *from, *to, by, drives),
    }
}

/// Drives one signal by another one.
pub fn connect(
    alloc: Global,
    left: &[Span],
    right: &[Span],
    drives: &mut Items<Drive>,
) -> Result<(), NoMemory>
    ensures { OnOk result (drives.new ≡ drives.old ++ connected (pieces_of left.now) (pieces_of right.now)) }
{
    let mut position = Position {
        part: 0,
        skipped: 0,
    };
    for part in left {
        position = settled(right, position);
        let width = part.width() as u128;
        let by = part_of(alloc, &right[position.part..], position.skipped, width)?;
        drive_part(alloc, part, by.as_slice(), drives)?;
        position = Position {
            part: position.part,
            skipped: position.skipped + width,
        };
    }
    Ok(())
}

/// What drives as a whole.
#[derive(Clone, Copy, Debug, PartialEq, Eq)]
pub enum Source {
    /// A place in the list of inputs.
    Input(u32),
    Net(u32),
    Cell(u32),
    Register(u32),
    /// A memory, and one of its read ports.
    Read(u32, u32),
}

fn by_at(source: Source, at: u32) -> By
    ensures { result ≡ by_at source at }
{
    match source {
        Source::Input(number) => By::Input(number, at),
        Source::Net(number) => By::Wire(number, at),
        Source::Cell(number) => By::Cell(number, at),
        Source::Register(number) => By::Reg(number, at),
        Source::Read(memory, port) => By::Read(memory, port, at),
    }
}

/// Drives a part by the bits of a source from one on; what would drive a constant is dropped.
#[tactic(auto, unfolding(crate::specs::Drives::driven_from))]
fn drive_bits(
    part: &Span,
    source: Source,
    at: u32,
    drives: &mut Items<Drive>,
) -> Result<(), NoMemory>
    ensures { OnOk result (drives.new ≡ drives.old ++ driven_from (by_at source) at (pieces_of (part.now ∷ []))) }
{
    if let Span::Net { net, from, to } = part {
        drives.push(Drive {
            net: *net,
            at: *from,
            width: to.saturating_sub(*from),
            by: by_at(source, at),
        })?;
    }
    Ok(())
}

/// Drives a signal by a source of as many bits.
pub fn drive(left: &[Span], source: Source, drives: &mut Items<Drive>) -> Result<(), NoMemory>
    requires { sig_width (pieces_of left.now) < 2 ^ 32 }
    ensures { OnOk result (drives.new ≡ drives.old ++ driven_from (by_at source) 0 (pieces_of left.now)) }
{
    let mut at = 0u32;
    for part in left {
        drive_bits(part, source, at, drives)?;
        at += part.width() as u32;
    }
    Ok(())
}
