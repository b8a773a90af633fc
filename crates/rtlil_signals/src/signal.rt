//! Signals as they stand for nets and constants.
ghost use Rattle.std.specs.Prelude.{◌≡◌, ◌++◌, IfOk, List, OnOk, Option, map, option_map};
ghost use Rattle.circuit.specs.declared.netlist.Piece.{Piece};
ghost use Rattle.rtlil_signals.specs.Values.{const_value};
ghost use Rattle.std.specs.List.{list_all};
ghost use Rattle.rtlil_tree.specs.declared.sig.SigPart.TheFolds.{fold-SigPart};
ghost use Rattle.rtlil_signals.specs.Signals.{concatenated, is_named, net_pieces, part_pieces, sig_of_part, sig_pieces, sliced, value_pieces};
ghost use Rattle.rtlil_signals.specs.Spans.{pieces_of};

use crate::scope::NamedNet;
use crate::slice::chosen;
use crate::span::{Span, part_of, width_of};
use crate::value::const_width;
use name_table::Table;
use rtlil_tree::{Const, Sig, SigPart, Slice};
use sim_base::NoMemory;
use sqlite_items::Items;
use std::alloc::Global;

/// Whether each wire of a signal is there.
#[cycle(named)]
pub fn is_named(scope: &Table<NamedNet>, sig: &Sig) -> bool
    ensures { result ≡ is_named scope.now sig.now }
{
    match &sig.part {
        SigPart::Const(_) => true,
        SigPart::Wire(name) => scope.get(name.as_bytes()).is_some(),
        SigPart::Concatenation(parts) => are_named(scope, parts.as_slice()),
    }
}

#[cycle(named)]
fn are_named(scope: &Table<NamedNet>, parts: &[Sig]) -> bool
    ensures { result ≡ list_all (is_named scope.now) parts.now }
{
    for part in parts {
        if !is_named(scope, part) {
            return false;
        }
    }
    true
}

// ---- pieces

/// Appends a constant. One of 2^64 bits and more finds no memory.
fn push_const<'a, 't>(
    spans: &mut Items<Span<'a, 't>>,
    constant: &'a Const<'t>,
) -> Result<(), NoMemory>
    ensures { OnOk result (pieces_of spans.new ≡ pieces_of spans.old ++ value_pieces (const_value constant.now)) }
{
    let width = const_width(constant);
    if width > u64::MAX as u128 {
        return Err(NoMemory);
    }
    if width > 0 {
        spans.push(Span::Const {
            of: constant,
            from: 0,
            to: width as u64,
        })?;
    }
    Ok(())
}

/// Appends a wire; one that is not there has no bits.
fn push_net<'a, 't>(spans: &mut Items<Span<'a, 't>>, wire: Option<NamedNet>) -> Result<(), NoMemory>
    ensures { OnOk result (pieces_of spans.new ≡ pieces_of spans.old ++ net_pieces wire) }
{
    let Some(wire) = wire else {
        return Ok(());
    };
    if wire.width > 0 {
        spans.push(Span::Net {
            net: wire.net,
            from: 0,
            to: wire.width,
        })?;
    }
    Ok(())
}

/// The bits that slices choose of a signal; none where one is outside.
fn sliced<'a, 't>(
    alloc: Global,
    spans: Items<Span<'a, 't>>,
    slices: &[Slice],
) -> Result<Option<Items<Span<'a, 't>>>, NoMemory>
    ensures { IfOk result (λ found. option_map pieces_of found ≡ sliced slices.now (pieces_of spans.entry)) }
{
    if slices.is_empty() {
        return Ok(Some(spans));
    }
    let Some(range) = chosen(width_of(spans.as_slice()), slices) else {
        return Ok(None);
    };
    Ok(Some(part_of(alloc, spans.as_slice(), range.at, range.width)?))
}

/// The parts of a concatenation as one signal; none where a slice in one is outside.
#[cycle(draw)]
fn concatenated<'a, 't>(
    alloc: Global,
    scope: &Table<NamedNet>,
    parts: &'a [Sig<'t>],
) -> Result<Option<Items<Span<'a, 't>>>, NoMemory>
    ensures { IfOk result (λ found. option_map pieces_of found ≡ concatenated (map (sig_pieces scope.now) parts.now)) }
{
    let mut found = Items::new(alloc);
    for done in 0..parts.len() {
        let part = &parts[parts.len() - 1 - done];
        let Some(spans) = spans_of(alloc, scope, part)? else {
            return Ok(None);
        };
        found.append(spans)?;
    }
    Ok(Some(found))
}

/// What a signal is before its slices.
#[cycle(draw)]
fn part_spans<'a, 't>(
    alloc: Global,
    scope: &Table<NamedNet>,
    part: &'a SigPart<'t>,
) -> Result<Option<Items<Span<'a, 't>>>, NoMemory>
    ensures { IfOk result (λ found. option_map pieces_of found ≡ fold-SigPart (Option (List Piece)) (Option (List Piece)) (part_pieces scope.now) sig_of_part part.now) }
{
    match part {
        SigPart::Const(constant) => {
            let mut spans = Items::new(alloc);
            push_const(&mut spans, constant)?;
            Ok(Some(spans))
        }
        SigPart::Wire(name) => {
            let mut spans = Items::new(alloc);
            push_net(&mut spans, scope.get(name.as_bytes()))?;
            Ok(Some(spans))
        }
        SigPart::Concatenation(parts) => concatenated(alloc, scope, parts.as_slice()),
    }
}

/// The parts of constants and nets that a signal is made of, the least significant first; none where a slice is
/// outside of what stands before it. A wire that is not there has no bits.
#[cycle(draw)]
pub fn spans_of<'a, 't>(
    alloc: Global,
    scope: &Table<NamedNet>,
    sig: &'a Sig<'t>,
) -> Result<Option<Items<Span<'a, 't>>>, NoMemory>
    ensures { IfOk result (λ found. option_map pieces_of found ≡ sig_pieces scope.now sig.now) }
{
    match part_spans(alloc, scope, &sig.part)? {
        Some(spans) => sliced(alloc, spans, sig.slices.as_slice()),
        None => Ok(None),
    }
}
