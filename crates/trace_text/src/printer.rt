//! What prints the samples of a circuit.
ghost use Rattle.std.specs.Prelude.{◌≡◌, ◌++◌, ◌∷◌, [], true, IfOk, OnOk, replicate, slice_get};
ghost use Rattle.std.specs.Arc.{arc_value};
ghost use Rattle.std.specs.List.{flat_map, filter};
ghost use Rattle.circuit.specs.Slots.{item_widths, net_width, slot_widths};
ghost use Rattle.circuit.specs.Valid.{is_valid};
ghost use Rattle.sim_base.specs.Shape.{words_of_widths};
ghost use Rattle.spool_format.specs.Records.{IsSampleOf};
ghost use Rattle.trace_text.specs.Columns.{AreWithin, columns, columns_of, column_text};
ghost use Rattle.trace_text.specs.Text as spec;

use crate::digits::{push_decimal, push_time, push_value};
use circuit::{Circuit, Item, ItemKind, law_of_validity};
use sim_base::NoMemory;
use spool_format::Sample;
use std::alloc::Global;
use std::marker::Model;
use std::sync::Arc;

/// Where the value of a node stands.
#[derive(Clone, Copy, Debug)]
pub struct Column {
    /// Its width in bits.
    pub width: u32,
    /// How many words of a sample stand before its own.
    pub place: u64,
}

/// Prints the samples of a valid circuit, which is what contracts see of it.
#[derive(Debug, Drop)]
pub struct Printer {
    circuit: Arc<Circuit>,
    columns: Vec<Column>,
}

impl Model for Printer {
    ghost use Rattle.std.specs.Prelude.{◌≡◌, true};
    ghost use Rattle.std.specs.Arc.{arc_value};
    ghost use Rattle.circuit.specs.Valid.{is_valid};
    ghost use Rattle.circuit.specs.declared.netlist.Circuit.{Circuit};
    ghost use Rattle.trace_text.specs.Columns as spec;

    ghost Value = { Circuit };

    ghost view = { λ p. arc_value p.circuit };

    ghost invariant = { λ p. (is_valid (arc_value p.circuit) ≡ true) × (p.columns.items ≡ spec.columns (arc_value p.circuit)) };
}

/// The width of a net in bits.
fn net_width(circuit: &Circuit, net: u32) -> u32
    ensures { result ≡ net_width (slice_get circuit.now.nets net) }
{
    match circuit.nets.get(net as usize) {
        Some(net) => net.width,
        None => 0,
    }
}

/// How many words so many rows of this width take.
fn words_of_rows(size: u32, width: u32) -> u64
    ensures { result ≡ words_of_widths (replicate size width) }
{
    u64::from(size) * u64::from(width.div_ceil(32))
}

/// How many words the slots of an item take.
fn words_of(circuit: &Circuit, kind: ItemKind) -> u64
    ensures { result ≡ words_of_widths (item_widths circuit.now.nets circuit.now.mems kind) }
{
    match kind {
        ItemKind::Node { net, .. } => u64::from(net_width(circuit, net).div_ceil(32)),
        ItemKind::Memory { mem } => match circuit.mems.get(mem as usize) {
            Some(mem) => words_of_rows(mem.size, mem.width),
            None => 0,
        },
    }
}

fn push_column(
    circuit: &Circuit,
    kind: ItemKind,
    place: u64,
    columns: &mut Vec<Column>,
) -> Result<(), NoMemory>
    ensures { OnOk result (columns.new.items ≡ columns.old.items ++ columns_of circuit.now.nets place kind) }
{
    if let ItemKind::Node { net, .. } = kind {
        columns.push(Column {
            width: net_width(circuit, net),
            place,
        })?;
    }
    Ok(())
}

/// The columns of a circuit. More than 2^64 - 1 words are refused like memory that is at its end.
fn columns_of(alloc: Global, circuit: &Circuit) -> Result<Vec<Column>, NoMemory>
    ensures { IfOk result (λ found. found.items ≡ columns circuit.now) }
{
    let mut columns = Vec::new(alloc);
    let mut place = 0u64;
    for item in circuit.items.as_slice() {
        push_column(circuit, item.kind, place, &mut columns)?;
        let Some(behind) = place.checked_add(words_of(circuit, item.kind)) else {
            return Err(NoMemory);
        };
        place = behind;
    }
    Ok(columns)
}

/// Puts the line of an item behind the text, if it is a node.
fn push_node(text: &mut Vec<u8>, circuit: &Circuit, item: &Item) -> Result<(), NoMemory>
    ensures { OnOk result (text.new.items ≡ text.old.items ++ flat_map (spec.node_line circuit.now) (filter (λ i. spec.is_node i.kind) (item.now ∷ []))) }
{
    if let ItemKind::Node { net, .. } = item.kind {
        push_decimal(text, u64::from(net_width(circuit, net)))?;
        text.push(b' ')?;
        text.extend_from_slice(item.name.as_bytes())?;
        text.push(b'\n')?;
    }
    Ok(())
}

/// Puts the lines of the nodes behind the text.
fn push_nodes(text: &mut Vec<u8>, circuit: &Circuit) -> Result<(), NoMemory>
    ensures { OnOk result (text.new.items ≡ text.old.items ++ flat_map (spec.node_line circuit.now) (spec.nodes circuit.now)) }
{
    for item in circuit.items.as_slice() {
        push_node(text, circuit, item)?;
    }
    Ok(())
}

/// Puts the values of columns behind the text.
fn push_values(text: &mut Vec<u8>, columns: &[Column], words: &[u32]) -> Result<(), NoMemory>
    requires { AreWithin columns.now words.now }
    ensures { OnOk result (text.new.items ≡ text.old.items ++ flat_map (column_text words.now) columns.now) }
{
    for column in columns {
        let place = column.place as usize;
        let room = column.width.div_ceil(32) as usize;
        push_value(text, column.width, &words[place..place + room])?;
    }
    Ok(())
}

impl Printer {
    pub fn new(alloc: Global, circuit: Arc<Circuit>) -> Result<Printer, NoMemory>
        requires { is_valid (arc_value circuit) ≡ true }
        ensures { IfOk result (λ p. p ≡ arc_value circuit) }
    {
        let columns = columns_of(alloc, &circuit)?;
        Ok(Printer { circuit, columns })
    }

    /// Puts the lines that say what is printed behind the text.
    pub fn push_header(&self, text: &mut Vec<u8>) -> Result<(), NoMemory>
        ensures { OnOk result (text.new.items ≡ text.old.items ++ spec.header self.now) }
    {
        text.extend_from_slice(b"items ")?;
        push_decimal(text, self.columns.as_slice().len() as u64)?;
        text.push(b'\n')?;
        push_nodes(text, &self.circuit)?;
        Ok(())
    }

    /// Puts the line of a sample behind the text.
    pub fn push_sample(&self, text: &mut Vec<u8>, sample: &Sample) -> Result<(), NoMemory>
        requires { IsSampleOf (slot_widths self.now) sample.now }
        ensures { OnOk result (text.new.items ≡ text.old.items ++ spec.recorded_line self.now sample.now) }
    {
        law_of_validity();
        push_time(text, sample.time)?;
        push_values(text, &self.columns, sample.words.as_slice())?;
        text.push(b'\n')?;
        Ok(())
    }
}

/// Puts the last line behind the text: how many samples there are, and whether the one behind them does not settle.
pub fn push_last_line(text: &mut Vec<u8>, unsettled: bool, count: u64) -> Result<(), NoMemory>
    ensures { OnOk result (text.new.items ≡ text.old.items ++ spec.last_line unsettled count) }
{
    let word: &[u8] = if unsettled { b"unsettled " } else { b"end " };
    text.extend_from_slice(word)?;
    push_decimal(text, count)?;
    text.push(b'\n')?;
    Ok(())
}
