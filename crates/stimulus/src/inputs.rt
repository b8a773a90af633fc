//! The line that names the inputs.
ghost use Rattle.std.specs.Prelude.{◌≡◌, ◌++◌, ◌∷◌, [], IfOk, OnOk, bytes_eq, if◌then◌else◌, map, nat_eq};
ghost use Rattle.std.specs.Map.{lookup};
ghost use Rattle.std.specs.Option.{is_some, option_map};
ghost use Rattle.stimulus.specs.Inputs.{TellsPlaces, columns_of, inputs_named, item_names, net_named, net_of_kind, nets_named, width_of};

use circuit::{Circuit, Item, ItemKind};
use indexmap::IndexMap;
use name_table::Table;
use sim_base::NoMemory;
use sqlite_items::Items;
use std::alloc::Global;
use stimulus_blocks::Stimulus;

/// The place of each item by its name; of equal names the first.
fn places_of_items<'c>(alloc: Global, items: &'c [Item]) -> Result<Table<'c, usize>, NoMemory>
    ensures { IfOk result (TellsPlaces bytes_eq (item_names items.entry.now)) }
{
    let mut places = Table::new(alloc);
    for at in 0..items.len() {
        places.add(items[at].name.as_bytes(), at)?;
    }
    Ok(places)
}

/// The net of an item that is a node.
fn net_of(kind: ItemKind) -> Option<u32>
    ensures { result ≡ net_of_kind kind }
{
    match kind {
        ItemKind::Node { net, .. } => Some(net),
        ItemKind::Memory { .. } => None,
    }
}

/// The net that is a node of this name.
fn net_named(circuit: &Circuit, places: &Table<usize>, name: &[u8]) -> Option<u32>
    requires { TellsPlaces bytes_eq (item_names circuit.now.items) places.now }
    ensures { result ≡ net_named circuit.now name.now }
{
    let place = places.get(name)?;
    let item = circuit.items.get(place)?;
    net_of(item.kind)
}

/// The nets that words name, where each names one.
fn nets_named(
    alloc: Global,
    circuit: &Circuit,
    words: &[&[u8]],
) -> Result<Option<Vec<u32>>, NoMemory>
    ensures { IfOk result (λ nets. option_map (λ v. v.items) nets ≡ nets_named circuit.now (map (λ x. x.now) words.now)) }
{
    let places = places_of_items(alloc, circuit.items.as_slice())?;
    let mut nets = Vec::new(alloc);
    for word in words {
        match net_named(circuit, &places, word) {
            Some(net) => nets.push(net)?,
            None => return Ok(None),
        }
    }
    Ok(Some(nets))
}

/// Adds a net behind the others with its place, unless it is there.
fn add_net(places: &mut IndexMap<u32, usize>, net: u32, at: usize) -> Result<(), NoMemory>
    ensures { OnOk result (places.new.entries ≡ (if is_some (lookup (nat_eq net) places.old.entries) then places.old.entries else places.old.entries ++ (net, at) ∷ [])) }
{
    if !places.contains_key(&net) {
        places.insert(net, at)?;
    }
    Ok(())
}

/// The first place of each net among others.
fn places_of_nets(alloc: Global, nets: &[u32]) -> Result<IndexMap<u32, usize>, NoMemory>
    ensures { IfOk result (λ places. TellsPlaces nat_eq nets.now places.entries) }
{
    let mut places = IndexMap::new(alloc);
    for at in 0..nets.len() {
        add_net(&mut places, nets[at], at)?;
    }
    Ok(places)
}

/// The place of each input among the nets, where it is there.
fn columns_of(alloc: Global, nets: &[u32], inputs: &[u32]) -> Result<Option<Vec<usize>>, NoMemory>
    ensures { IfOk result (λ columns. option_map (λ v. v.items) columns ≡ columns_of nets.now inputs.now) }
{
    let places = places_of_nets(alloc, nets)?;
    let mut columns = Vec::new(alloc);
    for input in inputs {
        match places.get(input).copied() {
            Some(column) => columns.push(column)?,
            None => return Ok(None),
        }
    }
    Ok(Some(columns))
}

/// The width of a net in bits.
fn width_of(circuit: &Circuit, net: u32) -> u32
    ensures { result ≡ width_of circuit.now net }
{
    match circuit.nets.get(net as usize) {
        Some(net) => net.width,
        None => 0,
    }
}

/// The widths of nets in bits.
fn widths_of(alloc: Global, circuit: &Circuit, nets: &[u32]) -> Result<Vec<u32>, NoMemory>
    ensures { IfOk result (λ widths. widths.items ≡ map (width_of circuit.now) nets.now) }
{
    let mut widths = Vec::new(alloc);
    for net in nets {
        widths.push(width_of(circuit, *net))?;
    }
    Ok(widths)
}

/// A stimulus without blocks, where the words name each input once.
pub(crate) fn inputs_named(
    alloc: Global,
    circuit: &Circuit,
    words: &[&[u8]],
) -> Result<Option<Stimulus>, NoMemory>
    ensures { IfOk result (λ stimulus. stimulus ≡ inputs_named circuit.now (map (λ x. x.now) words.now)) }
{
    let Some(nets) = nets_named(alloc, circuit, words)? else {
        return Ok(None);
    };
    if nets.len() != circuit.inputs.len() {
        return Ok(None);
    }
    let Some(columns) = columns_of(alloc, &nets, circuit.inputs.as_slice())? else {
        return Ok(None);
    };
    let widths = widths_of(alloc, circuit, &nets)?;
    Ok(Some(Stimulus::new(alloc, Items::from_vec(widths), Items::from_vec(columns))))
}
