//! How much a design has, as it is printed.
ghost use Rattle.std.specs.Prelude.{◌≡◌, ◌++◌, IfOk, OnOk, min};
ghost use Rattle.circuit.specs.Built.{slots_of_items};
ghost use Rattle.circuit.specs.Shown.{slots_of};
ghost use Rattle.rtlil_check.specs.Sizes.{size_line, sizes_text, slots_of_circuit};

use circuit::{Circuit, Item, ItemKind, Mem};
use itoa::Buffer;
use sim_base::NoMemory;
use std::alloc::Global;

/// Puts a line of what is counted and of how many there are behind the text.
fn push_size(text: &mut Vec<u8>, name: &[u8], count: u64) -> Result<(), NoMemory>
    ensures { OnOk result (text.new.items ≡ text.old.items ++ size_line name.now count) }
{
    let mut buffer = Buffer::new();
    text.extend_from_slice(name)?;
    text.push(b' ')?;
    text.extend_from_slice(buffer.format(count).as_bytes())?;
    text.push(b'\n')?;
    Ok(())
}

/// The slots of what an item shows.
fn slots_of(mems: &[Mem], kind: ItemKind) -> u64
    ensures { result ≡ slots_of mems.now kind }
{
    match kind {
        ItemKind::Node { .. } => 1,
        ItemKind::Memory { mem } => match mems.get(mem as usize) {
            Some(mem) => u64::from(mem.size),
            None => 0,
        },
    }
}

/// The slots of items, of which no more are counted than a number of 64 bits names.
fn slots_of_items(mems: &[Mem], items: &[Item]) -> u64
    ensures { result ≡ min (slots_of_items mems.now items.now) 18446744073709551615 }
{
    let mut slots = 0u64;
    for item in items {
        slots = slots.saturating_add(slots_of(mems, item.kind));
    }
    slots
}

fn slots_of_circuit(circuit: &Circuit) -> u64
    ensures { result ≡ slots_of_circuit circuit.now }
{
    slots_of_items(circuit.mems.as_slice(), circuit.items.as_slice()).saturating_add(
        circuit.diags.len() as u64,
    )
}

/// What a design has, a line for each kind.
pub fn sizes_text(alloc: Global, circuit: &Circuit) -> Result<Vec<u8>, NoMemory>
    ensures { IfOk result (λ text. text.items ≡ sizes_text circuit.now) }
{
    let mut text = Vec::new(alloc);
    push_size(&mut text, b"nets", circuit.nets.len() as u64)?;
    push_size(&mut text, b"drives", circuit.drives.len() as u64)?;
    push_size(&mut text, b"cells", circuit.cells.len() as u64)?;
    push_size(&mut text, b"registers", circuit.regs.len() as u64)?;
    push_size(&mut text, b"memories", circuit.mems.len() as u64)?;
    push_size(&mut text, b"items", circuit.items.len() as u64)?;
    push_size(&mut text, b"slots", slots_of_circuit(circuit))?;
    Ok(text)
}
