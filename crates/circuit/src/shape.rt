//! The widths of a circuit's slots.
ghost use Rattle.std.specs.Prelude.{◌≡◌, ◌++◌, true, IfOk, OnOk, map};
ghost use Rattle.std.specs.List.{flat_map};
ghost use Rattle.circuit.specs.Slots.{item_widths, slot_widths};
ghost use Rattle.circuit.specs.Valid.{is_valid};

use crate::diagnostic::Diag;
use crate::item::{Item, ItemKind};
use crate::netlist::Circuit;
use sim_base::{NoMemory, Shape};
use std::alloc::Global;

impl Circuit {
    /// The width of each slot of a recording: item by item, a node one slot and a memory one for each
    /// row, and then one for each diagnostic.
    pub fn shape(&self, alloc: Global) -> Result<Shape, NoMemory>
        requires { is_valid self.now ≡ true }
        ensures { IfOk result (λ shape. shape ≡ slot_widths self.now) }
    {
        let mut widths = Vec::new(alloc);
        push_items(self, self.items.as_slice(), &mut widths)?;
        push_diags(self.diags.as_slice(), &mut widths)?;
        Ok(Shape::new(widths))
    }
}

fn push_items(circuit: &Circuit, items: &[Item], widths: &mut Vec<u32>) -> Result<(), NoMemory>
    ensures { OnOk result (widths.new.items ≡ widths.old.items ++ flat_map (λ i. item_widths circuit.now.nets circuit.now.mems i.kind) items.now) }
{
    for item in items {
        push_item(circuit, item.kind, widths)?;
    }
    Ok(())
}

fn push_item(circuit: &Circuit, kind: ItemKind, widths: &mut Vec<u32>) -> Result<(), NoMemory>
    ensures { OnOk result (widths.new.items ≡ widths.old.items ++ item_widths circuit.now.nets circuit.now.mems kind) }
{
    match kind {
        ItemKind::Node { net, .. } => {
            let width = match circuit.nets.get(net as usize) {
                Some(net) => net.width,
                None => 0,
            };
            widths.push(width)?;
        }
        ItemKind::Memory { mem } => {
            if let Some(mem) = circuit.mems.get(mem as usize) {
                widths.resize(widths.len() + mem.size as usize, mem.width)?;
            }
        }
    }
    Ok(())
}

fn push_diags(diags: &[Diag], widths: &mut Vec<u32>) -> Result<(), NoMemory>
    ensures { OnOk result (widths.new.items ≡ widths.old.items ++ map (λ _. 1) diags.now) }
{
    for _diag in diags {
        widths.push(1)?;
    }
    Ok(())
}
