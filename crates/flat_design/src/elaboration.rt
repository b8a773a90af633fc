//! The circuit of a flat module, part by part.
ghost use Rattle.std.specs.Prelude.{◌≡◌, ◌≢◌, Some, None, IfOk, Err};
ghost use Rattle.std.specs.List.{list_all};
ghost use Rattle.flat_design.specs.Wires.{is_wire};
ghost use Rattle.flat_design.specs.Circuit.{has_known_form, frame_of, circuit_of};
ghost use Rattle.flat_design.specs.Flat.{IsFlat};

use crate::cells::add_cells;
use crate::labels::items_of;
use crate::names::{bare_name, names_differ};
use crate::wires::{add_wires, is_wire};
use circuit::{Circuit, Scope};
use flat_text::{FlatFault, Module, Wire};
use sim_base::Name;
use sqlite_items::Items;
use std::alloc::Global;

fn are_wires(wires: &[Wire]) -> bool
    ensures { result ≡ list_all is_wire wires.now }
{
    wires.iter().all(|w| is_wire(w))
}

#[tactic(auto, unfolding(crate::specs::Circuit::has_known_form))]
fn has_known_form(flat: &Module) -> bool
    ensures { result ≡ has_known_form flat.now }
{
    let wires = flat.wires.as_slice();
    let cells = flat.cells.as_slice();
    (wires.len() <= 1000 && cells.len() <= 1000)
        && ((names_differ(wires) && names_differ(cells)) && are_wires(wires))
}

/// A circuit with the module's scope, and nothing in it yet.
#[tactic(auto, unfolding(crate::specs::Circuit::frame_of))]
fn frame_of(alloc: Global, flat: &Module) -> Result<Circuit, FlatFault>
    ensures ok { IfOk result (λ c. c ≡ frame_of flat.now) }
    ensures memory { result ≢ Err FlatFault.NotBuilt }
{
    let mut scopes = Items::new(alloc);
    scopes.push(Scope {
        name: Name::new(Vec::new(alloc)),
        module: bare_name(alloc, &flat.name)?,
        module_src: None,
        cell_src: None,
    })?;
    Ok(Circuit {
        nets: Items::new(alloc),
        drives: Items::new(alloc),
        cells: Items::new(alloc),
        regs: Items::new(alloc),
        mems: Items::new(alloc),
        inputs: Items::new(alloc),
        items: Items::new(alloc),
        scopes,
        diags: Items::new(alloc),
    })
}

/// The circuit of a flat module. `NotBuilt` comes exactly where the module has none, and `NoMemory` where
/// memory runs out.
pub fn elaborate(alloc: Global, flat: &Module) -> Result<Circuit, FlatFault>
    ensures ok { IfOk result (λ c. circuit_of flat.now ≡ Some c) }
    ensures flat { IfOk result IsFlat }
    ensures not_built { result ≡ Err FlatFault.NotBuilt → circuit_of flat.now ≡ None }
{
    if !has_known_form(flat) {
        return Err(FlatFault::NotBuilt);
    }
    let wires = flat.wires.as_slice();
    let mut circuit = frame_of(alloc, flat)?;
    add_wires(alloc, &mut circuit, wires)?;
    add_cells(alloc, &mut circuit, wires, flat.cells.as_slice())?;
    circuit.items = items_of(alloc, wires)?;
    Ok(circuit)
}
