//! Lists for each source the roots that take from it.
ghost use Rattle.std.specs.Prelude.{◌≡◌, ℕ, ◌+◌, ◌<◌, ◌^◌, length, true, IfOk, OnOk, slice_get, slice_index, Some};
ghost use Rattle.circuit.specs.Valid.{driver_fits, drivers_of, is_valid};
ghost use Rattle.circuit.specs.declared.netlist.By.{By as TheBy};
ghost use Rattle.eval_plan.specs.Roots.{AreRoots};
ghost use Rattle.eval_plan.specs.Sources.{AreSources};
ghost use Rattle.eval_plan.specs.TableInvariants.{TakesFromRowBefore, TakesFromRow, driver_row, AreEntries};
ghost use Rattle.eval_plan.specs.Tables.{Lists, table_row};
ghost use Rattle.driver_check.specs.Nodes.{AreParts};

use crate::entries::{Entry, table_of};
use crate::sources::{Kind, Sources};
use crate::table::Table;
use circuit::{By, Circuit, Drive};
use driver_check::Parts;
use sim_base::NoMemory;
use std::alloc::Global;

/// How many rows the sources of a kind have.
fn row_count(circuit: &Circuit, parts: &Parts, kind: Kind) -> usize
    requires { AreParts circuit.now parts.now.nodes.items parts.now.ports.items }
    ensures { (width row : ℕ) (b : TheBy) → driver_fits (drivers_of circuit.now) width b ≡ true → driver_row circuit.now kind b ≡ Some row → row < result }
{
    match kind {
        Kind::Input => circuit.inputs.len(),
        Kind::Part => parts.nodes.len(),
        Kind::Register => circuit.regs.len(),
        Kind::Constant => 1,
    }
}

/// The row of what drives, if it is of a kind.
fn driver_row(circuit: &Circuit, parts: &Parts, kind: Kind, width: u32, by: &By) -> Option<usize>
    requires parts { AreParts circuit.now parts.now.nodes.items parts.now.ports.items }
    requires fits { driver_fits (drivers_of circuit.now) width by.now ≡ true }
    ensures { result ≡ driver_row circuit.now kind by.now }
{
    let _ = width;
    match (kind, by) {
        (Kind::Input, By::Input(input, _)) => Some(*input as usize),
        (Kind::Part, By::Cell(cell, _)) => Some(*cell as usize),
        (Kind::Part, By::Read(mem, port, _)) => Some(parts.port_place(circuit, *mem, *port)),
        (Kind::Register, By::Reg(register, _)) => Some(*register as usize),
        (Kind::Constant, By::Const(_)) => Some(0),
        _ => None,
    }
}

/// Adds the entry of a root, if it takes from a source of a kind.
fn push_root(
    circuit: &Circuit,
    parts: &Parts,
    kind: Kind,
    roots: &[Drive],
    place: usize,
    entries: &mut Vec<Entry>,
) -> Result<(), NoMemory>
    requires parts { AreParts circuit.now parts.now.nodes.items parts.now.ports.items }
    requires roots { AreRoots circuit.now roots.now }
    requires there { place < length roots.now }
    requires few { length roots.now < 2 ^ 32 }
    requires entries { AreEntries (TakesFromRowBefore circuit.now kind roots.now place) entries.old.items }
    ensures { OnOk result (AreEntries (TakesFromRowBefore circuit.now kind roots.now (place + 1)) entries.new.items) }
{
    let root = &roots[place];
    if let Some(row) = driver_row(circuit, parts, kind, root.width, &root.by) {
        entries.push(Entry {
            row,
            value: place as u32,
        })?;
    }
    Ok(())
}

/// The roots by the sources of a kind.
fn table_by(
    alloc: Global,
    circuit: &Circuit,
    parts: &Parts,
    kind: Kind,
    roots: &[Drive],
) -> Result<Table, NoMemory>
    requires parts { AreParts circuit.now parts.now.nodes.items parts.now.ports.items }
    requires roots { AreRoots circuit.now roots.now }
    requires few { length roots.now < 2 ^ 32 }
    ensures { IfOk result (λ t. (row : ℕ) → Lists (TakesFromRow circuit.now kind roots.now row) (table_row t row)) }
{
    let mut entries = Vec::new(alloc);
    for place in 0..roots.len() {
        push_root(circuit, parts, kind, roots, place, &mut entries)?;
    }
    let table = table_of(alloc, row_count(circuit, parts, kind), &entries)?;
    Ok(table)
}

/// The roots by what they take from.
pub fn sources_of(
    alloc: Global,
    circuit: &Circuit,
    parts: &Parts,
    roots: &[Drive],
) -> Result<Sources, NoMemory>
    requires valid { is_valid circuit.now ≡ true }
    requires parts { AreParts circuit.now parts.now.nodes.items parts.now.ports.items }
    requires roots { AreRoots circuit.now roots.now }
    requires few { length roots.now < 2 ^ 32 }
    ensures { IfOk result (λ s. AreSources circuit.now roots.now s) }
{
    Ok(Sources {
        inputs: table_by(alloc, circuit, parts, Kind::Input, roots)?,
        parts: table_by(alloc, circuit, parts, Kind::Part, roots)?,
        registers: table_by(alloc, circuit, parts, Kind::Register, roots)?,
        constants: table_by(alloc, circuit, parts, Kind::Constant, roots)?,
        ports: Vec::from_slice(alloc, parts.ports.as_slice())?,
    })
}
