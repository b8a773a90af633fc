//! Lists that become a circuit.
ghost use Rattle.std.specs.Prelude.{◌≡◌, ◌<◌, ◌^◌, IfOk, map, option_copied};
ghost use Rattle.circuit.specs.Valid.{node_count};
ghost use Rattle.design_finish.specs.Finished.{IsFinished};

use crate::nodes::can_be_numbered;
use circuit::Circuit;
use design_items::arrange_items;
use design_starts::with_starts;
use rtlil_tree::Const;
use sim_base::NoMemory;
use std::alloc::Global;

/// The same constants, borrowed.
fn borrowed<'a, 't>(
    alloc: Global,
    inits: &'a [Option<Const<'t>>],
) -> Result<Vec<Option<&'a Const<'t>>>, NoMemory>
    ensures { IfOk result (λ found. map option_copied found.items ≡ inits.now) }
{
    let mut found = Vec::with_capacity(alloc, inits.len())?;
    for init in inits {
        found.push(init.as_ref())?;
    }
    Ok(found)
}

/// Finishes the lists that a design gives: the items in the byte order of their names, each with its slots, and the registers
/// with their start values, by the constants of `\init`, of which there is one entry for each net. For 2^32 slots, nets, or
/// cells and read ports together, and more, there is no memory.
pub fn finish(alloc: Global, made: Circuit, inits: &[Option<Const>]) -> Result<Circuit, NoMemory>
    ensures circuit { IfOk result (λ finished. IsFinished made inits.now finished) }
    ensures nodes { IfOk result (λ finished. node_count finished < 2 ^ 32) }
{
    if !can_be_numbered(&made) {
        return Err(NoMemory);
    }
    let unordered = made.items;
    let items = arrange_items(alloc, made.mems.as_slice(), unordered)?;
    let inits = borrowed(alloc, inits)?;
    with_starts(alloc, Circuit { items, ..made }, &inits)
}
