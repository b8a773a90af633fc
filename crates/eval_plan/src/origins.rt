//! Where the wires from each bit end.
ghost use Rattle.std.specs.Prelude.{◌≡◌, ◌+◌, ◌<◌, IfOk, length, true, slice_get, slice_index, Some, ℕ};
ghost use Rattle.circuit.specs.Acyclic.{IsInOrder};
ghost use Rattle.circuit.specs.Valid.{is_valid};
ghost use Rattle.driver_check.specs.Depends.{Bit};
ghost use Rattle.driver_check.specs.Numbers.{IsBit, bit_number};
ghost use Rattle.eval_plan.specs.OrderInvariants.{AreOrigins, IsOrigin};
ghost use Rattle.driver_check.specs.Sorting.{IsSorting};

use circuit::Circuit;
use driver_check::Sorting;
use sim_base::NoMemory;
use std::alloc::Global;

/// The origin of the bit with a number: that of the bit at the other end of its wire, or the bit itself.
fn origin_of(
    circuit: &Circuit,
    sorting: &Sorting,
    origins: &[usize],
    place: usize,
    number: usize,
) -> usize
    requires valid { is_valid circuit.now ≡ true }
    requires sorting { IsSorting circuit.now sorting.now }
    requires length { length origins.now ≡ sorting.now.numbering.bits }
    requires inside { number < sorting.now.numbering.bits }
    requires at { slice_get sorting.now.search.order.items place ≡ Some number }
    requires origins { AreOrigins circuit.now sorting.now.search.order.items place origins.now }
    ensures { (x : Bit) → IsBit circuit.now.nets x → bit_number circuit.now.nets x ≡ number → IsOrigin circuit.now x result }
{
    let _ = circuit;
    let _ = place;
    let span = sorting.graph.bits[number];
    if span.width == 0 {
        return number;
    }
    if span.first < sorting.numbering.bits {
        origins[span.first]
    } else {
        number
    }
}

/// Notes the origin of a vertex, if it is that of a bit.
fn note_origin(circuit: &Circuit, sorting: &Sorting, origins: &mut Vec<usize>, place: usize)
    requires valid { is_valid circuit.now ≡ true }
    requires sorting { IsSorting circuit.now sorting.now }
    requires length { length origins.old.items ≡ sorting.now.numbering.bits }
    requires there { place < length sorting.now.search.order.items }
    requires origins { AreOrigins circuit.now sorting.now.search.order.items place origins.old.items }
    ensures length { length origins.new.items ≡ length origins.old.items }
    ensures origins { AreOrigins circuit.now sorting.now.search.order.items (place + 1) origins.new.items }
{
    let number = sorting.search.order[place];
    if number < sorting.numbering.bits {
        let origin = origin_of(circuit, sorting, origins, place, number);
        origins[number] = origin;
    }
}

/// The number of the bit at which the wires from each bit end.
pub fn origins_of(
    alloc: Global,
    circuit: &Circuit,
    sorting: &Sorting,
) -> Result<Vec<usize>, NoMemory>
    requires valid { is_valid circuit.now ≡ true }
    requires sorting { IsSorting circuit.now sorting.now }
    ensures { IfOk result (λ r. (length r.items ≡ sorting.now.numbering.bits) × AreOrigins circuit.now sorting.now.search.order.items (length sorting.now.search.order.items) r.items) }
{
    let mut origins = vec![in alloc; 0usize; sorting.numbering.bits]?;
    for place in 0..sorting.search.order.len() {
        note_origin(circuit, sorting, &mut origins, place);
    }
    Ok(origins)
}
