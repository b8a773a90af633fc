//! The walk along the bits that lead into a cycle.
ghost use Rattle.std.specs.Prelude.{◌≡◌, ℕ, ◌+◌, ◌<◌, ◌≤◌, ◌⊎◌, length, map, drop, true, IfOk, OnOk, slice_get, slice_index, Some};
ghost use Rattle.circuit.specs.Valid.{is_valid};
ghost use Rattle.driver_check.specs.Depends.{Bit};
ghost use Rattle.driver_check.specs.Faults.{IsNext, IsWalk, SaysLoop, named, says_loop};
ghost use Rattle.driver_check.specs.Numbers.{IsBit, IsIn, bit_number};
ghost use Rattle.driver_check.specs.Search.{Has, Needs};
ghost use Rattle.driver_check.specs.Invariants.{IsFirstMarked, IsLeastStuck, IsWalking};
ghost use Rattle.driver_check.specs.Sorting.{IsSorting};
ghost use Rattle.driver_check.specs.declared.search.Mark.TheVariants as mark;

use crate::faults::{bit_of, named_bit};
use crate::graph::Span;
use crate::search::{Mark, is_stuck};
use crate::sorting::Sorting;
use circuit::{BitAt, Circuit, DesignFault, DesignKind};
use sim_base::{Name, NoMemory};
use sqlite_items::Items;
use std::alloc::Global;

/// The least stuck vertex of a span, if it is below `least`, or else `least`.
fn stuck_within(marks: &[Mark], span: Span, least: usize) -> usize
    requires { (w : ℕ) → IsIn span.first span.width w → w < length marks.now }
    ensures most { result ≤ least }
    ensures below { (w : ℕ) → IsIn span.first span.width w → Has marks.now mark.Stuck w → result ≤ w }
    ensures is { (result ≡ least) ⊎ (IsIn span.first span.width result × Has marks.now mark.Stuck result) }
{
    for at in 0..span.width {
        if is_stuck(marks, span.first + at) {
            return least.min(span.first + at);
        }
    }
    least
}

/// The least stuck vertex of a row, if it is below `bound`, or else `bound`.
fn least_stuck(marks: &[Mark], row: &[Span], bound: usize) -> usize
    requires { (w : ℕ) → Needs row.now w → w < length marks.now }
    ensures { IsLeastStuck marks.now row.now bound result }
{
    let mut least = bound;
    for span in row {
        least = stuck_within(marks, *span, least);
    }
    least
}

impl Sorting {
    /// The number of the least stuck bit that a stuck bit depends on.
    fn next(&self, circuit: &Circuit, number: usize) -> usize
        requires valid { is_valid circuit.now ≡ true }
        requires sorting { IsSorting circuit.now self.now }
        requires there { number < self.now.numbering.bits }
        requires stuck { Has self.now.search.marks.items mark.Stuck number }
        ensures below { result < self.now.numbering.bits }
        ensures stuck { Has self.now.search.marks.items mark.Stuck result }
        ensures next { (x y : Bit) → IsBit circuit.now.nets x → IsBit circuit.now.nets y → bit_number circuit.now.nets x ≡ number → bit_number circuit.now.nets y ≡ result → IsNext circuit.now x y }
    {
        let _ = circuit;
        let bits = self.numbering.bits;
        let first = self.graph.bits[number].first;
        if first < bits {
            first
        } else {
            least_stuck(&self.search.marks, self.graph.row(first), bits)
        }
    }
}

/// A walk that has come to the bit with a number, and for each bit its place in the walk.
#[derive(Debug, Drop)]
struct Walk {
    bits: Vec<(u32, u32)>,
    seen: Vec<usize>,
    number: usize,
}

impl Walk {
    /// Adds the bit that the walk has come to, and goes on to the next one.
    fn go(&mut self, circuit: &Circuit, sorting: &Sorting) -> Result<(), NoMemory>
        requires valid { is_valid circuit.now ≡ true }
        requires sorting { IsSorting circuit.now sorting.now }
        requires walking { IsWalking circuit.now sorting.now self.old.bits.items self.old.seen.items self.old.number }
        requires new { length self.old.bits.items ≤ slice_index self.old.seen.items self.old.number }
        ensures longer { OnOk result (length self.new.bits.items ≡ length self.old.bits.items + 1) }
        ensures walking { OnOk result (IsWalking circuit.now sorting.now self.new.bits.items self.new.seen.items self.new.number) }
    {
        let number = self.number;
        let place = sorting.owners[number];
        let bit = bit_of(circuit, &sorting.numbering, place, number);
        self.seen[number] = self.bits.len();
        self.bits.push(bit)?;
        self.number = sorting.next(circuit, number);
        Ok(())
    }
}

/// Walks from the first stuck bit until a bit comes for the second time. Each turn adds a bit that was not
/// in the walk, so there are at most as many turns as there are bits.
fn walk_from(
    alloc: Global,
    circuit: &Circuit,
    sorting: &Sorting,
    first: usize,
) -> Result<Walk, NoMemory>
    requires valid { is_valid circuit.now ≡ true }
    requires sorting { IsSorting circuit.now sorting.now }
    requires there { first < sorting.now.numbering.bits }
    requires first { IsFirstMarked sorting.now first }
    ensures { IfOk result (λ w. (w.number < length w.seen.items) × IsWalk circuit.now w.bits.items (slice_index w.seen.items w.number)) }
{
    let mut walk = Walk {
        bits: Vec::new(alloc),
        seen: vec![in alloc; usize::MAX; sorting.numbering.bits]?,
        number: first,
    };
    'turns: while walk.seen[walk.number] >= walk.bits.len() {
        walk.go(circuit, sorting)?;
    }
    Ok(walk)
}

fn named_bits(
    alloc: Global,
    circuit: &Circuit,
    bits: &[(u32, u32)],
) -> Result<Items<BitAt>, NoMemory>
    ensures { IfOk result (λ named_bits. named_bits ≡ map (named circuit.now) bits.now) }
{
    let mut named = Items::new(alloc);
    for bit in bits {
        named.push(named_bit(alloc, circuit, *bit)?)?;
    }
    Ok(named)
}

/// The fault of the cycle that a walk from the first stuck bit comes to.
pub fn comb_loop(
    alloc: Global,
    circuit: &Circuit,
    sorting: &Sorting,
    first: usize,
) -> Result<DesignFault, NoMemory>
    requires valid { is_valid circuit.now ≡ true }
    requires sorting { IsSorting circuit.now sorting.now }
    requires there { first < sorting.now.numbering.bits }
    requires first { IsFirstMarked sorting.now first }
    ensures { IfOk result (λ f. SaysLoop circuit.now f) }
{
    let walk = walk_from(alloc, circuit, sorting, first)?;
    let again = walk.seen[walk.number];
    Ok(DesignFault {
        kind: DesignKind::CombLoop,
        place: Name::new(Vec::new(alloc)),
        bits: named_bits(alloc, circuit, &walk.bits[again..])?,
        drives: Items::new(alloc),
    })
}
