//! Values written to the bits of roots.
ghost use Rattle.std.specs.Prelude.{◌≡◌, ℕ, ◌+◌, ◌-◌, ◌<◌, ◌≤◌, ◌⊎◌, List, Some, true, false, length, slice_get, if◌then◌else◌};
ghost use Rattle.std.specs.Int.{bit_at};
ghost use Rattle.sim_base.specs.BitValue.{BitValue};
ghost use Rattle.circuit.specs.Valuation.{covers, offset_of};
ghost use Rattle.circuit.specs.declared.netlist.Drive.{Drive as TheDrive};
ghost use Rattle.driver_check.specs.Depends.{Bit};
ghost use Rattle.sim_base.specs.Values.{width_at, widths};
ghost use Rattle.dirty_set.specs.Marks.{IsMarked};
ghost use Rattle.eval_plan.specs.Tables.{table_row};
ghost use Rattle.eval_plan.specs.declared.table.Table.{Table as TheTable};
ghost use Rattle.signal_words.specs.Values.{digits_in};
ghost use Rattle.eval_plan.specs.Roots.{AreApart};
ghost use Rattle.eval_commit.specs.Marked.{AreTold, HaveMarks, ReadListed};
ghost use Rattle.eval_commit.specs.Spread.{AreRootsInside, IsRootInside, IsSpread, taken_digit};
ghost use Rattle.eval_commit.specs.Seeding.{HasKept, IsSeeded, Kept, is_kept, kept_value};

use crate::marks::mark_all;
use circuit::{By, Drive, Listing};
use dirty_set::DirtySet;
use eval_plan::Table;
use sim_base::{Bits, BitsView, Values};

/// Writes the bits of a root, and tells whether its net changed.
fn put(nets: &mut Values, root: &Drive, from: &BitsView) -> bool
    requires inside { IsRootInside nets.old root.now }
    requires from_inside { offset_of root.now.by + root.now.width ≤ from.now.width }
    ensures widths { widths nets.new ≡ widths nets.old }
    ensures digits { (x : Bit) → digits_in nets.new x.0 x.1 ≡ (if covers x.0 x.1 root.now then taken_digit from.now.number root.now x else digits_in nets.old x.0 x.1) }
    ensures same { result ≡ false → nets.new ≡ nets.old }
{
    nets.copy(root.net, root.at, from, root.by.offset(), root.width)
}

/// Writes the bits of a root, and marks what reads it where its net changed.
fn put_root(nets: &mut Values, root: &Drive, from: &BitsView, readers: &[u32], marks: &mut DirtySet)
    requires inside { IsRootInside nets.old root.now }
    requires from_inside { offset_of root.now.by + root.now.width ≤ from.now.width }
    requires marks { (i k : ℕ) → slice_get readers.now i ≡ Some k → k < marks.old.width }
    ensures widths { widths nets.new ≡ widths nets.old }
    ensures digits { (x : Bit) → digits_in nets.new x.0 x.1 ≡ (if covers x.0 x.1 root.now then taken_digit from.now.number root.now x else digits_in nets.old x.0 x.1) }
    ensures told { (roots : List TheDrive) (table : TheTable) (place : ℕ) → AreApart roots → slice_get roots place ≡ Some root.now → readers.now ≡ table_row table place → AreTold roots table nets.old nets.new marks.old marks.new }
    ensures listed { (k : ℕ) → IsMarked marks.new k → IsMarked marks.old k ⊎ ((i : ℕ) × (slice_get readers.now i ≡ Some k)) }
{
    if put(nets, root, from) {
        mark_all(marks, readers);
    }
}

/// Writes the bits of the listed roots, which take from one value, and marks what reads a root whose net
/// changed. It takes no memory.
pub(crate) fn spread(
    nets: &mut Values,
    roots: &[Drive],
    places: &[u32],
    from: &BitsView,
    readers: &Table,
    marks: &mut DirtySet,
)
    requires apart { AreApart roots.now }
    requires inside { AreRootsInside nets.old roots.now }
    requires listed { (j k : ℕ) → slice_get places.now j ≡ Some k → (r : TheDrive) × (slice_get roots.now k ≡ Some r) × (offset_of r.by + r.width ≤ from.now.width) }
    requires marks { HaveMarks readers.now marks.old }
    ensures widths { widths nets.new ≡ widths nets.old }
    ensures spread { IsSpread roots.now places.now (length places.now) from.now.number nets.old nets.new }
    ensures told { AreTold roots.now readers.now nets.old nets.new marks.old marks.new }
    ensures listed { ReadListed readers.now places.now marks.old marks.new }
{
    for place in places {
        let root = &roots[*place as usize];
        put_root(nets, root, from, readers.row(*place as usize), marks);
    }
}

/// Writes the bits of a root that takes a kept value, and marks what reads it where its net changed.
fn put_kept(
    nets: &mut Values,
    root: &Drive,
    inputs: &[Bits],
    regs: &Values,
    reads: &[Listing<Bits>],
    readers: &[u32],
    marks: &mut DirtySet,
)
    requires inside { IsRootInside nets.old root.now }
    requires kept { HasKept (record { inputs = inputs.now; regs = regs.now; reads = reads.now }) root.now }
    requires marks { (i k : ℕ) → slice_get readers.now i ≡ Some k → k < marks.old.width }
    ensures widths { widths nets.new ≡ widths nets.old }
    ensures digits { (v : BitValue) (x : Bit) → is_kept root.now.by ≡ true → kept_value (record { inputs = inputs.now; regs = regs.now; reads = reads.now }) root.now.by ≡ Some v
        → digits_in nets.new x.0 x.1 ≡ (if covers x.0 x.1 root.now then taken_digit v.number root.now x else digits_in nets.old x.0 x.1) }
    ensures other { is_kept root.now.by ≡ false → nets.new ≡ nets.old }
    ensures told { (roots : List TheDrive) (table : TheTable) (place : ℕ) → AreApart roots → slice_get roots place ≡ Some root.now → readers.now ≡ table_row table place → AreTold roots table nets.old nets.new marks.old marks.new }
{
    match &root.by {
        By::Const(v) => put_root(nets, root, &v.view(), readers, marks),
        By::Input(n, _) => put_root(nets, root, &inputs[*n as usize].view(), readers, marks),
        By::Reg(n, _) => put_root(nets, root, &regs.view(*n), readers, marks),
        By::Read(m, n, _) => {
            let from = reads[*m as usize].as_slice()[*n as usize].view();
            put_root(nets, root, &from, readers, marks);
        }
        By::Wire(_, _) | By::Cell(_, _) => {}
    }
}

/// Writes the bits of all roots that take kept values, and marks what reads a root whose net changed.
pub(crate) fn seed(
    nets: &mut Values,
    roots: &[Drive],
    inputs: &[Bits],
    regs: &Values,
    reads: &[Listing<Bits>],
    readers: &Table,
    marks: &mut DirtySet,
)
    requires apart { AreApart roots.now }
    requires inside { AreRootsInside nets.old roots.now }
    requires kept { (i : ℕ) (r : TheDrive) → slice_get roots.now i ≡ Some r → HasKept (record { inputs = inputs.now; regs = regs.now; reads = reads.now }) r }
    requires marks { HaveMarks readers.now marks.old }
    ensures widths { widths nets.new ≡ widths nets.old }
    ensures seeded { IsSeeded roots.now (record { inputs = inputs.now; regs = regs.now; reads = reads.now }) (length roots.now) nets.old nets.new }
    ensures told { AreTold roots.now readers.now nets.old nets.new marks.old marks.new }
{
    for (place, root) in roots.iter().enumerate() {
        put_kept(nets, root, inputs, regs, reads, readers.row(place), marks);
    }
}
