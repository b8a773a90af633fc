//! The drives of a circuit with the wires between left out.
ghost use Rattle.std.specs.Prelude.{◌≡◌, ◌≢◌, ℕ, ◌+◌, ◌-◌, ◌<◌, ◌≤◌, IfOk, OnOk, length, true, slice_get, slice_index, Some};
ghost use Rattle.std.specs.Int.{bit_at};
ghost use Rattle.circuit.specs.Valid.{drive_fits, driver_fits, drivers_of, is_valid};
ghost use Rattle.circuit.specs.Acyclic.{IsInOrder};
ghost use Rattle.circuit.specs.declared.netlist.Drive.{Drive as TheDrive};
ghost use Rattle.driver_check.specs.Numbers.{start_of};
ghost use Rattle.eval_plan.specs.OrderInvariants.{AreAllOrigins, AreRootsOf, IsRun};
ghost use Rattle.eval_plan.specs.Roots.{AreRoots, root_source};
ghost use Rattle.driver_check.specs.Sorting.{IsSorting};

use circuit::{By, Circuit, Drive};
use driver_check::Sorting;
use sim_base::{Bits, NoMemory};
use sqlite_items::Items;
use std::alloc::Global;

/// What drives, from the bit at `offset` of a drive on, for so many bits.
fn shifted(
    alloc: Global,
    circuit: &Circuit,
    drive: &Drive,
    offset: u32,
    count: u32,
) -> Result<By, NoMemory>
    requires valid { is_valid circuit.now ≡ true }
    requires fits { drive_fits (drivers_of circuit.now) drive.now ≡ true }
    requires within { offset + count ≤ drive.now.width }
    ensures fits { IfOk result (λ b. driver_fits (drivers_of circuit.now) count b ≡ true) }
    ensures source { IfOk result (λ b. (j : ℕ) → j < count → root_source b j ≡ root_source drive.now.by (offset + j)) }
{
    let _ = circuit;
    Ok(match &drive.by {
        By::Const(bits) => By::Const(part_of(alloc, bits, offset, count)?),
        By::Input(n, at) => By::Input(*n, *at + offset),
        By::Wire(n, at) => By::Wire(*n, *at + offset),
        By::Cell(n, at) => By::Cell(*n, *at + offset),
        By::Reg(n, at) => By::Reg(*n, *at + offset),
        By::Read(m, n, at) => By::Read(*m, *n, *at + offset),
    })
}

/// So many bits of a value, from the one at `offset` on.
fn part_of(alloc: Global, bits: &Bits, offset: u32, count: u32) -> Result<Bits, NoMemory>
    requires { offset + count ≤ bits.now.width }
    ensures width { IfOk result (λ b. b.width ≡ count) }
    ensures digits { IfOk result (λ b. (j : ℕ) → j < count → bit_at b.number j ≡ bit_at bits.now.number (offset + j)) }
{
    let mut part = Bits::zero(alloc, count)?;
    part.copy(0, bits, offset, count);
    Ok(part)
}

/// How many bits from one on, of so many, have origins in a row that have one owner.
fn run_length(owners: &[usize], origins: &[usize], first: usize, width: usize) -> usize
    requires some { 0 < width }
    requires inside { first + width ≤ length origins.now }
    requires origins { (v : ℕ) → first ≤ v → v < first + width → slice_index origins.now v < length owners.now }
    ensures some { 0 < result }
    ensures within { result ≤ width }
    ensures run { IsRun owners.now origins.now first result }
{
    let origin = origins[first];
    let owner = owners[origin];
    for count in 1..width {
        let next = origins[first + count];
        if next != origin + count || owners[next] != owner {
            return count;
        }
    }
    width
}

/// The root that gives so many bits of a drive, from the one at `at` on, whose origins begin with a number
/// and have the drive `owner`.
fn root_of(
    alloc: Global,
    circuit: &Circuit,
    sorting: &Sorting,
    drive: &Drive,
    at: u32,
    count: u32,
    owner: &Drive,
    origin: usize,
) -> Result<Drive, NoMemory>
    requires valid { is_valid circuit.now ≡ true }
    requires sorting { IsSorting circuit.now sorting.now }
    requires drive { drive_fits (drivers_of circuit.now) drive.now ≡ true }
    requires owner { drive_fits (drivers_of circuit.now) owner.now ≡ true }
    requires inside { at + count ≤ drive.now.width }
    requires origin { start_of circuit.now.nets owner.now ≤ origin }
    requires owner_inside { origin + count ≤ start_of circuit.now.nets owner.now + owner.now.width }
    ensures net { IfOk result (λ r. r.net ≡ drive.now.net) }
    ensures at { IfOk result (λ r. r.at ≡ drive.now.at + at) }
    ensures width { IfOk result (λ r. r.width ≡ count) }
    ensures fits { IfOk result (λ r. drive_fits (drivers_of circuit.now) r ≡ true) }
    ensures source { IfOk result (λ r. (j : ℕ) → j < count → root_source r.by j ≡ root_source owner.now.by (origin - start_of circuit.now.nets owner.now + j)) }
{
    let start = sorting.numbering.start(circuit.nets.as_slice(), owner);
    let by = shifted(alloc, circuit, owner, (origin - start) as u32, count)?;
    Ok(Drive {
        net: drive.net,
        at: drive.at + at,
        width: count,
        by,
    })
}

/// Adds the root of a run, unless no drive gives its bits.
fn push_run(
    alloc: Global,
    circuit: &Circuit,
    sorting: &Sorting,
    origins: &[usize],
    place: usize,
    at: u32,
    count: u32,
    roots: &mut Items<Drive>,
) -> Result<(), NoMemory>
    requires valid { is_valid circuit.now ≡ true }
    requires sorting { IsSorting circuit.now sorting.now }
    requires order { IsInOrder circuit.now }
    requires origins { AreAllOrigins circuit.now origins.now }
    requires length { length origins.now ≡ sorting.now.numbering.bits }
    requires there { place < length circuit.now.drives }
    requires some { 0 < count }
    requires inside { (d : TheDrive) → slice_get circuit.now.drives place ≡ Some d → at + count ≤ d.width }
    requires run { (d : TheDrive) → slice_get circuit.now.drives place ≡ Some d → IsRun sorting.now.owners.items origins.now (start_of circuit.now.nets d + at) count }
    requires roots { AreRootsOf circuit.now place at roots.old }
    ensures { OnOk result (AreRootsOf circuit.now place (at + count) roots.new) }
{
    let drives = circuit.drives.as_slice();
    let drive = &drives[place];
    let start = sorting.numbering.start(circuit.nets.as_slice(), drive);
    let origin = origins[start + at as usize];
    let owner = sorting.owners[origin];
    if owner < drives.len() {
        roots.push(root_of(
            alloc,
            circuit,
            sorting,
            drive,
            at,
            count,
            &drives[owner],
            origin,
        )?)?;
    }
    Ok(())
}

/// Adds the roots of a drive.
fn push_drive(
    alloc: Global,
    circuit: &Circuit,
    sorting: &Sorting,
    origins: &[usize],
    place: usize,
    roots: &mut Items<Drive>,
) -> Result<(), NoMemory>
    requires valid { is_valid circuit.now ≡ true }
    requires sorting { IsSorting circuit.now sorting.now }
    requires order { IsInOrder circuit.now }
    requires origins { AreAllOrigins circuit.now origins.now }
    requires length { length origins.now ≡ sorting.now.numbering.bits }
    requires there { place < length circuit.now.drives }
    requires roots { AreRootsOf circuit.now place 0 roots.old }
    ensures { OnOk result (AreRootsOf circuit.now (place + 1) 0 roots.new) }
{
    let drive = &circuit.drives.as_slice()[place];
    let start = sorting.numbering.start(circuit.nets.as_slice(), drive);
    let width = drive.width as usize;
    let mut at = 0usize;
    while at < width {
        let count = run_length(&sorting.owners, origins, start + at, width - at);
        push_run(
            alloc,
            circuit,
            sorting,
            origins,
            place,
            at as u32,
            count as u32,
            roots,
        )?;
        at += count;
    }
    Ok(())
}

/// The drives with the wires between left out: each root gives bits that no other gives, and names where
/// they come from.
pub fn roots_of(
    alloc: Global,
    circuit: &Circuit,
    sorting: &Sorting,
    origins: &[usize],
) -> Result<Items<Drive>, NoMemory>
    requires valid { is_valid circuit.now ≡ true }
    requires sorting { IsSorting circuit.now sorting.now }
    requires order { IsInOrder circuit.now }
    requires origins { AreAllOrigins circuit.now origins.now }
    requires length { length origins.now ≡ sorting.now.numbering.bits }
    ensures { IfOk result (λ roots. AreRoots circuit.now roots) }
{
    let mut roots = Items::new(alloc);
    for place in 0..circuit.drives.len() {
        push_drive(alloc, circuit, sorting, origins, place, &mut roots)?;
    }
    Ok(roots)
}
