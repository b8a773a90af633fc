//! The drive of each bit, and bits with two drives.
ghost use Rattle.std.specs.Prelude.{◌≡◌, ◌≢◌, ◌⊎◌, ℕ, ◌+◌, ◌<◌, ◌≤◌, ◌==◌, length, true, IfOk, slice_index, slice_get, Some, if◌then◌else◌, ◌&&◌, nat_le, nat_lt};
ghost use Rattle.circuit.specs.Valid.{is_valid};
ghost use Rattle.circuit.specs.Valuation.{covers};
ghost use Rattle.driver_check.specs.Numbers.{IsIn, IsNumbering};
ghost use Rattle.driver_check.specs.Owners.{AreOwners};
ghost use Rattle.driver_check.specs.Invariants.{IsLeastShared, IsNextCover};

use crate::numbering::Numbering;
use circuit::{Circuit, Drive};
use sim_base::NoMemory;
use std::alloc::Global;

/// Gives the bits that have no owner, of those from `first` on, to the drive at a place.
fn claim(owners: &mut Vec<usize>, first: usize, width: usize, place: usize, nobody: usize)
    requires { first + width ≤ length owners.old.items }
    ensures length { length owners.new.items ≡ length owners.old.items }
    ensures owners { (v : ℕ) → slice_index owners.new.items v ≡ (if (nat_le first v && nat_lt v (first + width)) && slice_index owners.old.items v == nobody then place else slice_index owners.old.items v) }
{
    for at in 0..width {
        if owners[first + at] == nobody {
            owners[first + at] = place;
        }
    }
}

/// The least number, below `least`, of a bit from `first` on that another drive owns, or else `least`.
fn shared_within(owners: &[usize], first: usize, width: usize, place: usize, least: usize) -> usize
    requires { first + width ≤ length owners.now }
    ensures most { result ≤ least }
    ensures below { (v : ℕ) → IsIn first width v → slice_index owners.now v ≢ place → result ≤ v }
    ensures is { (result ≡ least) ⊎ (IsIn first width result × (slice_index owners.now result ≢ place)) }
{
    for at in 0..width {
        if owners[first + at] != place {
            return least.min(first + at);
        }
    }
    least
}

/// The place of the first drive that covers each bit, by the number of the bit.
pub fn owners(
    alloc: Global,
    circuit: &Circuit,
    numbering: &Numbering,
) -> Result<Vec<usize>, NoMemory>
    requires valid { is_valid circuit.now ≡ true }
    requires numbers { IsNumbering circuit.now.nets numbering.now.firsts.items numbering.now.bits }
    ensures { IfOk result (λ owners. (length owners.items ≡ numbering.now.bits) × AreOwners circuit.now (length circuit.now.drives) owners.items) }
{
    let drives = circuit.drives.as_slice();
    let nobody = drives.len();
    let mut owners = vec![in alloc; nobody; numbering.bits]?;
    for (place, drive) in drives.iter().enumerate() {
        let first = numbering.start(circuit.nets.as_slice(), drive);
        claim(&mut owners, first, drive.width as usize, place, nobody);
    }
    Ok(owners)
}

/// The least number of a bit that two drives share, or else how many bits there are.
pub fn least_shared(circuit: &Circuit, numbering: &Numbering, owners: &[usize]) -> usize
    requires valid { is_valid circuit.now ≡ true }
    requires numbers { IsNumbering circuit.now.nets numbering.now.firsts.items numbering.now.bits }
    requires length { length owners.now ≡ numbering.now.bits }
    requires owners { AreOwners circuit.now (length circuit.now.drives) owners.now }
    ensures { IsLeastShared circuit.now (length circuit.now.drives) result numbering.now.bits }
{
    let mut least = numbering.bits;
    for (place, drive) in circuit.drives.as_slice().iter().enumerate() {
        let first = numbering.start(circuit.nets.as_slice(), drive);
        least = shared_within(owners, first, drive.width as usize, place, least);
    }
    least
}

fn covers_bit(drive: &Drive, net: u32, bit: u32) -> bool
    ensures { result ≡ covers net bit drive.now }
{
    drive.net == net
        && (drive.at <= bit && u64::from(bit) < u64::from(drive.at) + u64::from(drive.width))
}

/// The place of the first drive behind another one that covers a bit, or else how many there are.
pub fn next_cover(drives: &[Drive], first: usize, net: u32, bit: u32) -> usize
    requires { first < length drives.now }
    ensures { IsNextCover drives.now first net bit result }
{
    for place in first + 1..drives.len() {
        if covers_bit(&drives[place], net, bit) {
            return place;
        }
    }
    drives.len()
}
