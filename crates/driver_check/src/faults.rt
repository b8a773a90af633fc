//! The faults of a circuit's drives.
ghost use Rattle.std.specs.Prelude.{◌≡◌, ℕ, ◌<◌, ◌≤◌, length, true, IfOk, slice_get, Some};
ghost use Rattle.circuit.specs.Valid.{is_valid};
ghost use Rattle.circuit.specs.declared.netlist.Drive.{Drive as TheDrive};
ghost use Rattle.driver_check.specs.Faults.{Covers, IsFirstShared, SaysTwoDrivers, named, says_two_drivers};
ghost use Rattle.driver_check.specs.Numbers.{IsBit, IsIn, IsNumbering, bit_number, start_of};
ghost use Rattle.driver_check.specs.Owners.{AreOwners};
ghost use Rattle.driver_check.specs.Invariants.{IsLeastShared, IsNextCover};

use crate::drivers::next_cover;
use crate::numbering::Numbering;
use circuit::{BitAt, Circuit, DesignFault, DesignKind};
use sim_base::{Name, NoMemory};
use sqlite_items::Items;
use std::alloc::Global;

/// The bit with this number, which the drive at a place covers.
pub fn bit_of(circuit: &Circuit, numbering: &Numbering, place: usize, number: usize) -> (u32, u32)
    requires valid { is_valid circuit.now ≡ true }
    requires numbers { IsNumbering circuit.now.nets numbering.now.firsts.items numbering.now.bits }
    requires there { place < length circuit.now.drives }
    requires inside { (d : TheDrive) → slice_get circuit.now.drives place ≡ Some d → IsIn (start_of circuit.now.nets d) d.width number }
    ensures number { bit_number circuit.now.nets (result.0, result.1) ≡ number }
    ensures covers { Covers circuit.now place (result.0, result.1) }
{
    let drive = &circuit.drives.as_slice()[place];
    let bit = number - numbering.firsts[drive.net as usize];
    (drive.net, bit as u32)
}

/// A bit, with the path of its net.
pub fn named_bit(alloc: Global, circuit: &Circuit, bit: (u32, u32)) -> Result<BitAt, NoMemory>
    ensures { IfOk result (λ b. b ≡ named circuit.now bit) }
{
    let net = match circuit.nets.get(bit.0 as usize) {
        Some(net) => Name::copy_of(alloc, net.path.as_bytes())?,
        None => Name::new(Vec::new(alloc)),
    };
    Ok(BitAt { net, bit: bit.1 })
}

/// The fault of a bit that two drives share.
fn shared_fault(
    alloc: Global,
    circuit: &Circuit,
    bit: (u32, u32),
    first: usize,
    second: usize,
) -> Result<DesignFault, NoMemory>
    ensures { IfOk result (λ f. f ≡ says_two_drivers circuit.now bit first second) }
{
    let mut bits = Items::new(alloc);
    bits.push(named_bit(alloc, circuit, bit)?)?;
    let mut drives = Items::new(alloc);
    drives.push(first as u64)?;
    drives.push(second as u64)?;
    Ok(DesignFault {
        kind: DesignKind::TwoDrivers,
        place: Name::new(Vec::new(alloc)),
        bits,
        drives,
    })
}

/// The fault of the least bit that two drives share, which has the number `least`.
pub fn two_drivers(
    alloc: Global,
    circuit: &Circuit,
    numbering: &Numbering,
    owners: &[usize],
    least: usize,
) -> Result<DesignFault, NoMemory>
    requires valid { is_valid circuit.now ≡ true }
    requires numbers { IsNumbering circuit.now.nets numbering.now.firsts.items numbering.now.bits }
    requires length { length owners.now ≡ numbering.now.bits }
    requires owners { AreOwners circuit.now (length circuit.now.drives) owners.now }
    requires shared { IsLeastShared circuit.now (length circuit.now.drives) least numbering.now.bits }
    requires some { least < numbering.now.bits }
    ensures { IfOk result (λ f. SaysTwoDrivers circuit.now f) }
{
    let first = owners[least];
    let bit = bit_of(circuit, numbering, first, least);
    let second = next_cover(circuit.drives.as_slice(), first, bit.0, bit.1);
    shared_fault(alloc, circuit, bit, first, second)
}
