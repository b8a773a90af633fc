//! What each bit is taken from by its drive.
ghost use Rattle.std.specs.Prelude.{◌≡◌, ◌-◌, IfOk, length, slice_get, Some, if◌then◌else◌};
ghost use Rattle.circuit.specs.Valuation.{covers};
ghost use Rattle.driver_check.specs.Depends.{Bit};
ghost use Rattle.driver_check.specs.Numbers.{IsBit, IsNumbering, bit_number};
ghost use Rattle.design_starts.specs.Chains.{Stands, taken_by, taken_of};

use crate::places::Places;
use circuit::{By, Circuit, Drive, Net};
use sim_base::NoMemory;
use std::alloc::Global;

/// What a bit is taken from, as far as registers need it.
#[derive(Clone, Copy, Debug, PartialEq, Eq)]
pub(crate) enum Taken {
    /// No register, and no bit of a net.
    Nothing,
    /// A net, and its bit.
    Bit(u32, u64),
    /// A register, and its bit.
    Register(u32, u64),
}

/// What a driver takes its i-th bit from.
fn taken_by(by: &By, i: u32) -> Taken
    ensures { result ≡ taken_by by.now i }
{
    match by {
        By::Reg(register, at) => Taken::Register(*register, *at as u64 + i as u64),
        By::Wire(net, at) => Taken::Bit(*net, *at as u64 + i as u64),
        By::Const(_) | By::Input(_, _) | By::Cell(_, _) | By::Read(_, _, _) => Taken::Nothing,
    }
}

/// Takes the bits that a drive covers from what drives.
fn take(table: &mut Vec<Taken>, places: &Places, nets: &[Net], drive: &Drive)
    requires places { IsNumbering nets.now places.now.firsts.items places.now.bits }
    requires long { length table.old.items ≡ places.now.bits }
    ensures long { length table.new.items ≡ length table.old.items }
    ensures taken { (x : Bit) → IsBit nets.now x → slice_get table.new.items (bit_number nets.now x) ≡ (if covers x.0 x.1 drive.now then Some (taken_by drive.now.by (x.1 - drive.now.at)) else slice_get table.old.items (bit_number nets.now x)) }
{
    for i in 0..drive.width {
        if let Some(place) = places.place(nets, drive.net, drive.at as u64 + i as u64) {
            table[place] = taken_by(&drive.by, i);
        }
    }
}

/// For each bit what its first drive takes it from.
pub(crate) fn taken_of(
    alloc: Global,
    circuit: &Circuit,
    places: &Places,
) -> Result<Vec<Taken>, NoMemory>
    requires { IsNumbering circuit.now.nets places.now.firsts.items places.now.bits }
    ensures long { IfOk result (λ table. length table.items ≡ places.now.bits) }
    ensures taken { IfOk result (λ table. (x : Bit) → IsBit circuit.now.nets x → Stands circuit.now table.items x (taken_of circuit.now x)) }
{
    let drives = circuit.drives.as_slice();
    let mut table = vec![in alloc; Taken::Nothing; places.bits as usize]?;
    for done in 0..drives.len() {
        let drive = &drives[drives.len() - 1 - done];
        take(&mut table, places, circuit.nets.as_slice(), drive);
    }
    Ok(table)
}
