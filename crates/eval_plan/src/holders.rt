//! The root of each bit.
ghost use Rattle.std.specs.Prelude.{◌≡◌, ℕ, ◌+◌, ◌<◌, ◌≤◌, ◌^◌, length, true, IfOk, slice_index, if◌then◌else◌, ◌&&◌, nat_le, nat_lt};
ghost use Rattle.circuit.specs.Valid.{is_valid};
ghost use Rattle.driver_check.specs.Numbers.{IsNumbering};
ghost use Rattle.eval_plan.specs.TableInvariants.{AreHolders};
ghost use Rattle.eval_plan.specs.Roots.{AreRoots};

use circuit::{Circuit, Drive};
use driver_check::Numbering;
use sim_base::NoMemory;
use std::alloc::Global;

/// Gives the bits from `first` on to a root.
fn hold(holders: &mut Vec<u32>, first: usize, width: usize, place: u32)
    requires { first + width ≤ length holders.old.items }
    ensures length { length holders.new.items ≡ length holders.old.items }
    ensures holders { (v : ℕ) → slice_index holders.new.items v ≡ (if nat_le first v && nat_lt v (first + width) then place else slice_index holders.old.items v) }
{
    for at in 0..width {
        holders[first + at] = place;
    }
}

/// The place of the root that covers each bit, by the number of the bit, or else 2^32 - 1.
pub fn holders_of(
    alloc: Global,
    circuit: &Circuit,
    numbering: &Numbering,
    roots: &[Drive],
) -> Result<Vec<u32>, NoMemory>
    requires valid { is_valid circuit.now ≡ true }
    requires numbers { IsNumbering circuit.now.nets numbering.now.firsts.items numbering.now.bits }
    requires roots { AreRoots circuit.now roots.now }
    requires few { length roots.now < 2 ^ 32 }
    ensures long { IfOk result (λ h. length h.items ≡ numbering.now.bits) }
    ensures holders { IfOk result (λ h. AreHolders circuit.now roots.now (length roots.now) h.items) }
{
    let mut holders = vec![in alloc; u32::MAX; numbering.bits]?;
    for (place, root) in roots.iter().enumerate() {
        let first = numbering.start(circuit.nets.as_slice(), root);
        hold(&mut holders, first, root.width as usize, place as u32);
    }
    Ok(holders)
}
