//! Numbers for the bits of a circuit's nets.
ghost use Rattle.std.specs.Prelude.{◌≡◌, ℕ, ◌+◌, ◌<◌, ◌≤◌, ◌^◌, length, IfOk, slice_index, slice_get, Some};
ghost use Rattle.circuit.specs.declared.netlist.Net.{Net as TheNet};
ghost use Rattle.driver_check.specs.Numbers.{IsInsideNet, IsNumbering, before, bit_count, start_of, width_of};

use circuit::{Drive, Net};
use sim_base::NoMemory;
use std::alloc::Global;

/// The number of the first bit of each net, and how many bits there are.
#[derive(Debug, Drop)]
pub struct Numbering {
    pub firsts: Vec<usize>,
    pub bits: usize,
}

impl Numbering {
    /// The number of a bit, or of the one behind the last bit of the net.
    pub fn number(&self, nets: &[Net], net: u32, at: u32) -> usize
        requires numbers { IsNumbering nets.now self.now.firsts.items self.now.bits }
        requires inside { (x : TheNet) × (slice_get nets.now net ≡ Some x) × (at ≤ x.width) }
        requires few { bit_count nets.now < 2 ^ 63 }
        ensures value { result ≡ before width_of nets.now net + at }
        ensures few { result < 2 ^ 63 }
    {
        let _ = nets;
        self.firsts[net as usize] + at as usize
    }

    /// The number of the first bit of a drive.
    pub fn start(&self, nets: &[Net], drive: &Drive) -> usize
        requires numbers { IsNumbering nets.now self.now.firsts.items self.now.bits }
        requires inside { IsInsideNet nets.now drive.now }
        requires few { bit_count nets.now < 2 ^ 63 }
        ensures value { result ≡ start_of nets.now drive.now }
        ensures inside { result + drive.now.width ≤ self.now.bits }
    {
        let _ = nets;
        self.firsts[drive.net as usize] + drive.at as usize
    }
}

/// Numbers all bits, net by net.
pub fn number_bits(alloc: Global, nets: &[Net]) -> Result<Numbering, NoMemory>
    requires { (n : ℕ) → before width_of nets.now n < 2 ^ 63 }
    ensures { IfOk result (λ r. IsNumbering nets.now r.firsts.items r.bits) }
{
    let mut firsts = Vec::new(alloc);
    let mut bits = 0usize;
    for net in nets {
        firsts.push(bits)?;
        bits += net.width as usize;
    }
    Ok(Numbering { firsts, bits })
}
