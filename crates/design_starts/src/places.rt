//! Places for the bits of all nets.
ghost use Rattle.std.specs.Prelude.{◌≡◌, ◌<◌, ◌^◌, IfOk, MatchOption};
ghost use Rattle.driver_check.specs.Numbers.{IsBit, IsNumbering, bit_number};

use circuit::Net;
use sim_base::NoMemory;
use std::alloc::Global;

/// The place of each net's first bit, net by net, and how many bits there are.
#[derive(Debug, Drop)]
pub(crate) struct Places {
    pub firsts: Vec<u32>,
    pub bits: u32,
}

/// Gives each bit a place. For nets of 2^32 bits and more there is no memory.
pub(crate) fn places_of(alloc: Global, nets: &[Net]) -> Result<Places, NoMemory>
    ensures { IfOk result (λ p. IsNumbering nets.now p.firsts.items p.bits) }
{
    let mut firsts = Vec::new(alloc);
    let mut bits = 0u32;
    for net in nets {
        firsts.push(bits)?;
        if net.width > u32::MAX - bits {
            return Err(NoMemory);
        }
        bits += net.width;
    }
    Ok(Places { firsts, bits })
}

impl Places {
    /// The place of a bit, if it is one of a net.
    pub fn place(&self, nets: &[Net], net: u32, bit: u64) -> Option<usize>
        requires { IsNumbering nets.now self.now.firsts.items self.now.bits }
        ensures { MatchOption result (IsBit nets.now (net, bit) → ⊥) (λ place. IsBit nets.now (net, bit) × (place ≡ bit_number nets.now (net, bit))) }
    {
        let width = nets.get(net as usize)?.width;
        if bit >= width as u64 {
            return None;
        }
        Some(self.firsts[net as usize] as usize + bit as usize)
    }
}
