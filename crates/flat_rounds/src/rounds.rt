//! Rounds and samples of a flat circuit.
ghost use Rattle.std.specs.Prelude.{◌≡◌, ℕ, ◌<◌, true, false, Some, None, IfOk, length, slice_index};
ghost use Rattle.circuit.specs.Next.{next};
ghost use Rattle.circuit.specs.Rounds.{settled, start, start_state};
ghost use Rattle.circuit.specs.State.{same_state};
ghost use Rattle.circuit.specs.Valuation.{valuation};
ghost use Rattle.flat_design.specs.Flat.{IsFlat};
ghost use Rattle.flat_rounds.specs.Fits.{AreInputs, IsStandingOf};
ghost use Rattle.flat_rounds.specs.Pass.{AreRegNumbers};

use crate::clock::clock;
use crate::nets::evaluate;
use crate::room::zeros;
use circuit::Circuit;
use sim_base::NoMemory;
use std::alloc::Global;
use std::marker::Model;
use std::mem;

/// The most rounds of a sample.
const MOST_ROUNDS: u32 = 256;

/// How a circuit stands: the number of each register, and of each net in the last round.
#[derive(Drop)]
pub struct Rounds {
    regs: Vec<u64>,
    nets: Vec<u64>,
    next_regs: Vec<u64>,
    next_nets: Vec<u64>,
}

impl Model for Rounds {
    ghost use Rattle.std.specs.Prelude.{◌≡◌, [], length};
    ghost use Rattle.circuit.specs.Rounds.{Standing};

    ghost Value = { Standing };

    ghost view = { λ r. record { state = record { regs = r.regs.items; mems = [] }; nets = r.nets.items } };

    ghost invariant = { λ r. (length r.next_regs.items ≡ length r.regs.items) × (length r.next_nets.items ≡ length r.nets.items) };
}

impl Rounds {
    /// Stands before the first sample.
    pub fn new(alloc: Global, circuit: &Circuit) -> Result<Rounds, NoMemory>
        requires { IsFlat circuit.now }
        ensures start { IfOk result (λ r. r ≡ start circuit.now) }
        ensures fits { IfOk result (IsStandingOf circuit.now) }
    {
        let regs = start_regs(alloc, circuit)?;
        let mut nets = zeros(alloc, circuit.nets.len())?;
        let inputs = zeros(alloc, circuit.inputs.len())?;
        evaluate(circuit, &inputs, &regs, &mut nets);
        let next_regs = zeros(alloc, regs.len())?;
        let next_nets = zeros(alloc, nets.len())?;
        Ok(Rounds {
            regs,
            nets,
            next_regs,
            next_nets,
        })
    }

    /// One round. Whether it leaves the registers as they are.
    fn round(&mut self, circuit: &Circuit, inputs: &[u64]) -> bool
        requires flat { IsFlat circuit.now }
        requires fits { IsStandingOf circuit.now self.old }
        requires inputs { AreInputs circuit.now inputs.now }
        ensures nets { self.new.nets ≡ valuation circuit.now self.old.state inputs.now }
        ensures state { self.new.state ≡ next circuit.now self.old.state self.old.nets self.new.nets }
        ensures still { result ≡ same_state self.new.state self.old.state }
        ensures fits { IsStandingOf circuit.now self.new }
    {
        evaluate(circuit, inputs, &self.regs, &mut self.next_nets);
        clock(
            circuit,
            &self.nets,
            &self.next_nets,
            &self.regs,
            &mut self.next_regs,
        );
        mem::swap(&mut self.nets, &mut self.next_nets);
        mem::swap(&mut self.regs, &mut self.next_regs);
        self.regs == self.next_regs
    }

    /// Goes on by one sample, and answers whether it settles within 256 rounds. Where it does not, each of
    /// these changed a register; the circuit stands then as the last of them left it, which no clause says.
    pub fn sample(&mut self, circuit: &Circuit, inputs: &[u64]) -> bool
        requires flat { IsFlat circuit.now }
        requires fits { IsStandingOf circuit.now self.old }
        requires inputs { AreInputs circuit.now inputs.now }
        ensures settled { result ≡ true → settled circuit.now self.old inputs.now ≡ Some self.new }
        ensures unsettled { result ≡ false → settled circuit.now self.old inputs.now ≡ None }
        ensures fits { IsStandingOf circuit.now self.new }
    {
        for _round in 0..MOST_ROUNDS {
            if self.round(circuit, inputs) {
                return true;
            }
        }
        false
    }

    /// The number of a net in the last round.
    pub fn net(&self, n: u32) -> u64
        requires { n < length self.now.nets }
        ensures { result ≡ slice_index self.now.nets n }
    {
        self.nets[n as usize]
    }
}

/// The start values of the registers.
fn start_regs(alloc: Global, circuit: &Circuit) -> Result<Vec<u64>, NoMemory>
    requires { IsFlat circuit.now }
    ensures numbers { IfOk result (λ v. v.items ≡ (start_state circuit.now).regs) }
    ensures fits { IfOk result (λ v. AreRegNumbers circuit.now v.items) }
{
    let mut regs = Vec::new(alloc);
    for reg in circuit.regs.as_slice() {
        let width = reg.init.width();
        regs.push(reg.init.field(0, width))?;
    }
    Ok(regs)
}
