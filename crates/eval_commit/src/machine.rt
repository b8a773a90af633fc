//! A circuit that goes from sample to sample.
ghost use Rattle.std.specs.Prelude.{◌≡◌, ℕ, ◌+◌, ◌<◌, ◌≤◌, true, Some, None, IfOk, is_some, length, slice_get, slice_index};
ghost use Rattle.std.specs.Arc.{arc_value};
ghost use Rattle.sim_base.specs.BitValue.{bit_value};
ghost use Rattle.circuit.specs.Rounds.{Standing, start};
ghost use Rattle.circuit.specs.Shown.{stored_row};
ghost use Rattle.circuit.specs.declared.memory.Mem.{Mem as TheMem};
ghost use Rattle.circuit.specs.declared.netlist.Net.{Net as TheNet};
ghost use Rattle.sim_base.specs.Values.{numbers};
ghost use Rattle.eval_commit.specs.Fired.{none_fired};
ghost use Rattle.eval_commit.specs.Machine.{after_sample, changes_of_sample, rounds_of_sample};
ghost use Rattle.eval_commit.specs.Evaluation.{AreInputsOf};
ghost use Rattle.eval_plan.specs.Plans.{IsPlanOf};
ghost use Rattle.eval_commit.specs.declared.settle.Settled.TheVariants as settled_as;

use crate::settle::Settled;
use crate::step::Rounds;
use circuit::Circuit;
use eval_plan::Plan;
use sim_base::{Bits, BitsView, NoMemory, Steps};
use std::alloc::Global;
use std::marker::Model;
use std::sync::Arc;
use std::sync::ledger::Ledger;

/// A circuit that goes from sample to sample. Contracts see the circuit, its state and the numbers of its nets
/// after the last sample, neither of these once a sample did not settle, and which diagnostics fired at it.
#[derive(Debug, Drop)]
pub struct Machine {
    circuit: Arc<Circuit>,
    plan: Plan,
    rounds: Rounds,
    /// Whether a sample did not settle.
    stuck: bool,
}

impl Model for Machine {
    ghost use Rattle.std.specs.Prelude.{Some, None, if◌then◌else◌};
    ghost use Rattle.std.specs.Arc.{arc_value};
    ghost use Rattle.eval_commit.specs.Fired.{none_fired};
    ghost use Rattle.eval_commit.specs.Machine.{MachineState};
    ghost use Rattle.eval_plan.specs.Plans.{IsPlanOf};
    ghost use Rattle.eval_commit.specs.Invariant.{AreRoundsOf, standing_of};
    ghost use Rattle.eval_commit.specs.Shown.{ShowsCells};

    ghost Value = { MachineState };

    ghost view = { λ m. record { circuit = arc_value m.circuit; standing = if m.stuck then None else Some (standing_of m.rounds); fired = if m.stuck then none_fired (arc_value m.circuit).diags else m.rounds.fired } };

    ghost invariant = { λ m. IsPlanOf (arc_value m.circuit) m.plan × AreRoundsOf (arc_value m.circuit) m.plan m.rounds × ShowsCells (arc_value m.circuit) m.plan m.rounds.before.nets };
}

impl Machine {
    /// A machine before the first sample: registers and memories have their start values, and the nets what
    /// these give under inputs that are all 0. Without memory the circuit's handle and the plan are dropped.
    pub fn new(alloc: Global, circuit: Arc<Circuit>, plan: Plan) -> Result<Machine, NoMemory>
        requires { IsPlanOf (arc_value circuit) plan }
        ensures { IfOk result (λ m. m ≡ record { circuit = arc_value circuit; standing = Some (start (arc_value circuit)); fired = none_fired (arc_value circuit).diags }) }
    {
        let rounds = Rounds::start(alloc, &circuit, &plan)?;
        Ok(Machine {
            circuit,
            plan,
            rounds,
            stuck: false,
        })
    }

    /// Takes the circuit through one sample: rounds until one leaves the state as it was, at most 256. There is
    /// one input for each of the circuit's, in their order, of the width of its net. `Yes` has the number of
    /// rounds. `No` comes exactly where round 256 still changed the state, and for each sample from then on.
    /// In a round no cell is evaluated of which all bits that it reads are as in the round before; a step is an
    /// evaluation of a cell. It takes no memory.
    pub fn settle<L: Ledger>(&mut self, inputs: &[Bits], steps: &mut Steps<L>) -> Settled
        requires inputs { AreInputsOf self.old.circuit inputs.now }
        ensures machine { self.new ≡ after_sample self.old (numbers inputs.now) }
        ensures yes { (rounds : ℕ) → result ≡ settled_as.Yes rounds → is_some self.new.standing ≡ true }
        ensures rounds { (rounds : ℕ) → result ≡ settled_as.Yes rounds → rounds ≡ rounds_of_sample self.old (numbers inputs.now) }
        ensures no { result ≡ settled_as.No → self.new.standing ≡ None }
        ensures steps { steps.new ≤ steps.old + changes_of_sample self.old (numbers inputs.now) }
    {
        if self.stuck {
            return Settled::No;
        }
        let settled = self.rounds.settle(&self.circuit, &self.plan, inputs, steps);
        self.stuck = matches!(settled, Settled::No);
        settled
    }

    /// The value of a net in the last round of the last sample, or before the first sample its value under the
    /// start values and inputs that are all 0. Once a sample did not settle it is any of its width.
    pub fn net(&self, n: u32) -> BitsView<'_>
        requires { n < length self.now.circuit.nets }
        ensures width { (x : TheNet) → slice_get self.now.circuit.nets n ≡ Some x → result.width ≡ x.width }
        ensures number { (s : Standing) → self.now.standing ≡ Some s → result.number ≡ slice_index s.nets n }
    {
        self.rounds.before.nets.view(n)
    }

    /// Writes row `i` of a memory, as it is after the last sample, into a value of a row's width. The row
    /// stands for the address `i` plus the memory's offset. Once a sample did not settle it is any of its width.
    pub fn row(&self, mem: u32, i: u32, into: &mut Bits)
        requires there { (m : TheMem) × (slice_get self.now.circuit.mems mem ≡ Some m) × (i < m.size) × (into.old.width ≡ m.width) }
        ensures width { into.new.width ≡ into.old.width }
        ensures row { (s : Standing) → self.now.standing ≡ Some s → into.new ≡ bit_value into.old.width (stored_row (slice_get s.state.mems mem) i) }
    {
        self.rounds.rows.as_slice()[mem as usize].row(i, into);
    }

    /// Whether diagnostic `d` fired at the last sample. One without a trigger did where it is enabled and does
    /// not hold in the nets that the sample leaves; one with a trigger where in some round of the sample it is
    /// triggered, enabled and does not hold. None has fired before the first sample, nor once a sample did not
    /// settle. It takes no memory.
    pub fn fired(&self, d: u32) -> bool
        requires { d < length self.now.circuit.diags }
        ensures { slice_get self.now.fired d ≡ Some result }
    {
        if self.stuck {
            return false;
        }
        self.rounds.fired.as_slice()[d as usize]
    }
}
