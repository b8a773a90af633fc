//! The rounds of a sample.
ghost use Rattle.std.specs.Prelude.{◌≡◌, ℕ, ◌+◌, Some, None, length, map};
ghost use Rattle.cell_changes.specs.Changes.{changes_in};
ghost use Rattle.circuit.specs.Rounds.{rounds_from, settled};
ghost use Rattle.circuit.specs.Shown.{fires_by};
ghost use Rattle.sim_base.specs.Values.{numbers};
ghost use Rattle.eval_commit.specs.Evaluation.{AreInputsOf};
ghost use Rattle.eval_plan.specs.Plans.{IsPlanOf};
ghost use Rattle.eval_commit.specs.Invariant.{AreRoundsOf, standing_of};
ghost use Rattle.eval_commit.specs.Shown.{ShowsCells};
ghost use Rattle.eval_commit.specs.declared.settle.Settled.TheVariants as settled_as;

use crate::diagnostics::clear_fired;
use crate::step::Rounds;
use circuit::Circuit;
use eval_plan::Plan;
use sim_base::{Bits, Steps};
use std::sync::ledger::Ledger;

/// The most rounds of a sample.
const MOST_ROUNDS: u32 = 256;

/// Whether a sample settled.
#[derive(Clone, Copy, Debug, PartialEq, Eq)]
pub enum Settled {
    /// It settled, in so many rounds, the last of which changed nothing.
    Yes(u32),
    /// It did not: the last round still changed the state, or a sample before it did not settle.
    No,
}

impl Rounds {
    /// Does rounds until one changes nothing, at most 256, with the diagnostics that fire in them.
    pub(crate) fn settle<L: Ledger>(
        &mut self,
        circuit: &Circuit,
        plan: &Plan,
        inputs: &[Bits],
        steps: &mut Steps<L>,
    ) -> Settled
        requires plan { IsPlanOf circuit.now plan.now }
        requires rounds { AreRoundsOf circuit.now plan.now self.old }
        requires shown { ShowsCells circuit.now plan.now self.old.before.nets }
        requires inputs { AreInputsOf circuit.now inputs.now }
        ensures rounds { AreRoundsOf circuit.now plan.now self.new }
        ensures shown { ShowsCells circuit.now plan.now self.new.before.nets }
        ensures yes { (n : ℕ) → result ≡ settled_as.Yes n → settled circuit.now (standing_of self.old) (numbers inputs.now) ≡ Some (standing_of self.new) }
        ensures count { (n : ℕ) → result ≡ settled_as.Yes n → n ≡ length (rounds_from circuit.now (Some (standing_of self.old)) (numbers inputs.now)) }
        ensures fired { (n : ℕ) → result ≡ settled_as.Yes n → self.new.fired ≡ map (λ d. fires_by d.trigger d (rounds_from circuit.now (Some (standing_of self.old)) (numbers inputs.now))) circuit.now.diags }
        ensures no { result ≡ settled_as.No → settled circuit.now (standing_of self.old) (numbers inputs.now) ≡ None }
        ensures steps { steps.new ≡ steps.old + changes_in circuit.now.cells (rounds_from circuit.now (Some (standing_of self.old)) (numbers inputs.now)) }
    {
        clear_fired(&mut self.fired);
        for done in 0..MOST_ROUNDS {
            if !self.round(circuit, plan, inputs, steps) {
                return Settled::Yes(done + 1);
            }
        }
        Settled::No
    }
}
