//! One round of a circuit.
ghost use Rattle.std.specs.Prelude.{◌≡◌, ◌+◌, ◌<◌, IfOk, not, true};
ghost use Rattle.cell_changes.specs.Changes.{changed_cells};
ghost use Rattle.circuit.specs.Next.{next};
ghost use Rattle.circuit.specs.Rounds.{start, start_state};
ghost use Rattle.circuit.specs.State.{same_state};
ghost use Rattle.circuit.specs.Valid.{is_valid};
ghost use Rattle.circuit.specs.Valuation.{valuation};
ghost use Rattle.eval_plan.specs.declared.plan.Plan.{Plan as ThePlan};
ghost use Rattle.sim_base.specs.Values.{numbers};
ghost use Rattle.state_cells.specs.Diagnostics.{round_of};
ghost use Rattle.eval_commit.specs.Fired.{all_fired_after, none_fired};
ghost use Rattle.eval_commit.specs.Evaluation.{AreInputsOf};
ghost use Rattle.eval_plan.specs.Plans.{IsPlanOf};
ghost use Rattle.eval_commit.specs.Invariant.{AreRoundsOf, standing_of, state_of};
ghost use Rattle.eval_commit.specs.Shown.{ShowsCells};

use crate::diagnostics::{next_fired, start_fired};
use crate::marks::read_places;
use crate::ports::{Ports, next_mems, put_reads, start_ports};
use crate::registers::{next_regs, put_regs};
use crate::round::evaluate;
use crate::start::{law_of_first_state, rooms_of, start_rows, zero_inputs};
use crate::update::update;
use circuit::{Circuit, Listing, Store, start_regs};
use dirty_set::DirtySet;
use eval_plan::Plan;
use memory_cells::Rows;
use signal_words::law_of_start;
use sim_base::{Bits, NoMemory, Steps, Values};
use std::alloc::Global;
use std::marker::Brand;
use std::mem;
use std::sync::ledger::{Blank, Ledger};

/// The state of a circuit, the values of its nets in the round before, and room for those of the next.
#[derive(Debug, Drop)]
pub(crate) struct Rounds {
    pub(crate) regs: Values,
    pub(crate) rows: Listing<Rows>,
    /// For each memory the value of each of its read ports. One without a clock keeps its start value.
    pub(crate) ports: Listing<Ports>,
    /// Its nets are those of the last round that was done.
    pub(crate) before: Store,
    /// Room for the nets of the next round.
    pub(crate) now: Store,
    /// For each memory room for one of its rows.
    pub(crate) rooms: Vec<Bits>,
    /// For each diagnostic whether it fired in the rounds of the last sample.
    pub(crate) fired: Listing<bool>,
    /// Which nodes of the plan are looked at in the next round, whatever changes.
    pub(crate) marks: DirtySet,
    /// The places of the read ports among the nodes.
    pub(crate) reads: Vec<u32>,
}

impl Rounds {
    /// The state before the first sample, and nets that are all 0.
    fn new(alloc: Global, circuit: &Circuit, plan: &Plan) -> Result<Rounds, NoMemory>
        requires { IsPlanOf circuit.now plan.now }
        ensures rounds { IfOk result (λ r. AreRoundsOf circuit.now plan.now r) }
        ensures state { IfOk result (λ r. state_of r ≡ start_state circuit.now) }
        ensures fired { IfOk result (λ r. r.fired ≡ none_fired circuit.now.diags) }
    {
        law_of_start();
        law_of_first_state();
        Ok(Rounds {
            regs: start_regs(alloc, circuit.regs.as_slice())?,
            rows: start_rows(alloc, circuit)?,
            ports: start_ports(alloc, circuit)?,
            before: Store::new(alloc, circuit)?,
            now: Store::new(alloc, circuit)?,
            rooms: rooms_of(alloc, circuit)?,
            fired: start_fired(alloc, circuit)?,
            marks: DirtySet::new(alloc, plan.nodes.len() as u32)?,
            reads: read_places(alloc, plan.nodes.as_slice())?,
        })
    }

    /// What stands before the first sample: the start state, and the nets under inputs that are all 0.
    pub(crate) fn start(alloc: Global, circuit: &Circuit, plan: &Plan) -> Result<Rounds, NoMemory>
        requires { IsPlanOf circuit.now plan.now }
        ensures rounds { IfOk result (λ r. AreRoundsOf circuit.now plan.now r) }
        ensures shown { IfOk result (λ r. ShowsCells circuit.now plan.now r.before.nets) }
        ensures standing { IfOk result (λ r. standing_of r ≡ start circuit.now) }
        ensures fired { IfOk result (λ r. r.fired ≡ none_fired circuit.now.diags) }
    {
        let mut rounds = Rounds::new(alloc, circuit, plan)?;
        let inputs = zero_inputs(alloc, circuit)?;
        rounds.first_nets::<Brand>(circuit, plan, inputs.as_slice(), Blank::new(1));
        Ok(rounds)
    }

    /// Gives the nets of the round before their values under the state and these inputs, in steps that
    /// nobody counts.
    fn first_nets<L: Ledger>(
        &mut self,
        circuit: &Circuit,
        plan: &Plan,
        inputs: &[Bits],
        blank: Blank,
    )
        requires plan { IsPlanOf circuit.now plan.now }
        requires rounds { AreRoundsOf circuit.now plan.now self.old }
        requires inputs { AreInputsOf circuit.now inputs.now }
        requires name { blank.name ≡ L.name }
        requires parts { blank.parts ≡ L.parts }
        requires some { 0 < blank.parts }
        ensures rounds { AreRoundsOf circuit.now plan.now self.new }
        ensures shown { ShowsCells circuit.now plan.now self.new.before.nets }
        ensures state { state_of self.new ≡ state_of self.old }
        ensures fired { self.new.fired ≡ self.old.fired }
        ensures nets { numbers self.new.before.nets ≡ valuation circuit.now (state_of self.old) (numbers inputs.now) }
    {
        let mut steps = Steps::<L>::new(blank);
        put_regs(&self.regs, &mut self.before);
        put_reads(self.ports.as_slice(), &mut self.before);
        evaluate(
            circuit,
            plan,
            inputs,
            self.rows.as_slice(),
            &mut self.rooms,
            &mut self.before,
            &mut self.marks,
            &mut steps,
        );
    }

    /// Gives the nets their values under the state and these inputs, from those of the round before.
    fn value_nets<L: Ledger>(
        &mut self,
        circuit: &Circuit,
        plan: &Plan,
        inputs: &[Bits],
        steps: &mut Steps<L>,
    )
        requires plan { IsPlanOf circuit.now plan.now }
        requires rounds { AreRoundsOf circuit.now plan.now self.old }
        requires shown { ShowsCells circuit.now plan.now self.old.before.nets }
        requires inputs { AreInputsOf circuit.now inputs.now }
        ensures rounds { AreRoundsOf circuit.now plan.now self.new }
        ensures shown { ShowsCells circuit.now plan.now self.new.now.nets }
        ensures regs { self.new.regs ≡ self.old.regs }
        ensures rows { self.new.rows ≡ self.old.rows }
        ensures ports { self.new.ports ≡ self.old.ports }
        ensures fired { self.new.fired ≡ self.old.fired }
        ensures before { self.new.before ≡ self.old.before }
        ensures nets { numbers self.new.now.nets ≡ valuation circuit.now (state_of self.old) (numbers inputs.now) }
        ensures steps { steps.new ≡ steps.old + changed_cells circuit.now.cells (round_of self.old.before self.new.now) }
    {
        self.now.nets.copy_all(&self.before.nets);
        put_regs(&self.regs, &mut self.now);
        put_reads(self.ports.as_slice(), &mut self.now);
        update(
            circuit,
            plan,
            inputs,
            self.rows.as_slice(),
            &mut self.rooms,
            &self.before,
            &mut self.now,
            self.reads.as_slice(),
            &mut self.marks,
            steps,
        );
    }

    /// Gives the registers and the memories their next values, and tells whether one of them changed.
    fn next_state(&mut self, circuit: &Circuit) -> bool
        requires valid { is_valid circuit.now ≡ true }
        requires rounds { (plan : ThePlan) × AreRoundsOf circuit.now plan self.old }
        ensures rounds { (plan : ThePlan) → AreRoundsOf circuit.now plan self.old → AreRoundsOf circuit.now plan self.new }
        ensures before { self.new.before ≡ self.old.before }
        ensures now { self.new.now ≡ self.old.now }
        ensures fired { self.new.fired ≡ self.old.fired }
        ensures state { state_of self.new ≡ next circuit.now (state_of self.old) (numbers self.old.before.nets) (numbers self.old.now.nets) }
        ensures changed { result ≡ not (same_state (state_of self.new) (state_of self.old)) }
    {
        let regs_changed = next_regs(circuit, &self.before, &self.now, &mut self.regs);
        let mems_changed = next_mems(
            circuit,
            &self.before,
            &self.now,
            &mut self.rows,
            &mut self.ports,
        );
        regs_changed | mems_changed
    }

    /// Does one round, with the diagnostics that fire in it, and tells whether it changed the state. It takes
    /// a step for each cell of which some bit that it reads differs from the round before, and no memory.
    pub(crate) fn round<L: Ledger>(
        &mut self,
        circuit: &Circuit,
        plan: &Plan,
        inputs: &[Bits],
        steps: &mut Steps<L>,
    ) -> bool
        requires plan { IsPlanOf circuit.now plan.now }
        requires rounds { AreRoundsOf circuit.now plan.now self.old }
        requires shown { ShowsCells circuit.now plan.now self.old.before.nets }
        requires inputs { AreInputsOf circuit.now inputs.now }
        ensures rounds { AreRoundsOf circuit.now plan.now self.new }
        ensures shown { ShowsCells circuit.now plan.now self.new.before.nets }
        ensures nets { numbers self.new.before.nets ≡ valuation circuit.now (state_of self.old) (numbers inputs.now) }
        ensures state { state_of self.new ≡ next circuit.now (state_of self.old) (numbers self.old.before.nets) (numbers self.new.before.nets) }
        ensures fired { self.new.fired ≡ all_fired_after circuit.now.diags self.old.fired (round_of self.old.before self.new.before) }
        ensures changed { result ≡ not (same_state (state_of self.new) (state_of self.old)) }
        ensures steps { steps.new ≡ steps.old + changed_cells circuit.now.cells (round_of self.old.before self.new.before) }
    {
        self.value_nets(circuit, plan, inputs, steps);
        let changed = self.next_state(circuit);
        next_fired(circuit, &self.before, &self.now, &mut self.fired);
        mem::swap(&mut self.before, &mut self.now);
        changed
    }
}
