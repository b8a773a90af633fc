//! A machine that goes through the samples of its stimulus.
ghost use Rattle.std.specs.Prelude.{◌≡◌, ◌<◌, ◌+◌, None, true, false, IfOk, IfSome, IsSome, is_some, map, ℕ, ◌↔◌};
ghost use Rattle.std.specs.Arc.{arc_value};
ghost use Rattle.sim_base.specs.Values.{numbers};
ghost use Rattle.circuit.specs.Rounds.{standing_at};
ghost use Rattle.eval_commit.specs.Evaluation.{AreInputsOf, input_width};
ghost use Rattle.eval_commit.specs.Machine.{after_sample};
ghost use Rattle.eval_plan.specs.Plans.{IsPlanOf};
ghost use Rattle.stimulus_blocks.specs.Courses.{input_widths, row_of, run_of, sample_count};
ghost use Rattle.run_core.specs.Cursor.{IsCursor, left_by};
ghost use Rattle.eval_commit.specs.declared.settle.Settled.TheVariants as settled_as;

use circuit::Circuit;
use eval_commit::{Machine, Settled};
use eval_plan::Plan;
use sim_base::{Bits, NoMemory, Steps, Time};
use std::alloc::Global;
use std::marker::Brand;
use std::sync::Arc;
use std::sync::ledger::{Blank, Ledger};
use stimulus_blocks::{Place, Stimulus};

/// How many samples were given, and how the circuit stands after them.
#[derive(Debug, Drop)]
pub struct Cursor {
    pub machine: Machine,
    /// Where the sample before the next one stands in the stimulus.
    pub place: Place,
    /// Room for the inputs of a sample.
    pub inputs: Vec<Bits>,
    pub given: u64,
    /// Whether the sample behind these does not settle.
    pub stuck: bool,
}

/// Takes a machine through one sample, in steps that nobody counts.
fn settle<L: Ledger>(machine: &mut Machine, inputs: &[Bits], blank: Blank) -> Settled
    requires inputs { AreInputsOf machine.old.circuit inputs.now }
    requires name { blank.name ≡ L.name }
    requires parts { blank.parts ≡ L.parts }
    requires some { 0 < blank.parts }
    ensures machine { machine.new ≡ after_sample machine.old (numbers inputs.now) }
    ensures yes { (rounds : ℕ) → result ≡ settled_as.Yes rounds → is_some machine.new.standing ≡ true }
    ensures no { result ≡ settled_as.No → machine.new.standing ≡ None }
{
    let mut steps = Steps::<L>::new(blank);
    machine.settle(inputs, &mut steps)
}

impl Cursor {
    /// No samples yet.
    pub fn new(
        alloc: Global,
        circuit: Arc<Circuit>,
        stimulus: &Stimulus,
        plan: Plan,
    ) -> Result<Cursor, NoMemory>
        requires plan { IsPlanOf (arc_value circuit) plan }
        requires inputs { input_widths stimulus.now ≡ map (input_width (arc_value circuit)) (arc_value circuit).inputs }
        ensures cursor { IfOk result (IsCursor (arc_value circuit) stimulus.now) }
        ensures none { IfOk result (λ cursor. cursor.given ≡ 0) }
    {
        let inputs = stimulus.room(alloc)?;
        let machine = Machine::new(alloc, circuit, plan)?;
        Ok(Cursor {
            machine,
            place: Place::first(),
            inputs,
            given: 0,
            stuck: false,
        })
    }

    /// Goes on by one sample where it settles, and tells its time. It takes no memory.
    pub fn go_on(&mut self, stimulus: &Stimulus) -> Option<Time>
        requires cursor { IsCursor self.old.machine.circuit stimulus.now self.old }
        requires there { self.old.given < sample_count stimulus.now }
        requires free { self.old.stuck ≡ false }
        ensures cursor { IsCursor self.old.machine.circuit stimulus.now self.new }
        ensures machine { self.new.machine ≡ left_by (run_of self.old.machine.circuit stimulus.now) self.old.given }
        ensures settles { IsSome result ↔ (is_some (standing_at (run_of self.old.machine.circuit stimulus.now) self.old.given) ≡ true) }
        ensures given { IfSome result (λ time. self.new.given ≡ self.old.given + 1) }
        ensures time { IfSome result (λ time. time ≡ (row_of stimulus.now self.old.given).time) }
        ensures stuck { result ≡ None → self.new.given ≡ self.old.given }
    {
        let _ = stimulus.count();
        let time = stimulus.row_from(&mut self.place, self.given, &mut self.inputs);
        match settle::<Brand>(&mut self.machine, &self.inputs, Blank::new(1)) {
            Settled::Yes(_) => {
                self.given += 1;
                Some(time)
            }
            Settled::No => {
                self.stuck = true;
                None
            }
        }
    }
}
