//! How far a run has been followed.
ghost use Rattle.std.specs.Prelude.{◌≡◌, ◌<◌, ◌≤◌, ◌+◌, true, false, IfOk, length, map, min, slice_set};
ghost use Rattle.std.specs.Arc.{arc_value};
ghost use Rattle.circuit.specs.Rounds.{run_length};
ghost use Rattle.circuit.specs.Shown.{hits};
ghost use Rattle.eval_commit.specs.Evaluation.{input_width};
ghost use Rattle.eval_plan.specs.Plans.{IsPlanOf};
ghost use Rattle.stimulus_blocks.specs.Courses.{input_widths, run_of, sample_count};
ghost use Rattle.run_followed.specs.Progress.{IsProgress};

use crate::fired::{fired_kinds, meet, no_kinds};
use circuit::{Circuit, law_of_validity, length_of_run};
use eval_plan::Plan;
use run_core::Cursor;
use sim_base::{Kinds, NoMemory};
use std::alloc::Global;
use std::sync::Arc;
use stimulus_blocks::Stimulus;

/// How many samples are known to settle, and of which kinds diagnostics fired at them.
#[derive(Debug, Drop)]
pub struct Progress {
    pub cursor: Cursor,
    /// The kinds for each sample; no list where the circuit has no diagnostics.
    pub fired: Vec<Kinds>,
}

/// Room for the kinds of each sample, if the circuit has diagnostics.
fn room_of(alloc: Global, circuit: &Circuit, stimulus: &Stimulus) -> Result<Vec<Kinds>, NoMemory>
    ensures { IfOk result (λ fired. 0 < length circuit.now.diags → length fired.items ≡ sample_count stimulus.now) }
{
    if circuit.diags.as_slice().is_empty() {
        return Ok(Vec::new(alloc));
    }
    Ok(vec![in alloc; no_kinds(); stimulus.count() as usize]?)
}

impl Progress {
    /// No samples yet.
    pub fn new(
        alloc: Global,
        circuit: Arc<Circuit>,
        stimulus: &Stimulus,
        plan: Plan,
    ) -> Result<Progress, NoMemory>
        requires plan { IsPlanOf (arc_value circuit) plan }
        requires inputs { input_widths stimulus.now ≡ map (input_width (arc_value circuit)) (arc_value circuit).inputs }
        ensures { IfOk result (IsProgress (arc_value circuit) stimulus.now) }
    {
        let fired = room_of(alloc, &circuit, stimulus)?;
        let cursor = Cursor::new(alloc, circuit, stimulus, plan)?;
        Ok(Progress { cursor, fired })
    }

    /// Keeps the kinds of sample `k`, where there is room for them.
    fn keep(&mut self, k: usize, kinds: Kinds)
        ensures fired { self.new.fired.items ≡ slice_set self.old.fired.items k kinds }
        ensures cursor { self.new.cursor ≡ self.old.cursor }
    {
        if k < self.fired.len() {
            self.fired[k] = kinds;
        }
    }

    /// Goes on by one sample, where it settles.
    fn go_on(&mut self, circuit: &Circuit, stimulus: &Stimulus)
        requires progress { IsProgress circuit.now stimulus.now self.old }
        requires there { self.old.cursor.given < sample_count stimulus.now }
        requires free { self.old.cursor.stuck ≡ false }
        ensures progress { IsProgress circuit.now stimulus.now self.new }
        ensures further { self.new.cursor.stuck ≡ false → self.new.cursor.given ≡ self.old.cursor.given + 1 }
        ensures never_back { self.old.cursor.given ≤ self.new.cursor.given }
    {
        law_of_validity();
        let k = self.cursor.given as usize;
        if self.cursor.go_on(stimulus).is_some() {
            let kinds = fired_kinds(&self.cursor.machine, circuit);
            self.keep(k, kinds);
        }
    }

    /// Follows the run through its first `want` samples, or to the first that does not settle.
    fn follow(&mut self, circuit: &Circuit, stimulus: &Stimulus, want: u64)
        requires progress { IsProgress circuit.now stimulus.now self.old }
        requires there { want ≤ sample_count stimulus.now }
        ensures progress { IsProgress circuit.now stimulus.now self.new }
        ensures least { min want (run_length (run_of circuit.now stimulus.now)) ≤ self.new.cursor.given }
        ensures most { self.new.cursor.given ≤ run_length (run_of circuit.now stimulus.now) }
    {
        length_of_run();
        while self.cursor.given < want && !self.cursor.stuck {
            self.go_on(circuit, stimulus);
        }
    }

    /// Follows the run through its first `want` samples, and answers how many of them settle.
    pub fn reach(&mut self, circuit: &Circuit, stimulus: &Stimulus, want: u64) -> u64
        requires progress { IsProgress circuit.now stimulus.now self.old }
        requires there { want ≤ sample_count stimulus.now }
        ensures progress { IsProgress circuit.now stimulus.now self.new }
        ensures settled { result ≡ min want (run_length (run_of circuit.now stimulus.now)) }
    {
        self.follow(circuit, stimulus, want);
        self.cursor.given.min(want)
    }

    /// Follows the run through sample `k`, which settles, and answers whether a diagnostic of these kinds fires at it.
    pub fn hits(&mut self, circuit: &Circuit, stimulus: &Stimulus, k: u64, kinds: Kinds) -> bool
        requires progress { IsProgress circuit.now stimulus.now self.old }
        requires settles { k < run_length (run_of circuit.now stimulus.now) }
        ensures progress { IsProgress circuit.now stimulus.now self.new }
        ensures hits { result ≡ hits (run_of circuit.now stimulus.now) k kinds }
    {
        length_of_run();
        let _ = stimulus.count();
        self.follow(circuit, stimulus, k + 1);
        match self.fired.get(k as usize) {
            Some(fired) => meet(kinds, *fired),
            None => false,
        }
    }
}
