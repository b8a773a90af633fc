//! A run that gives its samples one after another.
ghost use Rattle.std.specs.Prelude.{◌≡◌, ◌≤◌, true, IfOk, is_ok, is_some, if◌then◌else◌};
ghost use Rattle.std.specs.Arc.{arc_value};
ghost use Rattle.circuit.specs.Rounds.{standing_after};
ghost use Rattle.eval_plan.specs.Plans.{IsPlanOf};
ghost use Rattle.stimulus.specs.Runs.{IsRun};
ghost use Rattle.run_core.specs.Samples.{after_next, next_of, run_of};

use crate::next::Next;
use crate::progress::Progress;
use eval_plan::Plan;
use sim_base::NoMemory;
use spool_format::{Sample, Words};
use std::alloc::Global;
use std::marker::Model;
use std::sync::Arc;
use stimulus::{Run, law_of_inputs};

/// A run that gives its samples one after another. Contracts see the circuit, the stimulus and how many samples were
/// given, each of which settled.
#[derive(Debug, Drop)]
pub struct Runner {
    run: Run,
    progress: Progress,
}

impl Model for Runner {
    ghost use Rattle.std.specs.Arc.{arc_value};
    ghost use Rattle.run_core.specs.Progress.{IsProgress};
    ghost use Rattle.run_core.specs.Samples.{Following};

    ghost Value = { Following };

    ghost view = { λ r. record { circuit = arc_value r.run.circuit; course = arc_value r.run.stimulus; given = r.progress.cursor.given } };

    ghost invariant = { λ r. IsProgress (arc_value r.run.circuit) (arc_value r.run.stimulus) r.progress };
}

impl Runner {
    /// The run from its first sample on. Without memory the run and the plan are dropped.
    pub fn new(alloc: Global, run: Run, plan: Plan) -> Result<Runner, NoMemory>
        requires run { IsRun run }
        requires plan { IsPlanOf (arc_value run.circuit) plan }
        ensures { IfOk result (λ runner. runner ≡ record { circuit = arc_value run.circuit; course = arc_value run.stimulus; given = 0 }) }
    {
        law_of_inputs();
        let circuit = Arc::try_clone(&run.circuit)?;
        let progress = Progress::new(alloc, circuit, &run.stimulus, plan)?;
        Ok(Runner { run, progress })
    }

    /// How many samples were given.
    pub fn given(&self) -> u64
        ensures value { result ≡ self.now.given }
        ensures within { result ≤ (run_of self.now).count }
        ensures settled { is_some (standing_after (run_of self.now) result) ≡ true }
    {
        self.progress.cursor.given
    }

    /// The next sample: its number is how many were given, its time that of its row, and its words those of what
    /// every slot shows. `Unsettled` comes exactly where the next sample does not settle, `Over` exactly where all
    /// samples were given, and both again for good. Without memory all is as before.
    pub fn next_sample(&mut self, alloc: Global) -> Result<Next, NoMemory>
        ensures next { IfOk result (λ next. next ≡ next_of (run_of self.old) self.old.given) }
        ensures runner { self.new ≡ (if is_ok result then after_next self.old else self.old) }
    {
        let number = self.progress.cursor.given;
        if number == self.run.stimulus.count() {
            return Ok(Next::Over);
        }
        if self.progress.cursor.stuck {
            return Ok(Next::Unsettled);
        }
        let mut words = Vec::from_slice(alloc, &self.progress.words)?;
        let Some(time) = self.progress.go_on(&self.run.circuit, &self.run.stimulus) else {
            return Ok(Next::Unsettled);
        };
        words.copy_from_slice(&self.progress.words);
        let words = Words::new(words);
        Ok(Next::Sample(Sample {
            number,
            time,
            words,
        }))
    }
}
