//! A run, of which a contract sees what it means.
ghost use Rattle.std.specs.Prelude.{◌≡◌, ◌<◌, ◌≤◌, IfOk, min};
ghost use Rattle.std.specs.Arc.{arc_value};
ghost use Rattle.circuit.specs.Rounds.{run_length};
ghost use Rattle.circuit.specs.Shown.{hits};
ghost use Rattle.eval_plan.specs.Plans.{IsPlanOf};
ghost use Rattle.hall_core.specs.Samples.{samples_until};
ghost use Rattle.stimulus.specs.Runs.{IsRun};
ghost use Rattle.run_followed.specs.Run.{run_of};

use crate::progress::Progress;
use eval_plan::Plan;
use hall_core::Followed;
use sim_base::{Kinds, NoMemory, Time};
use std::alloc::Global;
use std::marker::Model;
use std::sync::Arc;
use stimulus::{Run, law_of_blocks, law_of_inputs};

/// A circuit under its stimulus, which is followed from the first sample on. A contract sees the two, and `run_of` them.
#[derive(Debug, Drop)]
pub struct FollowedRun {
    run: Run,
    progress: Progress,
}

impl Model for FollowedRun {
    ghost use Rattle.std.specs.Arc.{arc_value};
    ghost use Rattle.stimulus.specs.Runs.{IsRun};
    ghost use Rattle.run_followed.specs.Progress.{IsProgress};
    ghost use Rattle.run_followed.specs.Run.{Sampled};

    ghost Value = { Sampled };

    ghost view = { λ r. record { circuit = arc_value r.run.circuit; course = arc_value r.run.stimulus } };

    ghost invariant = { λ r. IsRun r.run × IsProgress (arc_value r.run.circuit) (arc_value r.run.stimulus) r.progress };
}

impl FollowedRun {
    /// The run from its first sample on. Without memory the run and the plan are dropped; what follows takes none.
    pub fn new(alloc: Global, run: Run, plan: Plan) -> Result<FollowedRun, NoMemory>
        requires run { IsRun run }
        requires plan { IsPlanOf (arc_value run.circuit) plan }
        ensures { IfOk result (λ followed. followed ≡ record { circuit = arc_value run.circuit; course = arc_value run.stimulus }) }
    {
        law_of_inputs();
        let circuit = Arc::try_clone(&run.circuit)?;
        let progress = Progress::new(alloc, circuit, &run.stimulus, plan)?;
        Ok(FollowedRun { run, progress })
    }

    /// How many samples there are, at least one.
    pub fn count(&self) -> u64
        ensures count { result ≡ (run_of self.now).count }
        ensures some { 1 ≤ result }
    {
        law_of_blocks();
        self.run.stimulus.count()
    }

    /// How many of the first `want` samples settle. What is known of earlier calls is not computed again.
    pub fn reach(&mut self, want: u64) -> u64
        requires { want ≤ (run_of self.old).count }
        ensures settled { result ≡ min want (run_length (run_of self.old)) }
        ensures same { self.new ≡ self.old }
    {
        self.progress
            .reach(&self.run.circuit, &self.run.stimulus, want)
    }

    /// Whether a diagnostic of one of these kinds fires at sample `k`, which settles.
    pub fn hits(&mut self, k: u64, kinds: Kinds) -> bool
        requires { k < run_length (run_of self.old) }
        ensures hits { result ≡ hits (run_of self.old) k kinds }
        ensures same { self.new ≡ self.old }
    {
        self.progress
            .hits(&self.run.circuit, &self.run.stimulus, k, kinds)
    }

    /// The time of sample `k`.
    pub fn time(&self, k: u64) -> Time
        requires { k < (run_of self.now).count }
        ensures { result ≡ ((run_of self.now).row k).time }
    {
        self.run.stimulus.time(k)
    }

    /// How many samples are at or before a time.
    #[tactic(auto, using(crate::proofs::Until::same_until))]
    pub fn count_until(&self, time: Time) -> u64
        ensures value { result ≡ samples_until (run_of self.now).row (run_of self.now).count time }
        ensures most { result ≤ (run_of self.now).count }
    {
        self.run.stimulus.count_until(time)
    }
}

impl Followed for FollowedRun {
    ghost use Rattle.run_followed.specs.Run.{run_of};

    ghost run = { run_of };

    fn count(&self) -> u64 {
        FollowedRun::count(self)
    }

    fn reach(&mut self, want: u64) -> u64 {
        FollowedRun::reach(self, want)
    }

    fn hits(&mut self, k: u64, kinds: Kinds) -> bool {
        FollowedRun::hits(self, k, kinds)
    }

    fn time(&self, k: u64) -> Time {
        FollowedRun::time(self, k)
    }

    fn count_until(&self, time: Time) -> u64 {
        FollowedRun::count_until(self, time)
    }
}
