//! A run, of which a contract sees what it means.
ghost use Rattle.std.specs.Prelude.{◌≡◌, ◌<◌, ◌≤◌, IfOk, min};
ghost use Rattle.circuit.specs.Rounds.{run_length};
ghost use Rattle.circuit.specs.Shown.{hits};
ghost use Rattle.flat_design.specs.Flat.{IsFlat};
ghost use Rattle.flat_run.specs.Run.{AreSamples, run_of};
ghost use Rattle.flat_stimulus.specs.Until.{samples_until};

use crate::progress::Progress;
use circuit::Circuit;
use flat_stimulus::FlatStimulus;
use hall_core::Followed;
use sim_base::{Kinds, NoMemory, Time};
use std::alloc::Global;
use std::marker::Model;

/// A flat circuit under the samples of a stimulus. A contract sees the two, and `run_of` them.
#[derive(Drop)]
pub struct FlatRun {
    circuit: Circuit,
    stimulus: FlatStimulus,
    progress: Progress,
}

impl Model for FlatRun {
    ghost use Rattle.flat_run.specs.Progress.{IsProgress};
    ghost use Rattle.flat_run.specs.Run.{Sampled};

    ghost Value = { Sampled };

    ghost view = { λ r. record { circuit = r.circuit; block = r.stimulus } };

    ghost invariant = { λ r. IsProgress r.circuit r.stimulus r.progress };
}

impl FlatRun {
    /// The run of this circuit under these samples.
    pub fn new(alloc: Global, circuit: Circuit, stimulus: FlatStimulus) -> Result<FlatRun, NoMemory>
        requires flat { IsFlat circuit }
        requires samples { AreSamples circuit stimulus }
        ensures { IfOk result (λ run. run ≡ record { circuit = circuit; block = stimulus }) }
    {
        let progress = Progress::new(alloc, &circuit, &stimulus)?;
        Ok(FlatRun {
            circuit,
            stimulus,
            progress,
        })
    }

    /// How many samples there are, at least one.
    pub fn count(&self) -> u64
        ensures count { result ≡ (run_of self.now).count }
        ensures some { 1 ≤ result }
    {
        self.stimulus.count()
    }

    /// How many of the first `want` samples settle. What is known of earlier calls is not computed again.
    pub fn reach(&mut self, want: u64) -> u64
        requires { want ≤ (run_of self.old).count }
        ensures settled { result ≡ min want (run_length (run_of self.old)) }
        ensures run { self.new ≡ self.old }
    {
        self.progress.reach(&self.circuit, &self.stimulus, want)
    }

    /// Whether a diagnostic of one of these kinds fires at sample `k`. A flat circuit has none.
    pub fn hits(&self, k: u64, kinds: Kinds) -> bool
        ensures { result ≡ hits (run_of self.now) k kinds }
    {
        let _ = &self.circuit;
        let _ = (k, kinds);
        false
    }

    /// The time of sample `k`.
    pub fn time(&self, k: u64) -> Time
        requires { k < (run_of self.now).count }
        ensures { result ≡ ((run_of self.now).row k).time }
    {
        self.stimulus.time(k)
    }

    /// How many samples are at or before a time.
    pub fn count_until(&self, time: Time) -> u64
        ensures value { result ≡ samples_until (run_of self.now).row (run_of self.now).count time }
        ensures most { result ≤ (run_of self.now).count }
    {
        self.stimulus.count_until(time)
    }
}

impl Followed for FlatRun {
    ghost use Rattle.flat_run.specs.Run.{run_of};

    ghost run = { run_of };

    fn count(&self) -> u64 {
        FlatRun::count(self)
    }

    fn reach(&mut self, want: u64) -> u64 {
        FlatRun::reach(self, want)
    }

    fn hits(&mut self, k: u64, kinds: Kinds) -> bool {
        FlatRun::hits(self, k, kinds)
    }

    fn time(&self, k: u64) -> Time {
        FlatRun::time(self, k)
    }

    #[tactic(auto, using(crate::proofs::Until::same_until))]
    fn count_until(&self, time: Time) -> u64 {
        FlatRun::count_until(self, time)
    }
}
