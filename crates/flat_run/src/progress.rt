//! How far a run has been followed.
ghost use Rattle.std.specs.Prelude.{◌≡◌, ◌<◌, ◌≤◌, ◌+◌, true, false, Some, None, IfOk, length, min};
ghost use Rattle.circuit.specs.Rounds.{run_length, standing_after};
ghost use Rattle.flat_design.specs.Flat.{IsFlat};
ghost use Rattle.flat_run.specs.Progress.{IsProgress};
ghost use Rattle.flat_run.specs.Run.{AreSamples, run_under};
ghost use Rattle.flat_stimulus.specs.Block.{row_of, sample_count};

use circuit::{Circuit, length_of_run};
use flat_rounds::{Rounds, zeros};
use flat_stimulus::FlatStimulus;
use sim_base::NoMemory;
use std::alloc::Global;

/// How many samples are known to settle, and how the circuit stands after them.
#[derive(Drop)]
pub struct Progress {
    pub rounds: Rounds,
    /// Room for the inputs of a sample.
    pub inputs: Vec<u64>,
    pub settled: u64,
    /// Whether the sample behind these does not settle.
    pub stuck: bool,
}

impl Progress {
    /// No samples yet.
    pub fn new(
        alloc: Global,
        circuit: &Circuit,
        stimulus: &FlatStimulus,
    ) -> Result<Progress, NoMemory>
        requires flat { IsFlat circuit.now }
        requires samples { AreSamples circuit.now stimulus.now }
        ensures { IfOk result (IsProgress circuit.now stimulus.now) }
    {
        let _ = stimulus;
        Ok(Progress {
            rounds: Rounds::new(alloc, circuit)?,
            inputs: zeros(alloc, circuit.inputs.len())?,
            settled: 0,
            stuck: false,
        })
    }

    /// Goes on by one sample, where it settles.
    fn go_on(&mut self, circuit: &Circuit, stimulus: &FlatStimulus)
        requires progress { IsProgress circuit.now stimulus.now self.old }
        requires there { self.old.settled < sample_count stimulus.now }
        requires free { self.old.stuck ≡ false }
        ensures progress { IsProgress circuit.now stimulus.now self.new }
        ensures further { self.new.stuck ≡ false → self.new.settled ≡ self.old.settled + 1 }
        ensures ended { self.new.stuck ≡ true → self.new.settled ≡ self.old.settled }
    {
        length_of_run();
        let _ = stimulus.count();
        read_row(stimulus, self.settled, &mut self.inputs);
        if self.rounds.sample(circuit, &self.inputs) {
            self.settled += 1;
        } else {
            self.stuck = true;
        }
    }

    /// Follows the run through its first `want` samples, and answers how many of them settle.
    pub fn reach(&mut self, circuit: &Circuit, stimulus: &FlatStimulus, want: u64) -> u64
        requires progress { IsProgress circuit.now stimulus.now self.old }
        requires there { want ≤ sample_count stimulus.now }
        ensures progress { IsProgress circuit.now stimulus.now self.new }
        ensures settled { result ≡ min want (run_length (run_under circuit.now stimulus.now)) }
    {
        length_of_run();
        while self.settled < want && !self.stuck {
            self.go_on(circuit, stimulus);
        }
        self.settled.min(want)
    }
}

/// Writes the inputs of sample `k`.
fn read_row(stimulus: &FlatStimulus, k: u64, inputs: &mut Vec<u64>)
    requires there { k < sample_count stimulus.now }
    requires room { length inputs.old.items ≡ length stimulus.now.columns }
    ensures room { length inputs.new.items ≡ length stimulus.now.columns }
    ensures inputs { inputs.new.items ≡ (row_of stimulus.now k).inputs }
{
    stimulus.row(k, inputs);
}
