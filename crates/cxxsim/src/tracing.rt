//! The trace of a run.
ghost use Rattle.std.specs.Prelude.{◌≡◌, ◌<◌, ◌≤◌, ◌++◌, ◌⊎◌, [], None, Ok, Some, length, false, suc, true, IfOk, IsErr, IsErrOf, nat_lt};
ghost use Rattle.std.specs.Io.KnownBytes.{append_known};
ghost use Rattle.circuit.specs.Rounds.{Run, run_length, standing_after, start};
ghost use Rattle.flat_design.specs.Flat.{IsFlat};
ghost use Rattle.flat_rounds.specs.Fits.{AreInputs, IsStandingOf};
ghost use Rattle.flat_stimulus.specs.Block.{row_of, sample_count};
ghost use Rattle.outside.specs.Faults.{Rose};
ghost use Rattle.flat_run.specs.Run.{AreSamples, run_under};
ghost use Rattle.outside.specs.Sink.{IsSentInPart};
ghost use Rattle.cxxsim.specs.Trace.{HasLeft};
ghost use Rattle.cxxsim.specs.declared.tracing.TraceFault.TheVariants as fault;
ghost use Rattle.cxxsim.specs.TraceText.{header, run_text, sample_line, sample_lines};

use crate::print::{push_header, push_last_line, push_sample};
use circuit::{Circuit, length_of_run};
use flat_rounds::{Rounds, zeros};
use flat_stimulus::FlatStimulus;
use outside::{Sink, put_all};
use sim_base::NoMemory;
use std::alloc::Global;

/// Why a trace was not printed whole.
#[derive(Clone, Copy, Debug, PartialEq, Eq)]
pub enum TraceFault {
    /// The output failed.
    Write,
    NoMemory,
}

impl From<NoMemory> for TraceFault {
    ghost from_gives = { λ _ e. e ≡ fault.NoMemory };

    fn from(_cause: NoMemory) -> TraceFault {
        TraceFault::NoMemory
    }
}

/// How many bytes are gathered before they are handed to the output.
const ENOUGH: usize = 65_536;

/// Goes on by sample `k` and puts its line behind the text, where it settles.
fn trace_sample(
    circuit: &Circuit,
    stimulus: &FlatStimulus,
    k: u64,
    rounds: &mut Rounds,
    inputs: &mut [u64],
    text: &mut Vec<u8>,
) -> Result<bool, NoMemory>
    requires flat { IsFlat circuit.now }
    requires samples { AreSamples circuit.now stimulus.now }
    requires there { k < sample_count stimulus.now }
    requires room { length inputs.old ≡ length circuit.now.inputs }
    requires fits { IsStandingOf circuit.now rounds.old }
    ensures fits { IsStandingOf circuit.now rounds.new }
    ensures room { length inputs.new ≡ length inputs.old }
    ensures settled { result ≡ Ok true → standing_after (run_under circuit.now stimulus.now) k ≡ Some rounds.old
        → (standing_after (run_under circuit.now stimulus.now) (suc k) ≡ Some rounds.new) × (text.new.items ≡ text.old.items ++ sample_line (run_under circuit.now stimulus.now) k) }
    ensures unsettled { result ≡ Ok false → standing_after (run_under circuit.now stimulus.now) k ≡ Some rounds.old
        → (standing_after (run_under circuit.now stimulus.now) (suc k) ≡ None) × (text.new.items ≡ text.old.items) }
{
    let time = stimulus.row(k, inputs);
    let settled = rounds.sample(circuit, inputs);
    if settled {
        push_sample(text, circuit, time, rounds)?;
    }
    Ok(settled)
}

/// Hands the text to the output.
fn flush<O: Sink>(text: &mut Vec<u8>, out: &mut O) -> Result<(), TraceFault>
    ensures ok { IfOk result (λ _. ((O.seen out.new).held ≡ append_known (O.seen out.old).held text.old.items) × (text.new.items ≡ [])) }
    ensures begun { IsSentInPart (O.seen out.old).held (O.seen out.new).held text.old.items }
    ensures write { IsErrOf result TraceFault.Write → Rose (O.seen out.old).faults (O.seen out.new).faults }
    ensures only { IsErr result → IsErrOf result TraceFault.Write }
    ensures later { (O.seen out.old).faults ≤ (O.seen out.new).faults }
{
    match put_all(out, text) {
        Ok(()) => {
            text.clear();
            Ok(())
        }
        Err(_) => Err(TraceFault::Write),
    }
}

/// Hands the text to the output where it is long enough.
fn flush_long<O: Sink>(text: &mut Vec<u8>, out: &mut O) -> Result<(), TraceFault>
    ensures short { IfOk result (λ _. length text.new.items < 65536) }
    ensures ok { IfOk result (λ _. HasLeft (O.seen out.old).held (O.seen out.new).held text.old.items text.new.items) }
    ensures begun { IsSentInPart (O.seen out.old).held (O.seen out.new).held text.old.items }
    ensures write { IsErrOf result TraceFault.Write → Rose (O.seen out.old).faults (O.seen out.new).faults }
    ensures only { IsErr result → IsErrOf result TraceFault.Write }
    ensures later { (O.seen out.old).faults ≤ (O.seen out.new).faults }
{
    if text.len() < ENOUGH {
        return Ok(());
    }
    flush(text, out)
}

/// Puts the lines of the samples behind the header, up to the first that does not settle, and hands on
/// what is long enough. Answers how many samples there are.
fn write_samples<O: Sink>(
    circuit: &Circuit,
    stimulus: &FlatStimulus,
    rounds: &mut Rounds,
    inputs: &mut [u64],
    text: &mut Vec<u8>,
    out: &mut O,
) -> Result<u64, TraceFault>
    requires flat { IsFlat circuit.now }
    requires samples { AreSamples circuit.now stimulus.now }
    requires room { length inputs.old ≡ length circuit.now.inputs }
    requires fits { IsStandingOf circuit.now rounds.old }
    requires starts { rounds.old ≡ start circuit.now }
    requires text { text.old.items ≡ header circuit.now }
    ensures length { IfOk result (λ done. done ≡ run_length (run_under circuit.now stimulus.now)) }
    ensures left { IfOk result (λ done. HasLeft (O.seen out.old).held (O.seen out.new).held (header circuit.now ++ sample_lines (run_under circuit.now stimulus.now) done) text.new.items) }
    ensures begun { IsErr result → IsSentInPart (O.seen out.old).held (O.seen out.new).held (run_text (run_under circuit.now stimulus.now)) }
    ensures write { IsErrOf result TraceFault.Write → Rose (O.seen out.old).faults (O.seen out.new).faults }
    ensures only { IsErr result → IsErrOf result TraceFault.Write ⊎ IsErrOf result TraceFault.NoMemory }
    ensures later { (O.seen out.old).faults ≤ (O.seen out.new).faults }
{
    length_of_run();
    let count = stimulus.count();
    let mut done = 0;
    while done < count {
        if !trace_sample(circuit, stimulus, done, rounds, inputs, text)? {
            return Ok(done);
        }
        done += 1;
        flush_long(text, out)?;
    }
    Ok(done)
}

/// Prints the trace of the circuit under the stimulus, and answers whether a sample did not settle.
pub fn write_trace<O: Sink>(
    alloc: Global,
    circuit: &Circuit,
    stimulus: &FlatStimulus,
    out: &mut O,
) -> Result<bool, TraceFault>
    requires flat { IsFlat circuit.now }
    requires samples { AreSamples circuit.now stimulus.now }
    ensures ends { IfOk result (λ unsettled. unsettled ≡ nat_lt (run_length (run_under circuit.now stimulus.now)) (sample_count stimulus.now)) }
    ensures printed { IfOk result (λ _. (O.seen out.new).held ≡ append_known (O.seen out.old).held (run_text (run_under circuit.now stimulus.now))) }
    ensures begun { IsSentInPart (O.seen out.old).held (O.seen out.new).held (run_text (run_under circuit.now stimulus.now)) }
    ensures write { IsErrOf result TraceFault.Write → Rose (O.seen out.old).faults (O.seen out.new).faults }
    ensures only { IsErr result → IsErrOf result TraceFault.Write ⊎ IsErrOf result TraceFault.NoMemory }
    ensures later { (O.seen out.old).faults ≤ (O.seen out.new).faults }
{
    let mut rounds = Rounds::new(alloc, circuit)?;
    let mut inputs = zeros(alloc, circuit.inputs.len())?;
    let mut text = Vec::new(alloc);
    push_header(&mut text, circuit)?;
    let done = write_samples(circuit, stimulus, &mut rounds, &mut inputs, &mut text, out)?;
    let unsettled = done < stimulus.count();
    push_last_line(&mut text, unsettled, done)?;
    flush(&mut text, out)?;
    Ok(unsettled)
}
