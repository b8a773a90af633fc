//! Files that are read and become a run.
ghost use Rattle.std.specs.Prelude.{◌≡◌, ◌≤◌, ◌<◌, ℕ, IfOk, IsErrOf, List};
ghost use Rattle.std.specs.Arc.{arc_value};
ghost use Rattle.std.specs.Option.{option_copied};
ghost use Rattle.eval_plan.specs.Plans.{IsPlanOf};
ghost use Rattle.outside.specs.Faults.{Rose};
ghost use Rattle.outside.specs.Shelf.{IsLonger};
ghost use Rattle.stimulus.specs.Runs.{IsRun};
ghost use Rattle.run_files.specs.Files.{IsDesign, IsFilesOf, IsStimulus, MayHold, files_of};
ghost use Rattle.run_files.specs.Refusals.{IsDesignFault, IsFault, IsStimulusFault};
ghost use Rattle.run_files.specs.declared.refusal.Refusal.{Refusal as TheRefusal};

use crate::fault::FileFault;
use crate::refusal::Refusal;
use circuit::Circuit;
use design_load::{Loaded, load_design};
use eval_plan::Plan;
use outside::{Shelf, ShelfFault};
use sim_base::{Name, NoMemory};
use std::alloc::Global;
use std::sync::Arc;
use stimulus::{Run, read};
use stimulus_blocks::Stimulus;

/// A run that was read from files, and the order in which its circuit is evaluated.
#[derive(Debug, Drop)]
pub struct RunFiles {
    pub run: Run,
    pub plan: Plan,
}

/// All bytes of a file, or `too_long` where it has more than the limit.
fn read_text<S: Shelf>(
    alloc: Global,
    shelf: &mut S,
    name: &Name,
    limit: u64,
    too_long: Refusal,
) -> Result<Vec<u8>, FileFault>
    ensures text { IfOk result (λ bytes. MayHold limit ((S.seen shelf.old).file name.now) bytes.items) }
    ensures too_long { (r : TheRefusal) → IsErrOf result (FileFault.Refused r) → (r ≡ too_long) × IsLonger ((S.seen shelf.old).file name.now) limit }
    ensures read { IsErrOf result FileFault.Read → Rose (S.seen shelf.old).read_faults (S.seen shelf.new).read_faults }
    ensures later { (S.seen shelf.old).read_faults ≤ (S.seen shelf.new).read_faults }
    ensures files { (other : List ℕ) → (S.seen shelf.new).file other ≡ (S.seen shelf.old).file other }
    ensures writes { (S.seen shelf.new).write_faults ≡ (S.seen shelf.old).write_faults }
{
    match shelf.read(alloc, name, limit) {
        Ok(bytes) => Ok(bytes),
        Err(ShelfFault::TooLong) => Err(FileFault::Refused(too_long)),
        Err(ShelfFault::Failed) => Err(FileFault::Read),
        Err(ShelfFault::NoMemory) => Err(FileFault::NoMemory),
    }
}

/// The design of a file, in an order.
fn read_design<S: Shelf>(
    alloc: Global,
    shelf: &mut S,
    name: &Name,
    top: Option<&[u8]>,
    limit: u64,
) -> Result<Loaded, FileFault>
    requires { limit < 4294967295 }
    ensures design { IfOk result (λ l. IsDesign limit ((S.seen shelf.old).file name.now) (option_copied top.entry) l.circuit) }
    ensures plan { IfOk result (λ l. IsPlanOf l.circuit l.plan) }
    ensures refused { (r : TheRefusal) → IsErrOf result (FileFault.Refused r) → IsDesignFault limit ((S.seen shelf.old).file name.now) (option_copied top.entry) r }
    ensures read { IsErrOf result FileFault.Read → Rose (S.seen shelf.old).read_faults (S.seen shelf.new).read_faults }
    ensures later { (S.seen shelf.old).read_faults ≤ (S.seen shelf.new).read_faults }
    ensures files { (other : List ℕ) → (S.seen shelf.new).file other ≡ (S.seen shelf.old).file other }
    ensures writes { (S.seen shelf.new).write_faults ≡ (S.seen shelf.old).write_faults }
{
    let text = read_text(alloc, shelf, name, limit, Refusal::DesignTooLong)?;
    Ok(load_design(alloc, &text, top)?)
}

/// The stimulus of a file, for a circuit.
fn read_stimulus<S: Shelf>(
    alloc: Global,
    shelf: &mut S,
    name: &Name,
    limit: u64,
    circuit: &Circuit,
) -> Result<Stimulus, FileFault>
    requires { limit < 4294967295 }
    ensures stimulus { IfOk result (IsStimulus limit ((S.seen shelf.old).file name.now) circuit.now) }
    ensures refused { (r : TheRefusal) → IsErrOf result (FileFault.Refused r) → IsStimulusFault limit ((S.seen shelf.old).file name.now) circuit.now r }
    ensures read { IsErrOf result FileFault.Read → Rose (S.seen shelf.old).read_faults (S.seen shelf.new).read_faults }
    ensures later { (S.seen shelf.old).read_faults ≤ (S.seen shelf.new).read_faults }
    ensures files { (other : List ℕ) → (S.seen shelf.new).file other ≡ (S.seen shelf.old).file other }
    ensures writes { (S.seen shelf.new).write_faults ≡ (S.seen shelf.old).write_faults }
{
    let text = read_text(alloc, shelf, name, limit, Refusal::StimulusTooLong)?;
    Ok(read(alloc, &text, circuit)?)
}

/// The run of a circuit under a stimulus.
fn run_of(alloc: Global, circuit: Circuit, stimulus: Stimulus) -> Result<Run, NoMemory>
    ensures circuit { IfOk result (λ run. arc_value run.circuit ≡ circuit) }
    ensures stimulus { IfOk result (λ run. arc_value run.stimulus ≡ stimulus) }
{
    Ok(Run {
        circuit: Arc::new(alloc, circuit)?,
        stimulus: Arc::new(alloc, stimulus)?,
    })
}

/// Reads the files of a run, each of at most `limit` bytes: first that of the design, which becomes a circuit in an order, then
/// that of the stimulus for it. The first cause decides: a file that cannot be read, where the count of such faults rises, or
/// one that is refused. `top` is the identifier of the module that is run, where one is named. No file of the shelf changes.
pub fn load_files<S: Shelf>(
    alloc: Global,
    design: &Name,
    stimulus: &Name,
    top: Option<&[u8]>,
    limit: u64,
    shelf: &mut S,
) -> Result<RunFiles, FileFault>
    requires { limit < 4294967295 }
    ensures files_of { IfOk result (λ l. IsFilesOf limit (files_of (S.seen shelf.old).file design.now stimulus.now (option_copied top.entry)) (arc_value l.run.circuit) (arc_value l.run.stimulus)) }
    ensures run { IfOk result (λ l. IsRun l.run) }
    ensures plan { IfOk result (λ l. IsPlanOf (arc_value l.run.circuit) l.plan) }
    ensures refused { (r : TheRefusal) → IsErrOf result (FileFault.Refused r) → IsFault limit (files_of (S.seen shelf.old).file design.now stimulus.now (option_copied top.entry)) r }
    ensures read { IsErrOf result FileFault.Read → Rose (S.seen shelf.old).read_faults (S.seen shelf.new).read_faults }
    ensures later { (S.seen shelf.old).read_faults ≤ (S.seen shelf.new).read_faults }
    ensures files { (other : List ℕ) → (S.seen shelf.new).file other ≡ (S.seen shelf.old).file other }
    ensures writes { (S.seen shelf.new).write_faults ≡ (S.seen shelf.old).write_faults }
{
    let Loaded { circuit, plan } = read_design(alloc, shelf, design, top, limit)?;
    match read_stimulus(alloc, shelf, stimulus, limit, &circuit) {
        Ok(stimulus) => {
            let run = run_of(alloc, circuit, stimulus)?;
            Ok(RunFiles { run, plan })
        }
        Err(fault) => Err(fault),
    }
}
