//! The files of a run.
ghost use Rattle.std.specs.Prelude.{◌≡◌, ◌⊎◌, ℕ, ◌≤◌, Err, List, None, Some, IfOk, IsErrOf};
ghost use Rattle.flat_design.specs.Flat.{IsFlat};
ghost use Rattle.outside.specs.Faults.{Rose};
ghost use Rattle.outside.specs.Shelf.{IsLonger};
ghost use Rattle.flat_run.specs.Run.{AreSamples};
ghost use Rattle.cxxsim.specs.Trace.{HasNoBlock, HasNoDesign, IsDesign, IsFault, IsRun, IsStimulus, MayHold, design_circuit};
ghost use Rattle.cxxsim.specs.declared.refusal.Refusal.{Refusal as TheRefusal};
ghost use Rattle.cxxsim.specs.declared.refusal.Refusal.TheVariants as refusal;

use crate::refusal::{LoadFault, Refusal};
use circuit::Circuit;
use flat_design::elaborate;
use flat_stimulus::{FlatStimulus, read_stimulus};
use flat_text::{FlatFault, read_module};
use outside::{Shelf, ShelfFault};
use sim_base::Name;
use std::alloc::Global;

/// All bytes of a file, or `too_long` where it has more than the limit.
fn read_text<S: Shelf>(
    alloc: Global,
    shelf: &mut S,
    name: &Name,
    limit: u64,
    too_long: Refusal,
) -> Result<Vec<u8>, LoadFault>
    ensures text { IfOk result (λ bytes. MayHold limit ((S.seen shelf.old).file name.now) bytes.items) }
    ensures too_long { (r : TheRefusal) → IsErrOf result (LoadFault.Refused r) → (r ≡ too_long) × IsLonger ((S.seen shelf.old).file name.now) limit }
    ensures read { IsErrOf result LoadFault.Read → Rose (S.seen shelf.old).read_faults (S.seen shelf.new).read_faults }
    ensures later { (S.seen shelf.old).read_faults ≤ (S.seen shelf.new).read_faults }
    ensures files { (other : List ℕ) → (S.seen shelf.new).file other ≡ (S.seen shelf.old).file other }
    ensures writes { (S.seen shelf.new).write_faults ≡ (S.seen shelf.old).write_faults }
{
    match shelf.read(alloc, name, limit) {
        Ok(bytes) => Ok(bytes),
        Err(ShelfFault::TooLong) => Err(LoadFault::Refused(too_long)),
        Err(ShelfFault::Failed) => Err(LoadFault::Read),
        Err(ShelfFault::NoMemory) => Err(LoadFault::NoMemory),
    }
}

/// The fault of a text that was not read.
fn fault_of(fault: FlatFault, not_built: Refusal) -> LoadFault
    ensures not_built { fault ≡ FlatFault.NotBuilt → result ≡ LoadFault.Refused not_built }
    ensures no_memory { fault ≡ FlatFault.NoMemory → result ≡ LoadFault.NoMemory }
{
    match fault {
        FlatFault::NotBuilt => LoadFault::Refused(not_built),
        FlatFault::NoMemory => LoadFault::NoMemory,
    }
}

/// The circuit of a design's text.
fn circuit_of_text(alloc: Global, text: &[u8]) -> Result<Circuit, FlatFault>
    ensures ok { IfOk result (λ c. design_circuit text.now ≡ Some c) }
    ensures flat { IfOk result IsFlat }
    ensures not_built { result ≡ Err FlatFault.NotBuilt → design_circuit text.now ≡ None }
{
    let module = read_module(alloc, text)?;
    elaborate(alloc, &module)
}

/// The circuit of a file.
fn read_design<S: Shelf>(
    alloc: Global,
    shelf: &mut S,
    name: &Name,
    limit: u64,
) -> Result<Circuit, LoadFault>
    ensures design { IfOk result (IsDesign limit ((S.seen shelf.old).file name.now)) }
    ensures flat { IfOk result IsFlat }
    ensures refused { (r : TheRefusal) → IsErrOf result (LoadFault.Refused r) → ((r ≡ refusal.DesignTooLong) × IsLonger ((S.seen shelf.old).file name.now) limit) ⊎ ((r ≡ refusal.DesignNotBuilt) × HasNoDesign limit ((S.seen shelf.old).file name.now)) }
    ensures read { IsErrOf result LoadFault.Read → Rose (S.seen shelf.old).read_faults (S.seen shelf.new).read_faults }
    ensures later { (S.seen shelf.old).read_faults ≤ (S.seen shelf.new).read_faults }
    ensures files { (other : List ℕ) → (S.seen shelf.new).file other ≡ (S.seen shelf.old).file other }
    ensures writes { (S.seen shelf.new).write_faults ≡ (S.seen shelf.old).write_faults }
{
    let text = read_text(alloc, shelf, name, limit, Refusal::DesignTooLong)?;
    match circuit_of_text(alloc, &text) {
        Ok(circuit) => Ok(circuit),
        Err(fault) => Err(fault_of(fault, Refusal::DesignNotBuilt)),
    }
}

/// The samples of a file, for the circuit.
fn read_samples<S: Shelf>(
    alloc: Global,
    shelf: &mut S,
    name: &Name,
    limit: u64,
    circuit: &Circuit,
) -> Result<FlatStimulus, LoadFault>
    requires { IsFlat circuit.now }
    ensures stimulus { IfOk result (IsStimulus limit ((S.seen shelf.old).file name.now) circuit.now) }
    ensures samples { IfOk result (AreSamples circuit.now) }
    ensures refused { (r : TheRefusal) → IsErrOf result (LoadFault.Refused r) → ((r ≡ refusal.StimulusTooLong) × IsLonger ((S.seen shelf.old).file name.now) limit) ⊎ ((r ≡ refusal.StimulusNotBuilt) × HasNoBlock limit ((S.seen shelf.old).file name.now) circuit.now) }
    ensures read { IsErrOf result LoadFault.Read → Rose (S.seen shelf.old).read_faults (S.seen shelf.new).read_faults }
    ensures later { (S.seen shelf.old).read_faults ≤ (S.seen shelf.new).read_faults }
    ensures files { (other : List ℕ) → (S.seen shelf.new).file other ≡ (S.seen shelf.old).file other }
    ensures writes { (S.seen shelf.new).write_faults ≡ (S.seen shelf.old).write_faults }
{
    let text = read_text(alloc, shelf, name, limit, Refusal::StimulusTooLong)?;
    match read_stimulus(alloc, &text, circuit) {
        Ok(stimulus) => Ok(stimulus),
        Err(fault) => Err(fault_of(fault, Refusal::StimulusNotBuilt)),
    }
}

/// The circuit and the samples of a run.
#[derive(Drop)]
pub struct Loaded {
    pub circuit: Circuit,
    pub stimulus: FlatStimulus,
}

/// The circuit and the samples of the files of these names, each of at most `limit` bytes. The design's file
/// is read first; the first cause decides.
pub fn load<S: Shelf>(
    alloc: Global,
    design: &Name,
    stimulus: &Name,
    limit: u64,
    shelf: &mut S,
) -> Result<Loaded, LoadFault>
    ensures run { IfOk result (λ l. IsRun limit ((S.seen shelf.old).file design.now) ((S.seen shelf.old).file stimulus.now) l.circuit l.stimulus) }
    ensures flat { IfOk result (λ l. IsFlat l.circuit) }
    ensures samples { IfOk result (λ l. AreSamples l.circuit l.stimulus) }
    ensures refused { (r : TheRefusal) → IsErrOf result (LoadFault.Refused r) → IsFault limit ((S.seen shelf.old).file design.now) ((S.seen shelf.old).file stimulus.now) r }
    ensures read { IsErrOf result LoadFault.Read → Rose (S.seen shelf.old).read_faults (S.seen shelf.new).read_faults }
    ensures later { (S.seen shelf.old).read_faults ≤ (S.seen shelf.new).read_faults }
    ensures files { (other : List ℕ) → (S.seen shelf.new).file other ≡ (S.seen shelf.old).file other }
    ensures writes { (S.seen shelf.new).write_faults ≡ (S.seen shelf.old).write_faults }
{
    let circuit = read_design(alloc, shelf, design, limit)?;
    let stimulus = read_samples(alloc, shelf, stimulus, limit, &circuit)?;
    Ok(Loaded { circuit, stimulus })
}
