//! A file that becomes a circuit.
ghost use Rattle.std.specs.Prelude.{◌<◌, ◌^◌, IfOk};
ghost use Rattle.std.specs.Option.{option_copied};
ghost use Rattle.circuit.specs.Valid.{node_count};
ghost use Rattle.design_parts.specs.Parts.{Runs};
ghost use Rattle.elaborate.specs.Elaborated.{IsElaborated, whole_walk};

use crate::start::start_of;
use circuit::Circuit;
use design_descent::walk_design;
use design_finish::finish;
use design_parts::{Draft, Refusal};
use rtlil_tree::{File, Module};
use std::alloc::Global;

/// Walks the modules of a file from the top, which is that of the name if one is given.
fn walk_modules<'t>(
    alloc: Global,
    modules: &[Module<'t>],
    name: Option<&[u8]>,
    draft: &mut Draft<'t>,
) -> Result<(), Refusal>
    ensures { Runs (whole_walk modules.now (option_copied name.entry)) draft.old result draft.new }
{
    let start = start_of(alloc, modules, name)?;
    walk_design(alloc, modules, &start.places, &modules[start.top], draft)
}

/// The circuit of a file: the modules from the top on, each instance in its place, as nets, cells, registers and memories with
/// what drives them, items in the byte order of their names, and registers with their start values. The top is the first
/// module of the identifier that is given, or else the one whose attribute `\top` is not zero, or the only one of the file.
/// The first check that fails refuses the file, in this order: those of the top, those of the modules' names, then those of the
/// walk. A process gives nothing here: who takes files with processes refuses them first. There is no memory for 2^32 cells and read
/// ports together, and more.
pub fn elaborate(alloc: Global, file: &File, top: Option<&[u8]>) -> Result<Circuit, Refusal>
    ensures exact { IsElaborated file.now.modules (option_copied top.entry) result }
    ensures nodes { IfOk result (λ circuit. node_count circuit < 2 ^ 32) }
{
    let mut draft = Draft::new(alloc);
    walk_modules(alloc, file.modules.as_slice(), top, &mut draft)?;
    let (made, inits) = draft.into_parts();
    Ok(finish(alloc, made, inits.as_slice())?)
}
