//! Where the walk of a file begins.
ghost use Rattle.std.specs.Prelude.{◌≡◌, ◌<◌, IfErr, IfOk, Some, length, slice_get};
ghost use Rattle.std.specs.Option.{option_copied};
ghost use Rattle.rtlil_tree.specs.declared.module.Module.{Module as TheModule};
ghost use Rattle.design_parts.specs.Parts.{Fails, Made, run};
ghost use Rattle.design_walk.specs.Modules.{LeadsTo, module_named};
ghost use Rattle.elaborate.specs.Elaborated.{walk_of, whole_walk};

use design_parts::Refusal;
use design_top::{number_modules, top_of};
use name_table::Table;
use rtlil_tree::Module;
use std::alloc::Global;

/// The top of a file, and where the names of modules lead.
#[derive(Drop)]
pub struct Start<'t> {
    /// The place of the top among the modules.
    pub top: usize,
    /// The place of the module behind each name.
    pub places: Table<'t, usize>,
}

/// Finds the top of a file, which is the module of the identifier if one is given, and numbers the modules. What refuses the
/// file here refuses all that it gives; where nothing does, what it gives is the walk from the top, which is the first module of
/// its name.
pub fn start_of<'t>(
    alloc: Global,
    modules: &[Module<'t>],
    name: Option<&[u8]>,
) -> Result<Start<'t>, Refusal>
    ensures refused { IfErr result (λ e. (so_far : Made) → Fails e (run (whole_walk modules.now (option_copied name.entry)) so_far)) }
    ensures within { IfOk result (λ start. start.top < length modules.now) }
    ensures leads { IfOk result (λ start. LeadsTo start.places modules.now) }
    ensures first { IfOk result (λ start. (top : TheModule) → slice_get modules.now start.top ≡ Some top → module_named modules.now top.name ≡ Some top) }
    ensures left { IfOk result (λ start. (top : TheModule) (so_far : Made) → slice_get modules.now start.top ≡ Some top → run (whole_walk modules.now (option_copied name.entry)) so_far ≡ run (walk_of modules.now top) so_far) }
{
    let top = top_of(alloc, modules, name)?;
    let places = number_modules(alloc, modules)?;
    Ok(Start { top, places })
}
