//! Laws of the walk.
ghost use Rattle.std.specs.Prelude.{◌≡◌, ℕ, ◌+◌, List, length};
ghost use Rattle.std.specs.Option.{IsSome};
ghost use Rattle.design_parts.specs.Parts.{Made, Walk};
ghost use Rattle.rtlil_signals.specs.Signals.{Scope};
ghost use Rattle.rtlil_tree.specs.declared.module.Module.{Module};
ghost use Rattle.design_walk.specs.Modules.{module_named};
ghost use Rattle.design_walk.specs.Walks.{top_walk, top_walk_within};

/// No more levels than there are modules are ever needed: a greater bound gives the same checks and the same lists.
#[tactic(auto, using(crate::proofs::Depth::top_deep))]
pub fn law_of_depth()
    ensures { (inputs : Scope → Walk) (ms : List Module) (top : Module) (more : ℕ) (so_far : Made) → IsSome (module_named ms top.name) → top_walk_within (length ms + more) inputs ms top so_far ≡ top_walk inputs ms top so_far }
{}
