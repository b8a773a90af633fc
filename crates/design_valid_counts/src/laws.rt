//! Laws of how much a whole design gives.
ghost use Rattle.std.specs.Prelude.{◌≡◌, List, Ok};
ghost use Rattle.rtlil_tree.specs.declared.module.Module.{Module};
ghost use Rattle.design_parts.specs.Parts.{Made, none_made, run};
ghost use Rattle.design_top.specs.Inputs.{inputs};
ghost use Rattle.design_walk.specs.Walks.{top_walk};
ghost use Rattle.design_valid_counts.specs.Counted.{AreCounted};

/// Where no check of a design fails, what it gives is within its limits, and it has no more scopes than instances and the
/// top, and no more inputs than nets.
pub fn law_of_counts()
    ensures { (ms : List Module) (top : Module) (made : Made) → run (top_walk (λ scope. inputs scope top.statements) ms top) none_made ≡ Ok made → AreCounted made }
{}
