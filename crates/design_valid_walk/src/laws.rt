//! Laws of what a whole design gives.
ghost use Rattle.std.specs.Prelude.{◌≡◌, List, Ok};
ghost use Rattle.rtlil_tree.specs.declared.module.Module.{Module};
ghost use Rattle.design_parts.specs.Parts.{Made, none_made, run};
ghost use Rattle.design_top.specs.Inputs.{inputs};
ghost use Rattle.design_walk.specs.Walks.{top_walk};
ghost use Rattle.design_valid.specs.Wired.{IsWired};

/// Where no check of a design fails, the nets, drives, cells, registers and memories that it gives fit together, and so do
/// the signals of its diagnostics.
pub fn law_of_designs()
    ensures { (ms : List Module) (top : Module) (made : Made) → run (top_walk (λ scope. inputs scope top.statements) ms top) none_made ≡ Ok made → IsWired made }
{}
