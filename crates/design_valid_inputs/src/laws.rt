//! Laws of the inputs of a whole design.
ghost use Rattle.std.specs.Prelude.{◌≡◌, List, Ok, true};
ghost use Rattle.circuit.specs.Valid.{inputs_fit};
ghost use Rattle.rtlil_tree.specs.declared.module.Module.{Module};
ghost use Rattle.design_parts.specs.Parts.{Made, none_made, run};
ghost use Rattle.design_top.specs.Inputs.{inputs};
ghost use Rattle.design_walk.specs.Walks.{top_walk};

/// Where no check of a design fails, no net stands twice among its inputs, and each net there is that of exactly one item.
pub fn law_of_inputs()
    ensures { (ms : List Module) (top : Module) (made : Made) → run (top_walk (λ scope. inputs scope top.statements) ms top) none_made ≡ Ok made → inputs_fit made.nets made.items made.inputs ≡ true }
{}
