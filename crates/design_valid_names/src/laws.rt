//! Laws of the names of a whole design.
ghost use Rattle.std.specs.Prelude.{◌≡◌, List, Ok, true};
ghost use Rattle.std.specs.List.{list_all};
ghost use Rattle.circuit.specs.Built.{AreNamesApart};
ghost use Rattle.rtlil_tree.specs.declared.module.Module.{Module};
ghost use Rattle.design_parts.specs.Parts.{Made, none_made, run};
ghost use Rattle.design_top.specs.Inputs.{inputs};
ghost use Rattle.design_walk.specs.Walks.{top_walk};
ghost use Rattle.rtlil_names.specs.Names.{is_spaceless_module};

/// Where the names of wires and cells have no space and no check of a design fails, no two of its items have one name.
pub fn law_of_names()
    ensures { (ms : List Module) (top : Module) (made : Made) → list_all is_spaceless_module ms ≡ true → is_spaceless_module top ≡ true → run (top_walk (λ scope. inputs scope top.statements) ms top) none_made ≡ Ok made → AreNamesApart made.items }
{}
