//! Laws of the scopes of a whole design.
ghost use Rattle.std.specs.Prelude.{◌≡◌, List, Ok, true};
ghost use Rattle.std.specs.List.{list_all};
ghost use Rattle.circuit.specs.Built.{AreScopesApart};
ghost use Rattle.circuit.specs.Valid.{names_differ};
ghost use Rattle.rtlil_tree.specs.declared.module.Module.{Module};
ghost use Rattle.design_parts.specs.Parts.{Made, none_made, run};
ghost use Rattle.design_top.specs.Inputs.{inputs};
ghost use Rattle.design_walk.specs.Walks.{top_walk};
ghost use Rattle.rtlil_names.specs.Names.{is_named_module, is_spaceless_module};

use circuit::law_of_order;

/// Where no name is empty behind its first byte or has a space there, and no check of a design fails, no two of its scopes have
/// one name: that of a scope is the names of the instances on the way to it with a space between each two, and the top's is empty.
pub fn law_of_scopes()
    ensures { (ms : List Module) (top : Module) (made : Made) → list_all is_spaceless_module ms ≡ true → list_all is_named_module ms ≡ true → is_spaceless_module top ≡ true → is_named_module top ≡ true
        → run (top_walk (λ scope. inputs scope top.statements) ms top) none_made ≡ Ok made → names_differ made.scopes ≡ true }
{
    law_of_order();
}
