//! Laws of what a whole design shows.
ghost use Rattle.std.specs.Prelude.{◌≡◌, List, Ok, true};
ghost use Rattle.std.specs.List.{list_all};
ghost use Rattle.rtlil_tree.specs.declared.module.Module.{Module};
ghost use Rattle.design_parts.specs.Parts.{Made, none_made, run};
ghost use Rattle.design_top.specs.Inputs.{inputs};
ghost use Rattle.design_walk.specs.Walks.{top_walk};
ghost use Rattle.design_valid_items.specs.Shown.{HasTop, IsShown};
ghost use Rattle.rtlil_names.specs.Names.{is_text_module};

/// Where the names that a file writes are UTF-8 and no check of a design fails, each item is in a scope, shows what is
/// there and has a name and a source that fit, and so have the scopes and the diagnostics; one scope is the top.
pub fn law_of_items()
    ensures items { (ms : List Module) (top : Module) (made : Made) → list_all is_text_module ms ≡ true → is_text_module top ≡ true → run (top_walk (λ scope. inputs scope top.statements) ms top) none_made ≡ Ok made → IsShown made }
    ensures top { (ms : List Module) (top : Module) (made : Made) → list_all is_text_module ms ≡ true → is_text_module top ≡ true → run (top_walk (λ scope. inputs scope top.statements) ms top) none_made ≡ Ok made → HasTop made }
{}
