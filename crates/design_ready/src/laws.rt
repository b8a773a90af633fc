//! Laws of what a whole design gives.
ghost use Rattle.std.specs.Prelude.{◌≡◌, ◌<◌, ◌^◌, List, Ok, true};
ghost use Rattle.std.specs.List.{list_all};
ghost use Rattle.circuit.specs.Valid.{node_count};
ghost use Rattle.rtlil_tree.specs.declared.module.Module.{Module};
ghost use Rattle.design_parts.specs.Parts.{Made, circuit_of, none_made, run};
ghost use Rattle.design_top.specs.Inputs.{inputs};
ghost use Rattle.design_walk.specs.Walks.{top_walk};
ghost use Rattle.design_finish.specs.Finished.{AreReady};
ghost use Rattle.rtlil_names.specs.Names.{is_well_named};

use design_valid_names::law_of_names;
use design_valid_scopes::law_of_scopes;

/// Where no check of a design fails and its modules are well named, its lists are ready to become a valid circuit, if its nodes can
/// be numbered.
pub fn law_of_readiness()
    ensures { (ms : List Module) (top : Module) (made : Made) → list_all is_well_named ms ≡ true → is_well_named top ≡ true → run (top_walk (λ scope. inputs scope top.statements) ms top) none_made ≡ Ok made
        → node_count (circuit_of made) < 2 ^ 32 → AreReady (circuit_of made) }
{
    law_of_names();
    law_of_scopes();
}
