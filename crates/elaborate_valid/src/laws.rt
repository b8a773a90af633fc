//! Laws of the circuit of a file.
ghost use Rattle.std.specs.Prelude.{◌≡◌, ◌<◌, ◌^◌, ℕ, List, Ok, Option, true};
ghost use Rattle.std.specs.List.{list_all};
ghost use Rattle.circuit.specs.Valid.{is_valid, node_count};
ghost use Rattle.circuit.specs.declared.netlist.Circuit.{Circuit};
ghost use Rattle.rtlil_tree.specs.declared.module.Module.{Module};
ghost use Rattle.elaborate.specs.Elaborated.{IsElaborated};
ghost use Rattle.rtlil_names.specs.Names.{is_well_named};

use design_finish::law_of_finishing;
use design_ready::law_of_readiness;

/// The circuit that the modules of a file give is valid, if they are well named and its nodes can be numbered.
pub fn law_of_elaboration()
    ensures { (ms : List Module) (name : Option (List ℕ)) (circuit : Circuit) → IsElaborated ms name (Ok circuit) → list_all is_well_named ms ≡ true → node_count circuit < 2 ^ 32 → is_valid circuit ≡ true }
{
    law_of_finishing();
    law_of_readiness();
}
