//! A law of files that have a run.
ghost use Rattle.std.specs.Prelude.{ℕ};
ghost use Rattle.circuit.specs.declared.netlist.Circuit.{Circuit};
ghost use Rattle.stimulus_blocks.specs.Courses.{Course};
ghost use Rattle.run_files.specs.Files.{Files, IsFilesOf};
ghost use Rattle.run_files.specs.Refusals.{IsKnownFault};
ghost use Rattle.run_files.specs.declared.refusal.Refusal.{Refusal};

use design_finish::law_of_finishing;

/// Files that have a run have no fault for which they are refused, where a shelf tells of them.
pub fn law_of_files()
    ensures { (limit : ℕ) (files : Files) (c : Circuit) (s : Course) (r : Refusal) → IsFilesOf limit files c s → IsKnownFault limit files r → ⊥ }
{
    law_of_finishing();
}
