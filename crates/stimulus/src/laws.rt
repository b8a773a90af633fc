//! Laws of the run of a circuit and its stimulus.
ghost use Rattle.std.specs.Prelude.{◌≡◌, ◌<◌, length, map, slice_index};
ghost use Rattle.circuit.specs.declared.netlist.Circuit.{Circuit};
ghost use Rattle.stimulus_blocks.specs.Courses.{Course, input_widths};
ghost use Rattle.stimulus.specs.Runs.{IsStimulusOf};

/// The values of a sample have the widths of the circuit's inputs.
pub fn law_of_inputs()
    ensures { (c : Circuit) (s : Course) → IsStimulusOf c s → input_widths s ≡ map (λ net. slice_index (map (λ x. x.width) c.nets) net) c.inputs }
{}

/// There is a block, and so a sample.
pub fn law_of_blocks()
    ensures { (c : Circuit) (s : Course) → IsStimulusOf c s → 0 < length s.blocks }
{}
