//! Laws of memories, and of cells that drive nothing.
ghost use Rattle.rtlil_signals.specs.Signals.{Scope};
ghost use Rattle.rtlil_tree.specs.declared.module.Cell.{Cell};
ghost use Rattle.design_wires.specs.Places.{InstancePlace};
ghost use Rattle.design_memory.specs.Memories.{memory};
ghost use Rattle.design_diagnostics.specs.Diagnostics.{silent_cell};
ghost use Rattle.design_diagnostics.specs.declared.names.SilentType.{SilentType};
ghost use Rattle.design_valid.specs.Keeps.{Keeps};
ghost use Rattle.design_valid.specs.Wired.{IsWiredIn};

/// A memory keeps that what was made fits together: its ports have the widths of a bit, an address or a row, those that
/// are not joined too, and what its read ports drive takes bits of a row.
pub fn law_of_memories()
    ensures { (here : InstancePlace) (scope : Scope) (c : Cell) → Keeps (IsWiredIn scope) (memory here scope c) }
{}

/// So does a cell that drives nothing: the signals of a diagnostic have one bit each, and its trigger as many as it has
/// edges.
pub fn law_of_silent_cells()
    ensures { (here : InstancePlace) (scope : Scope) (silent : SilentType) (c : Cell) → Keeps (IsWiredIn scope) (silent_cell here scope silent c) }
{}
