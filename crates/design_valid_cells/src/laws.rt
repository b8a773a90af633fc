//! Laws of cells of the library.
ghost use Rattle.std.specs.Prelude.{◌≡◌, ℕ, List, Some};
ghost use Rattle.cell_library.specs.Lines.{TypeLine};
ghost use Rattle.cell_library.specs.Table.{line_of};
ghost use Rattle.rtlil_signals.specs.Signals.{Scope};
ghost use Rattle.rtlil_tree.specs.declared.module.Cell.{Cell};
ghost use Rattle.design_cells.specs.Cells.{library_cell};
ghost use Rattle.design_valid.specs.Keeps.{Keeps};
ghost use Rattle.design_valid.specs.Wired.{IsWiredIn};

/// A cell of the library whose type has a line of the table keeps that what was made fits together, whether it becomes a
/// cell without a state, a register or a latch.
pub fn law_of_cells()
    ensures { (owner : List ℕ) (scope : Scope) (name : List ℕ) (l : TypeLine) (c : Cell) → line_of name ≡ Some l → Keeps (IsWiredIn scope) (library_cell owner scope l c) }
{}
