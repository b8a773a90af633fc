//! Laws of what a design gives.
ghost use Rattle.std.specs.Prelude.{◌≡◌, ℕ, List, Ok, length};
ghost use Rattle.rtlil_signals.specs.Signals.{Scope};
ghost use Rattle.rtlil_tree.specs.declared.module.Assignment.{Assignment};
ghost use Rattle.rtlil_tree.specs.declared.module.Statement.{Statement};
ghost use Rattle.design_parts.specs.Parts.{Made, run};
ghost use Rattle.design_wires.specs.Connects.{connect};
ghost use Rattle.design_wires.specs.Places.{InstancePlace};
ghost use Rattle.design_wires.specs.Wires.{scope_of, wires};
ghost use Rattle.design_valid.specs.Keeps.{Keeps};
ghost use Rattle.design_valid.specs.Wired.{IsWired, IsWiredIn, StandsOver};

/// Wires of an instance keep that what was made fits together, their names stand for nets that are there behind them,
/// and connections between them keep both.
pub fn law_of_wires()
    ensures wires { (here : InstancePlace) (earlier : Scope) (statements : List Statement) → Keeps IsWired (wires here earlier statements) }
    ensures names { (here : InstancePlace) (earlier : Scope) (statements : List Statement) (before behind : Made) → run (wires here earlier statements) before ≡ Ok behind → StandsOver (scope_of (length before.nets) statements) behind.nets }
    ensures connect { (owner : List ℕ) (scope : Scope) (a : Assignment) → Keeps (IsWiredIn scope) (connect owner scope a) }
{}
