//! What a net bit comes from, by paths.
ghost use Rattle.std.specs.Prelude.{◌≡◌, Some};
ghost use Rattle.circuit.specs.Acyclic.{AreDrivesInside, IsDrivenOnce};
ghost use Rattle.circuit.specs.declared.netlist.Circuit.{Circuit};
ghost use Rattle.driver_check.specs.Depends.{Bit};
ghost use Rattle.design_starts.specs.Driven.{Drives};
ghost use Rattle.design_starts.specs.Origins.{origin};

/// Where each drive lies inside its net and no bit has two, a net bit comes from a register bit exactly where that
/// drives it directly or through wires alone, however many.
pub fn law_of_origins()
    ensures driven { (c : Circuit) (r x : Bit) → IsDrivenOnce c → AreDrivesInside c → Drives c r x → origin c x.0 x.1 ≡ Some r }
    ensures drives { (c : Circuit) (r x : Bit) → origin c x.0 x.1 ≡ Some r → Drives c r x }
{}
