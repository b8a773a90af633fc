//! Laws of the circuits of flat modules.
ghost use Rattle.std.specs.Prelude.{◌≡◌, Some};
ghost use Rattle.circuit.specs.Acyclic.{IsInOrder};
ghost use Rattle.flat_text.specs.declared.module.Module.{Module};
ghost use Rattle.flat_design.specs.Circuit.{circuit_of};
ghost use Rattle.flat_design.specs.Flat.{IsFlat};

use circuit::Circuit;

/// The circuit of a module is flat.
pub fn module_gives_flat(circuit: &Circuit)
    ensures { (m : Module) → circuit_of m ≡ Some circuit.now → IsFlat circuit.now }
{
    let _ = circuit;
}

/// In a flat circuit each bit has one driver, and no bit depends on itself.
pub fn flat_is_in_order(circuit: &Circuit)
    requires { IsFlat circuit.now }
    ensures { IsInOrder circuit.now }
{
    let _ = circuit;
}
