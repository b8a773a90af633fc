//! Laws of registers and diagnostics.
ghost use Rattle.std.specs.Prelude.{◌≡◌, ◌-◌, ℕ, List, true, Some, None, length, slice_get};
ghost use Rattle.std.specs.List.{list_any};
ghost use Rattle.circuit.specs.Rounds.{Round};
ghost use Rattle.circuit.specs.Shown.{fires_by};
ghost use Rattle.circuit.specs.Valid.{is_valid};
ghost use Rattle.circuit.specs.declared.diagnostic.Diag.{Diag};
ghost use Rattle.circuit.specs.declared.diagnostic.Trigger.{Trigger};
ghost use Rattle.circuit.specs.declared.netlist.Circuit.{Circuit};
ghost use Rattle.circuit.specs.declared.register.Reg.{Reg};
ghost use Rattle.circuit.specs.declared.store.Store.{Store};
ghost use Rattle.signal_words.specs.Stores.{IsStoreOf};
ghost use Rattle.state_cells.specs.Diagnostics.{fires_in, IsDiagnosticOf};
ghost use Rattle.state_cells.specs.Registers.{IsRegisterOf};

use circuit::law_of_parts;
use signal_words::law_of_stores;

/// Over the rounds of a sample, a diagnostic without a trigger fires where it fires in the last one, and
/// a diagnostic with a trigger where it fires in one of them.
pub fn law_of_firing()
    ensures last { (d : Diag) (rounds : List Round) (r : Round) → d.trigger ≡ None → slice_get rounds (length rounds - 1) ≡ Some r → fires_by d.trigger d rounds ≡ fires_in d r }
    ensures some { (d : Diag) (t : Trigger) (rounds : List Round) → d.trigger ≡ Some t → fires_by d.trigger d rounds ≡ list_any (fires_in d) rounds }
{}

/// Over stores of a valid circuit, each of its registers and diagnostics has what `next` and `fires`
/// ask of it.
pub fn law_of_rounds()
    ensures register { (c : Circuit) (before now : Store) (n : ℕ) (r : Reg) → is_valid c ≡ true → IsStoreOf c before → IsStoreOf c now → slice_get c.regs n ≡ Some r → IsRegisterOf before.nets now.nets r }
    ensures diagnostic { (c : Circuit) (before now : Store) (n : ℕ) (d : Diag) → is_valid c ≡ true → IsStoreOf c before → IsStoreOf c now → slice_get c.diags n ≡ Some d → IsDiagnosticOf before.nets now.nets d }
{
    law_of_parts();
    law_of_stores();
}
