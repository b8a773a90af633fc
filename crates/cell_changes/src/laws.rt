//! Laws of cells that read something else than before.
ghost use Rattle.std.specs.Prelude.{◌≡◌, ℕ, ◌↔◌, Some, false, true, slice_get};
ghost use Rattle.circuit.specs.Output.{ReadsBit, output};
ghost use Rattle.circuit.specs.Signal.{AreBits, Digits};
ghost use Rattle.circuit.specs.Valid.{is_valid};
ghost use Rattle.circuit.specs.declared.cell.Cell.{Cell};
ghost use Rattle.circuit.specs.declared.netlist.Circuit.{Circuit};
ghost use Rattle.circuit.specs.declared.store.Store.{Store};
ghost use Rattle.signal_words.specs.Stores.{IsStoreOf};
ghost use Rattle.cell_changes.specs.Changes.{IsReadIn, has_changed};

/// What a cell reads has not changed exactly where each bit that it reads is as it was, and then it gives what it gave.
pub fn law_of_changes()
    ensures bits { (c : Cell) (before now : Digits) → AreBits before → AreBits now → (has_changed before now c ≡ false) ↔ ((net bit : ℕ) → ReadsBit c net bit → before net bit ≡ now net bit) }
    ensures output { (c : Cell) (before now : Digits) → has_changed before now c ≡ false → output before c ≡ output now c }
{}

/// What each cell of a valid circuit reads lies in each store of the circuit.
pub fn law_of_readings()
    ensures { (c : Circuit) (store : Store) (n : ℕ) (x : Cell) → is_valid c ≡ true → IsStoreOf c store → slice_get c.cells n ≡ Some x → IsReadIn store.nets x }
{}
