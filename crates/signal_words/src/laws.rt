//! Laws of the stores of a circuit.
ghost use Rattle.std.specs.Prelude.{◌≡◌, ℕ, List, true, Some, slice_get};
ghost use Rattle.circuit.specs.Store.{start_store};
ghost use Rattle.circuit.specs.Valid.{is_valid, sig_fits};
ghost use Rattle.circuit.specs.declared.cell.Cell.{Cell};
ghost use Rattle.circuit.specs.declared.netlist.Circuit.{Circuit};
ghost use Rattle.circuit.specs.declared.netlist.Piece.{Piece};
ghost use Rattle.circuit.specs.declared.store.Store.{Store};
ghost use Rattle.signal_words.specs.Values.{IsSignalOf};
ghost use Rattle.signal_words.specs.Stores.{IsCellOf, IsStoreOf};

/// What a store of a valid circuit has to do with the circuit's parts: each signal that fits the circuit lies inside
/// the nets, and each cell is one of the store. That each part is one that fits is `law_of_parts`.
pub fn law_of_stores()
    ensures signal { (c : Circuit) (store : Store) (sig : List Piece) → IsStoreOf c store → sig_fits c.nets sig ≡ true → IsSignalOf store.nets sig }
    ensures cell { (c : Circuit) (store : Store) (n : ℕ) (x : Cell) → is_valid c ≡ true → IsStoreOf c store → slice_get c.cells n ≡ Some x → IsCellOf store n x }
{}

/// The store before the first sample belongs to its circuit.
pub fn law_of_start()
    ensures { (c : Circuit) → is_valid c ≡ true → IsStoreOf c (start_store c) }
{}
