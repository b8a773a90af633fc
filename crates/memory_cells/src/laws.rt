//! Laws of memories.
ghost use Rattle.std.specs.Prelude.{◌≡◌, ◌*◌, ℕ, List, true, Some, map, slice_get};
ghost use Rattle.sim_base.specs.BitValue.{BitValue};
ghost use Rattle.circuit.specs.Valid.{is_valid};
ghost use Rattle.circuit.specs.declared.memory.Mem.{Mem};
ghost use Rattle.circuit.specs.declared.netlist.Circuit.{Circuit};
ghost use Rattle.circuit.specs.declared.store.Store.{Store};
ghost use Rattle.signal_words.specs.Stores.{IsStoreOf};
ghost use Rattle.sim_base.specs.Values.{widths};
ghost use Rattle.memory_cells.specs.Ports.{IsMemoryOf};
ghost use Rattle.memory_cells.specs.Rows.{AreRowsOf, start_rows};

use circuit::law_of_parts;
use signal_words::law_of_stores;

/// Over stores of a valid circuit, each of its memories, the values of its read ports and its rows
/// before the first sample have what `read_port` and `clock_ports` ask of them.
pub fn law_of_memories()
    ensures memory { (c : Circuit) (before now : Store) (n : ℕ) (m : Mem) → is_valid c ≡ true → IsStoreOf c before → IsStoreOf c now → slice_get c.mems n ≡ Some m → IsMemoryOf before.nets now.nets m }
    ensures outs { (c : Circuit) (store : Store) (n : ℕ) (m : Mem) (outs : List BitValue) → IsStoreOf c store → slice_get c.mems n ≡ Some m → slice_get store.reads n ≡ Some outs → widths outs ≡ map (λ _. m.width) m.reads }
    ensures init { (c : Circuit) (n : ℕ) (m : Mem) → is_valid c ≡ true → slice_get c.mems n ≡ Some m → m.init.width ≡ m.size * m.width }
    ensures start { (m : Mem) → AreRowsOf m (start_rows m) }
{
    law_of_parts();
    law_of_stores();
}
