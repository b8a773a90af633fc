//! Laws by which a circuit is built and read: what a valid one is part by part, and which slot shows what.
ghost use Rattle.std.specs.Prelude.{◌≡◌, ◌≤◌, ◌<◌, ◌+◌, ◌++◌, ℕ, List, true, Some, length, take, slice_get, slice_index};
ghost use Rattle.std.specs.List.{list_all};
ghost use Rattle.std.specs.List.Sorted.{IsPermutation, IsSortedBy};
ghost use Rattle.circuit.specs.Built.{AreFitting, AreNamesApart, AreNumbersApart, AreScopesApart, DriversStandIn, ShowsWhatIsThere, StandsIn, extended, slots_of_items};
ghost use Rattle.circuit.specs.Rounds.{Run, Standing, standing_at};
ghost use Rattle.circuit.specs.Shown.{fires_at, flag, item_number, shown, slots_of};
ghost use Rattle.circuit.specs.Slots.{item_widths, slot_widths};
ghost use Rattle.circuit.specs.Valid.{Drivers, cell_fits, diag_fits, drive_fits, drivers_of, is_before, is_shown_once, is_valid, item_fits, mem_fits, names_differ, names_rise, numbers_differ, register_fits, sig_fits, sig_of, slot_count, slots_run};
ghost use Rattle.circuit.specs.declared.cell.Cell.{Cell};
ghost use Rattle.circuit.specs.declared.diagnostic.Diag.{Diag};
ghost use Rattle.circuit.specs.declared.item.Item.{Item};
ghost use Rattle.circuit.specs.declared.item.Scope.{Scope};
ghost use Rattle.circuit.specs.declared.memory.Mem.{Mem};
ghost use Rattle.circuit.specs.declared.netlist.Circuit.{Circuit};
ghost use Rattle.circuit.specs.declared.netlist.Drive.{Drive};
ghost use Rattle.circuit.specs.declared.netlist.Net.{Net};
ghost use Rattle.circuit.specs.declared.netlist.Piece.{Piece};
ghost use Rattle.circuit.specs.declared.register.Reg.{Reg};

/// A circuit is valid exactly where each of its lists passes its tests.
pub fn law_of_validity()
    ensures parts { (c : Circuit) → is_valid c ≡ true → AreFitting c }
    ensures whole { (c : Circuit) → AreFitting c → is_valid c ≡ true }
{}

/// What fits over a list of nets still fits where nets are appended, and a drive where each list that it may
/// name grows.
pub fn law_of_growth()
    ensures nets { (xs more : List Net) → StandsIn xs (xs ++ more) }
    ensures lists { (from : Drivers) (nets : List Net) (inputs : List ℕ) (cells : List Cell) (regs : List Reg) (mems : List Mem) → DriversStandIn from (extended from nets inputs cells regs mems) }
    ensures signal { (nets more : List Net) (ps : List Piece) → StandsIn nets more → sig_fits nets ps ≡ true → sig_fits more ps ≡ true }
    ensures wide { (nets more : List Net) (width : ℕ) (ps : List Piece) → StandsIn nets more → sig_of nets width ps ≡ true → sig_of more width ps ≡ true }
    ensures cells { (nets more : List Net) (xs : List Cell) → StandsIn nets more → list_all (cell_fits nets) xs ≡ true → list_all (cell_fits more) xs ≡ true }
    ensures registers { (nets more : List Net) (xs : List Reg) → StandsIn nets more → list_all (register_fits nets) xs ≡ true → list_all (register_fits more) xs ≡ true }
    ensures memories { (nets more : List Net) (xs : List Mem) → StandsIn nets more → list_all (mem_fits nets) xs ≡ true → list_all (mem_fits more) xs ≡ true }
    ensures diagnostics { (nets more : List Net) (xs : List Diag) → StandsIn nets more → list_all (diag_fits nets) xs ≡ true → list_all (diag_fits more) xs ≡ true }
    ensures drives { (from to : Drivers) (xs : List Drive) → DriversStandIn from to → list_all (drive_fits from) xs ≡ true → list_all (drive_fits to) xs ≡ true }
{}

/// What puts items, scopes and inputs in order: items that are sorted by names of which no two are the same,
/// first slots that are sums, names and numbers that differ. A sort changes neither which items fit nor which
/// nets are shown once.
pub fn law_of_order()
    ensures rise { (made items : List Item) → AreNamesApart made → IsPermutation made items → IsSortedBy (λ x y. is_before x.name y.name) items → names_rise items ≡ true }
    ensures before { (items : List Item) → names_rise items ≡ true → (i j : ℕ) (x y : Item) → i < j → slice_get items i ≡ Some x → slice_get items j ≡ Some y → is_before x.name y.name ≡ true }
    ensures fit { (nets : List Net) (mems : List Mem) (scopes : List Scope) (made items : List Item) → IsPermutation made items → list_all (item_fits nets mems scopes) made ≡ true → list_all (item_fits nets mems scopes) items ≡ true }
    ensures once { (net : ℕ) (made items : List Item) → IsPermutation made items → is_shown_once items net ≡ is_shown_once made net }
    ensures slots { (mems : List Mem) (items : List Item) → ((n : ℕ) (i : Item) → slice_get items n ≡ Some i → i.first_slot ≡ slots_of_items mems (take n items)) → slots_run mems 0 items ≡ true }
    ensures scopes { (scopes : List Scope) → AreScopesApart scopes → names_differ scopes ≡ true }
    ensures scopes_apart { (scopes : List Scope) → names_differ scopes ≡ true → AreScopesApart scopes }
    ensures inputs { (inputs : List ℕ) → AreNumbersApart inputs → numbers_differ inputs ≡ true }
    ensures inputs_apart { (inputs : List ℕ) → numbers_differ inputs ≡ true → AreNumbersApart inputs }
{}

/// In a valid circuit each part fits over what it names, and what an item shows is there.
pub fn law_of_parts()
    ensures drive { (c : Circuit) (n : ℕ) (d : Drive) → is_valid c ≡ true → slice_get c.drives n ≡ Some d → drive_fits (drivers_of c) d ≡ true }
    ensures cell { (c : Circuit) (n : ℕ) (x : Cell) → is_valid c ≡ true → slice_get c.cells n ≡ Some x → cell_fits c.nets x ≡ true }
    ensures register { (c : Circuit) (n : ℕ) (r : Reg) → is_valid c ≡ true → slice_get c.regs n ≡ Some r → register_fits c.nets r ≡ true }
    ensures memory { (c : Circuit) (n : ℕ) (m : Mem) → is_valid c ≡ true → slice_get c.mems n ≡ Some m → mem_fits c.nets m ≡ true }
    ensures diagnostic { (c : Circuit) (n : ℕ) (d : Diag) → is_valid c ≡ true → slice_get c.diags n ≡ Some d → diag_fits c.nets d ≡ true }
    ensures item { (c : Circuit) (n : ℕ) (i : Item) → is_valid c ≡ true → slice_get c.items n ≡ Some i → ShowsWhatIsThere c i.kind }
    ensures scope { (c : Circuit) (n : ℕ) (i : Item) → is_valid c ≡ true → slice_get c.items n ≡ Some i → i.scope < length c.scopes }
    ensures input { (c : Circuit) (n : ℕ) (net : ℕ) → is_valid c ≡ true → slice_get c.inputs n ≡ Some net → net < length c.nets }
{}

/// Which slot shows what in a valid circuit: the slots of an item begin at its first slot and have its numbers
/// and widths, the first slot of each item stands behind the slots of those ahead of it, and a diagnostic's
/// slot of one bit stands behind all items. There are as many widths as slots.
pub fn law_of_slots()
    ensures first { (c : Circuit) (n : ℕ) (i : Item) → is_valid c ≡ true → slice_get c.items n ≡ Some i → i.first_slot ≡ slots_of_items c.mems (take n c.items) }
    ensures within { (c : Circuit) (n : ℕ) (i : Item) → is_valid c ≡ true → slice_get c.items n ≡ Some i → i.first_slot + slots_of c.mems i.kind ≤ slots_of_items c.mems c.items }
    ensures item { (run : Run) (k : ℕ) (s : Standing) (n : ℕ) (i : Item) (p : ℕ) → is_valid run.circuit ≡ true → standing_at run k ≡ Some s
        → slice_get run.circuit.items n ≡ Some i → p < slots_of run.circuit.mems i.kind → shown run k (i.first_slot + p) ≡ item_number s i.kind p }
    ensures diagnostic { (run : Run) (k : ℕ) (s : Standing) (n : ℕ) (d : Diag) → standing_at run k ≡ Some s
        → slice_get run.circuit.diags n ≡ Some d → shown run k (slots_of_items run.circuit.mems run.circuit.items + n) ≡ flag (fires_at run k d) }
    ensures count { (c : Circuit) → length (slot_widths c) ≡ slot_count c }
    ensures item_width { (c : Circuit) (n : ℕ) (i : Item) (p : ℕ) → is_valid c ≡ true → slice_get c.items n ≡ Some i → p < slots_of c.mems i.kind
        → slice_index (slot_widths c) (i.first_slot + p) ≡ slice_index (item_widths c.nets c.mems i.kind) p }
    ensures diagnostic_width { (c : Circuit) (n : ℕ) (d : Diag) → slice_get c.diags n ≡ Some d → slice_index (slot_widths c) (slots_of_items c.mems c.items + n) ≡ 1 }
{}
