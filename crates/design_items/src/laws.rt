//! Laws of items in their order.
ghost use Rattle.std.specs.Prelude.{◌≡◌, ℕ, List, true};
ghost use Rattle.std.specs.List.{list_all};
ghost use Rattle.circuit.specs.Built.{AreNamesApart, slots_of_items};
ghost use Rattle.circuit.specs.Valid.{is_shown_once, item_fits, names_rise, slots_run};
ghost use Rattle.circuit.specs.declared.item.Item.{Item};
ghost use Rattle.circuit.specs.declared.item.Scope.{Scope};
ghost use Rattle.circuit.specs.declared.memory.Mem.{Mem};
ghost use Rattle.circuit.specs.declared.netlist.Net.{Net};
ghost use Rattle.design_items.specs.Arranged.{AreArranged};

use circuit::law_of_order;

/// What a valid circuit asks of its items, of those that are arranged: their slots run on, and their names rise
/// where no two were the same. They fit where they fitted before, show the same nets, and have as many slots.
pub fn law_of_arranged_items()
    ensures slots { (mems : List Mem) (made items : List Item) → AreArranged mems made items → slots_run mems 0 items ≡ true }
    ensures rise { (mems : List Mem) (made items : List Item) → AreArranged mems made items → AreNamesApart made → names_rise items ≡ true }
    ensures fit { (nets : List Net) (mems : List Mem) (scopes : List Scope) (made items : List Item) → AreArranged mems made items → list_all (item_fits nets mems scopes) made ≡ true → list_all (item_fits nets mems scopes) items ≡ true }
    ensures once { (mems : List Mem) (net : ℕ) (made items : List Item) → AreArranged mems made items → is_shown_once items net ≡ is_shown_once made net }
    ensures count { (mems : List Mem) (made items : List Item) → AreArranged mems made items → slots_of_items mems items ≡ slots_of_items mems made }
{
    law_of_order();
}
