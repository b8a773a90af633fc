//! An instance that is open in a walk.
use design_walk::Place;
use name_table::Table;
use rtlil_signals::NamedNet;
use rtlil_tree::Module;
use sqlite_items::Items;

/// An instance that was gone into, and the first of its statements that was not taken.
#[derive(Drop)]
pub struct Frame<'m, 't> {
    /// The place of its module in the file.
    pub number: usize,
    pub unit: &'m Module<'t>,
    pub place: Place<'t>,
    pub wires: Table<'t, NamedNet>,
    /// Statement by statement whether a name of its cell stands for something else already.
    pub clashes: Items<bool>,
    pub next: usize,
}
