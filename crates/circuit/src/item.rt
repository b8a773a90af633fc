//! What a viewer sees.
use sim_base::Name;

/// What a viewer sees under a name.
#[derive(Debug, Drop)]
pub struct Item {
    /// The identifiers on its path without the `\`, joined by a space.
    pub name: Name,
    /// The place of its scope in the list of scopes.
    pub scope: u32,
    pub kind: ItemKind,
    /// The text of its `\src`, if it has one.
    pub src: Option<Name>,
    /// The number of its first slot.
    pub first_slot: u32,
}

#[derive(Clone, Copy, Debug, PartialEq, Eq)]
pub enum ItemKind {
    Node {
        net: u32,
        /// The number that the design gives to the least bit.
        lsb_at: i32,
        input: bool,
        output: bool,
    },
    Memory {
        mem: u32,
    },
}

/// An instance of a module.
#[derive(Debug, Drop)]
pub struct Scope {
    /// The identifiers on its path without the `\`, joined by a space; the top has the empty text.
    pub name: Name,
    /// The module's identifier without its `\`.
    pub module: Name,
    /// The text of the module's `\src`, if it has one.
    pub module_src: Option<Name>,
    /// The text of the `\src` of the cell that is the instance, if it has one.
    pub cell_src: Option<Name>,
}
