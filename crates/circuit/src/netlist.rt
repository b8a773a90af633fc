//! The data of a circuit. Every field is public, and the definitions of `specs/` read them.
use crate::cell::Cell;
use crate::diagnostic::Diag;
use crate::item::{Item, Scope};
use crate::memory::Mem;
use crate::register::Reg;
use sim_base::{Bits, Name};
use sqlite_items::Items;

/// A wire of one instance of a module.
#[derive(Debug, Drop)]
pub struct Net {
    /// The identifiers on the way from the top to the wire, as they are written, joined by a space.
    pub path: Name,
    /// In bits.
    pub width: u32,
}

/// What gives the bits `at` to `at + width - 1` of a net.
#[derive(Debug, Drop)]
pub struct Drive {
    pub net: u32,
    pub at: u32,
    pub width: u32,
    pub by: By,
}

/// What drives, and its first bit that is taken.
#[derive(Debug, Drop)]
pub enum By {
    Const(Bits),
    /// A place in the list of inputs.
    Input(u32, u32),
    /// Another net.
    Wire(u32, u32),
    /// The output of a combinational cell.
    Cell(u32, u32),
    /// The value of a register.
    Reg(u32, u32),
    /// A memory, and one of its read ports.
    Read(u32, u32, u32),
}

/// A part of a signal.
#[derive(Debug, Drop)]
pub enum Piece {
    Const(Bits),
    Part { net: u32, at: u32, width: u32 },
}

/// A signal: its pieces, the least significant first.
pub type Sig = Items<Piece>;

/// A flattened design. The lists are in the order of the walk through it, the items in the byte order
/// of their names.
#[derive(Debug, Drop)]
pub struct Circuit {
    pub nets: Items<Net>,
    pub drives: Items<Drive>,
    pub cells: Items<Cell>,
    pub regs: Items<Reg>,
    pub mems: Items<Mem>,
    /// The nets of the top's inputs.
    pub inputs: Items<u32>,
    pub items: Items<Item>,
    pub scopes: Items<Scope>,
    pub diags: Items<Diag>,
}
