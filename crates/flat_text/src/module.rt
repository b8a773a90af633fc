//! A flat module as its text gives it.
use sim_base::{Bits, Name};
use sqlite_items::Items;

/// A value as it is written.
#[derive(Debug, Drop)]
pub enum Constant {
    /// 1 to 9 decimal digits.
    Number(u32),
    /// A width, a quote and so many binary digits, the most significant first.
    Digits(Bits),
    /// A text in double quotes, without them.
    Text(Name),
}

#[derive(Debug, Drop)]
pub struct Attribute {
    /// The identifier as written.
    pub name: Name,
    pub value: Constant,
}

/// Whether a wire is a port of the module.
#[derive(Clone, Copy, Debug, PartialEq, Eq)]
pub enum Port {
    Internal,
    Input,
    Output,
}

#[derive(Debug, Drop)]
pub struct Wire {
    /// The identifier as written.
    pub name: Name,
    /// In bits; 1 where none is written.
    pub width: u32,
    pub port: Port,
    pub attributes: Items<Attribute>,
}

#[derive(Debug, Drop)]
pub struct Parameter {
    /// The identifier as written.
    pub name: Name,
    pub value: Constant,
}

/// What a port of a cell is joined to.
#[derive(Debug, Drop)]
pub enum Operand {
    /// The identifier of a wire.
    Wire(Name),
    Digits(Bits),
}

#[derive(Debug, Drop)]
pub struct Connection {
    /// The identifier of the port.
    pub port: Name,
    pub to: Operand,
}

#[derive(Debug, Drop)]
pub struct Cell {
    /// The identifier of the type.
    pub kind: Name,
    /// The identifier as written.
    pub name: Name,
    pub parameters: Items<Parameter>,
    pub connections: Items<Connection>,
}

/// The module of a file, its wires and cells in their order.
#[derive(Debug, Drop)]
pub struct Module {
    /// The identifier as written.
    pub name: Name,
    pub wires: Items<Wire>,
    pub cells: Items<Cell>,
}
