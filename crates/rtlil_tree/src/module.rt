//! A file and its modules, as they are written.
use crate::process::Process;
use crate::sig::{Const, Sig};
use rtlil_lexer::Spelling;
use sqlite_items::Items;

/// The modules of a file, in their order.
#[derive(Drop)]
pub struct File<'t> {
    pub modules: Items<Module<'t>>,
}

#[derive(Drop)]
pub struct Module<'t> {
    /// The identifier as written.
    pub name: Spelling<'t>,
    /// As written; of equal names the last counts.
    pub attributes: Items<Attribute<'t>>,
    pub statements: Items<Statement<'t>>,
}

/// A line of a module, or several that belong together.
#[derive(Drop)]
pub enum Statement<'t> {
    Parameter(Parameter<'t>),
    Wire(Wire<'t>),
    Memory(Memory<'t>),
    Cell(Cell<'t>),
    Connect(Assignment<'t>),
    Process(Process<'t>),
}

#[derive(Drop)]
pub struct Attribute<'t> {
    /// The identifier as written.
    pub name: Spelling<'t>,
    pub value: Const<'t>,
}

/// What the value of a parameter is said to be.
#[derive(Clone, Copy, Debug, PartialEq, Eq)]
pub enum ParameterKind {
    Plain,
    Signed,
    Real,
}

/// A parameter that a module takes.
#[derive(Drop)]
pub struct Parameter<'t> {
    pub kind: ParameterKind,
    /// The identifier as written.
    pub name: Spelling<'t>,
    pub default: Option<Const<'t>>,
}

/// What may stand between `wire` and its identifier; of equal options the last counts.
#[derive(Clone, Copy, Debug, PartialEq, Eq)]
pub struct WireOptions {
    /// In bits; 1 where none is written.
    pub width: u32,
    /// The number of the least bit; 0 where none is written.
    pub offset: i32,
    /// The number behind `input`, where it is written.
    pub input: Option<i32>,
    /// The number behind `output`, where it is written.
    pub output: Option<i32>,
    /// The number behind `inout`, where it is written.
    pub inout: Option<i32>,
    pub upto: bool,
    pub signed: bool,
}

#[derive(Drop)]
pub struct Wire<'t> {
    /// The identifier as written.
    pub name: Spelling<'t>,
    pub options: WireOptions,
    /// As written; of equal names the last counts.
    pub attributes: Items<Attribute<'t>>,
}

/// What may stand between `memory` and its identifier; of equal options the last counts.
#[derive(Clone, Copy, Debug, PartialEq, Eq)]
pub struct MemoryOptions {
    /// Of a row, in bits; 1 where none is written.
    pub width: u32,
    /// How many rows there are; 0 where none is written.
    pub size: i32,
    /// The address of the first row; 0 where none is written.
    pub offset: i32,
}

#[derive(Drop)]
pub struct Memory<'t> {
    /// The identifier as written.
    pub name: Spelling<'t>,
    pub options: MemoryOptions,
    /// As written; of equal names the last counts.
    pub attributes: Items<Attribute<'t>>,
}

/// What a cell gives a parameter of its type.
#[derive(Drop)]
pub struct Setting<'t> {
    pub kind: ParameterKind,
    /// The identifier as written.
    pub name: Spelling<'t>,
    pub value: Const<'t>,
}

/// What a port of a cell is joined to.
#[derive(Drop)]
pub struct Connection<'t> {
    /// The identifier as written.
    pub port: Spelling<'t>,
    pub sig: Sig<'t>,
}

#[derive(Drop)]
pub struct Cell<'t> {
    /// The identifier of its type, as written.
    pub kind: Spelling<'t>,
    /// The identifier as written.
    pub name: Spelling<'t>,
    /// As written; of equal names the last counts.
    pub attributes: Items<Attribute<'t>>,
    pub settings: Items<Setting<'t>>,
    pub connections: Items<Connection<'t>>,
}

/// Two signals, the left of which takes the value of the right.
#[derive(Drop)]
pub struct Assignment<'t> {
    pub left: Sig<'t>,
    pub right: Sig<'t>,
}
