//! The tree of a file in RTLIL, as the Yosys manual has it: modules with their wires, memories, cells,
//! connections and processes, each in its order.
#![tactic(auto)]

mod action;
mod attribute;
mod cursor;
mod draft;
mod file;
mod laws;
mod list;
mod module;
mod place;
mod process;
mod sig;
mod signal;
mod statement;

pub use attribute::attribute_value;
pub use file::parse;
pub use laws::{law_of_one_tree, law_of_repetition, law_of_steps, law_of_turns, law_of_whole_file};
pub use module::{
    Assignment, Attribute, Cell, Connection, File, Memory, MemoryOptions, Module, Parameter,
    ParameterKind, Setting, Statement, Wire, WireOptions,
};
pub use place::Place;
pub use process::{Action, Case, Process, Switch, Sync, Trigger};
pub use sig::{Const, Sig, SigPart, Slice};
