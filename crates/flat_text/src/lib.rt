//! The text of a flat module: the first form of RTLIL that is read.
#![tactic(auto)]

mod constant;
mod fault;
mod line;
mod module;
mod place;
mod read;
mod words;

pub use fault::FlatFault;
pub use module::{Attribute, Cell, Connection, Constant, Module, Operand, Parameter, Port, Wire};
pub use read::read_module;
