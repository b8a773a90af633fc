//! The text of a trace: the nodes of a circuit, a line for each sample, and how the run ended.
#![tactic(auto)]

mod digits;
mod printer;

pub use printer::{Printer, push_last_line};
