//! The values of a circuit's nets, computed in the order of a plan, and a circuit that goes from sample
//! to sample by them.
#![tactic(auto)]

mod copy;
mod diagnostics;
mod machine;
mod marks;
mod node;
mod ports;
mod put;
mod registers;
mod round;
mod settle;
mod start;
mod step;
mod update;

pub use machine::Machine;
pub use settle::Settled;
pub use start::zero_inputs;
