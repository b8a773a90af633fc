//! The output of a combinational cell that computes with whole numbers or shifts: arithmetic and
//! comparisons of ports of at most 128 bits, and shifts of any width.
#![tactic(auto)]

mod amount;
mod arithmetic;
mod computing;
mod narrow;
mod outputs;
mod port;
mod shift;
mod shifting;
mod source;
mod values;
mod whole;
mod write;

pub use circuit::Store;
pub use outputs::eval;
