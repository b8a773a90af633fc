//! The circuit of the lists that a design gives.
#![tactic(auto)]

mod finishing;
mod laws;
mod nodes;

pub use finishing::finish;
pub use laws::law_of_finishing;
