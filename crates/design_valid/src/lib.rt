//! A circuit that a design gives is valid.
#![tactic(auto)]

mod laws;

pub use laws::law_of_wires;
