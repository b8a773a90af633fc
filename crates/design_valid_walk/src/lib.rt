//! What a whole design gives is a valid circuit.
#![tactic(auto)]

mod laws;

pub use laws::law_of_designs;
