//! What a whole design gives is ready to become a valid circuit.
#![tactic(auto)]

mod laws;

pub use laws::law_of_readiness;
