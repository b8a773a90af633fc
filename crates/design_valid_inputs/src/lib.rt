//! The inputs of a whole design are shown, each once.
#![tactic(auto)]

mod laws;

pub use laws::law_of_inputs;
