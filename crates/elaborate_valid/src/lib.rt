//! The circuit of a file is valid.
#![tactic(auto)]

mod laws;

pub use laws::law_of_elaboration;
