//! The scopes of a whole design have names that differ.
#![tactic(auto)]

mod laws;

pub use laws::law_of_scopes;
