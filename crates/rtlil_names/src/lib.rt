//! The names in the tree of a file: what the bytes of a text make of them.
#![tactic(auto)]

mod laws;

pub use laws::law_of_names_read;
