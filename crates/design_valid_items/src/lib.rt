//! What a whole design shows: its items, its scopes and the texts of its diagnostics.
#![tactic(auto)]

mod laws;

pub use laws::law_of_items;
