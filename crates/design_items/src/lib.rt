//! The items of a circuit in the order of their names, each with its slots.
#![tactic(auto)]

mod arranging;
mod laws;

pub use arranging::arrange_items;
pub use laws::law_of_arranged_items;
