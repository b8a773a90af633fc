//! The cells of the library in a design keep that its circuit is valid.
#![tactic(auto)]

mod laws;

pub use laws::law_of_cells;
