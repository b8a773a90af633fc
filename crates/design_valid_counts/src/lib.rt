//! What a whole design gives can be numbered.
#![tactic(auto)]

mod laws;

pub use laws::law_of_counts;
