//! The memories and the diagnostics of a design keep that its circuit is valid.
#![tactic(auto)]

mod laws;

pub use laws::{law_of_memories, law_of_silent_cells};
