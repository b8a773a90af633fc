//! Cells that read something else than before.
#![tactic(auto)]

mod cell;
mod laws;
mod signal;

pub use cell::has_changed;
pub use laws::{law_of_changes, law_of_readings};
