//! The cells in an instance that drive nothing: their checks, and the diagnostics of a circuit that some become.
#![tactic(auto)]

mod allowed;
mod cell;
mod names;
mod reading;
mod signals;

pub use cell::silent_cell;
pub use names::{SilentType, type_named};
