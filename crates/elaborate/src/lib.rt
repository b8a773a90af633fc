//! The circuit of a file in RTLIL.
#![tactic(auto)]

mod elaboration;
mod start;

pub use elaboration::elaborate;
pub use start::{Start, start_of};
