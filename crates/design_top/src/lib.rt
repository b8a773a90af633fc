//! The top of a file in RTLIL: which module it is, which names stand for modules, and what drives the inputs.
#![tactic(auto)]

mod inputs;
mod names;
mod tops;

pub use inputs::drive_inputs;
pub use names::number_modules;
pub use tops::top_of;
