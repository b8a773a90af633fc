//! The instances of modules in a module: their checks, and what joins them to the wires around them.
#![tactic(auto)]

mod allowed;
mod joins;
mod port;

pub use allowed::instance_allowed;
pub use joins::join;
pub use port::{PortWire, ports_of};
