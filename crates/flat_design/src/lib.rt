//! The circuit of a flat module of adders and registers.
#![tactic(auto)]

mod cells;
mod elaboration;
mod labels;
mod laws;
mod names;
mod ports;
mod wires;

pub use elaboration::elaborate;
pub use flat_text::FlatFault;
pub use laws::{flat_is_in_order, module_gives_flat};
