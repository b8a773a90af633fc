//! The memories in an instance of a module: their checks, and the memories of a circuit that they become.
#![tactic(auto)]

mod allowed;
mod cell;
mod item;
mod names;
mod ports;
mod resets;
mod settings;

pub use cell::memory;
pub use item::item_identifier;
pub use settings::is_set;
