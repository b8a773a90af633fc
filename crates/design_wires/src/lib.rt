//! The wires of an instance of a module, and the connections between them.
#![tactic(auto)]

mod assignment;
mod here;
mod text;
mod wire;

pub use assignment::connect;
pub use here::{Here, Shown};
pub use text::{const_text, source_text};
pub use wire::{is_public, name_fits, shown_name, wires};
