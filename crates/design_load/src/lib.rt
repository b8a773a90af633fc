//! Designs that are read from their texts.
#![tactic(auto)]

mod fault;
mod load;

pub use fault::LoadFault;
pub use load::{Loaded, load_design};
