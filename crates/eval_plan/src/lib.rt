//! The order in which a circuit is evaluated, where each bit comes from and what reads it.
#![tactic(auto)]

mod entries;
mod holders;
mod listing;
mod nodes;
mod notes;
mod ordering;
mod origins;
mod plan;
mod readers;
mod roots;
mod sources;
mod table;

pub use ordering::order;
pub use plan::Plan;
pub use sources::Sources;
pub use table::Table;
