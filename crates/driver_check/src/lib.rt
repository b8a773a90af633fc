//! The drives of a circuit, checked: a bit has one driver at most, and none depends on itself.
#![tactic(auto)]

mod checking;
mod drivers;
mod faults;
mod graph;
mod numbering;
mod parts;
mod rows;
mod search;
mod sorting;
mod walk;

pub use checking::check_drivers;
pub use graph::{Graph, Span};
pub use numbering::Numbering;
pub use parts::{Node, Parts};
pub use search::{Mark, Search};
pub use sorting::Sorting;
