//! The walk of a design with a list of open instances, so that nothing recurses, however deep they stand within each other.
#![tactic(auto)]

mod descent;
mod frame;
mod statement;
mod walk;

pub use walk::walk_design;
