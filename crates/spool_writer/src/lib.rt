//! Recording samples: full chunks that are shared with every view, and one that grows.
#![tactic(auto)]

mod grow;
mod spool;

pub use spool::Spool;
