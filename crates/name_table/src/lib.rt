//! What names stand for, found by a map.
#![tactic(auto)]

mod table;
#[cfg(test)]
mod tests;

pub use table::Table;
