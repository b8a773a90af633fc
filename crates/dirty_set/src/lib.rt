//! A set of marked numbers of which the least is taken first.
#![tactic(auto)]

mod set;
#[cfg(test)]
mod tests;
mod tree;

pub use set::DirtySet;
