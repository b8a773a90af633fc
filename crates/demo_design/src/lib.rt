//! The demo: the text of a design of as many stages as are asked for, and the text of its stimulus.
#![tactic(auto)]

mod chain;
mod stimulus;
#[cfg(test)]
mod tests;

pub use chain::design;
pub use stimulus::stimulus_text;
