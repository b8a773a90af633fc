//! The samples of a stimulus: blocks of rows that are repeated, one behind another.
#![tactic(auto)]

mod block;
mod course;
mod laws;
mod rows;

pub use block::Block;
pub use course::{Place, Stimulus};
pub use laws::{law_of_counts, law_of_times};
pub use rows::Rows;
