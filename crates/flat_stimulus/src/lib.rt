//! The first stimulus texts that are read: one block of rows.
#![tactic(auto)]

mod column;
mod row;
mod stimulus;
mod words;

pub use flat_text::FlatFault;
pub use row::BlockRow;
pub use stimulus::{FlatStimulus, read_stimulus};
