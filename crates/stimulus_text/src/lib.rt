//! The parts of a stimulus' text: its lines and their words, the numbers in it, and its faults.
#![tactic(auto)]

mod fault;
mod lines;
mod numbers;
mod value;

pub use fault::{StimFault, StimFaultKind};
pub use lines::{Line, is_comment, next_line, words_of};
pub use numbers::read_repeats;
pub use value::{Value, put_narrow, put_value, read_value};
