//! The samples of a circuit under a stimulus, one after another, in the words in which they are recorded.
#![tactic(auto)]

mod cursor;
mod laws;
mod next;
mod progress;
mod runner;
mod words;

pub use cursor::Cursor;
pub use laws::law_of_samples;
pub use next::Next;
pub use runner::Runner;
