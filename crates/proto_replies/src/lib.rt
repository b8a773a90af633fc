//! What the server answers: replies, events and errors, and their text.
#![tactic(auto)]

mod answer;
mod laws;
mod text;

pub use answer::{Answer, Cause, ErrorKind, RunState};
pub use laws::law_of_json;
pub use text::reply;
