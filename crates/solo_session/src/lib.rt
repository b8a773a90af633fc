//! A run with one client: the history that its bytes give at a fixed pace, and the bytes that the history
//! gives to it.
#![tactic(auto)]

mod asked;
mod batch;
mod laws;
mod session;
mod solo;

pub use laws::law_of_pace;
pub use session::Session;
pub use solo::{Ending, answer_piece, serve};
