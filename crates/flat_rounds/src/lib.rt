//! The rounds of a flat circuit, over words of 64 bits.
#![tactic(auto)]

mod clock;
mod nets;
mod room;
mod rounds;
mod word;

pub use room::zeros;
pub use rounds::Rounds;
