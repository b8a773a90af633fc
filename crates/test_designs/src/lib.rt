//! Designs, stimuli, packets and replies that the tests of several crates share, and plays of a client that are read from
//! texts.
#![tactic(auto)]

pub mod designs;
pub mod packets;
pub mod plays;
pub mod replies;
pub mod stimuli;
