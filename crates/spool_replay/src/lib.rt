//! Replaying a recording: a player that stands at a sample, steps on and seeks.
#![tactic(auto)]

mod player;
mod record;
mod search;
mod taken;

pub use player::Player;
