//! The turn of a stage: one value for many threads, which one seat holds at a time.
//!
//! A turn begins with two seats, the writer's and the first clerk's, and clerks split and join. A seat takes the value,
//! adds entries of its own to it, and leaves it. So the entries are one history for all seats, each seat knows the
//! beginning of it that it has seen, and no other seat adds entries that are this one's.
#![tactic(auto)]

mod kept;
mod known;
mod rule;
mod seat;
#[cfg(test)]
mod tests;
mod turn;

pub use kept::Kept;
pub use known::{Known, Part};
pub use seat::TurnSeat;
pub use turn::Turn;
