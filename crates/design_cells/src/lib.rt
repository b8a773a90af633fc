//! The cells of the library in an instance of a module: their checks, and the cells of a circuit that they become.
#![tactic(auto)]

mod allowed;
mod cell;
mod ports;
mod register;
mod signals;

pub use allowed::has_room;
pub use cell::library_cell;
pub use ports::{JoinedPort, capped, joined_at, joined_in};
pub use signals::zero_signal;
