//! The rows of memories, and what their ports read and write.
#![tactic(auto)]

mod address;
mod clock;
mod laws;
mod read;
mod renew;
mod rows;
mod write;

pub use clock::{clock_ports, read_port};
pub use laws::law_of_memories;
pub use rows::Rows;
