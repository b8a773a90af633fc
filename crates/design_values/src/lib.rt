//! What the drives of a design say of the values of its nets: of the two sides of a connection, and of the ports of an instance.
#![tactic(auto)]

mod laws;

pub use laws::{law_of_connections, law_of_following, law_of_ports};
