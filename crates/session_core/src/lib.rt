//! What a client is told: which of its packets are refused, what the others are answered, and the bytes that a history gives
//! to it.
#![tactic(auto)]

mod client;
mod laws;

pub use client::Client;
pub use laws::{
    law_of_clients, law_of_entries, law_of_isolation, law_of_more_packets, law_of_openings,
    law_of_recorded_samples,
};
