//! Tests of `proto_packets`, `proto_replies` and `hall_core`, which use their public items alone.
#![tactic(auto)]

#[cfg(test)]
mod history;
#[cfg(test)]
mod packets;
#[cfg(test)]
mod replies;
