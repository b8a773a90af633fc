//! Tests of `solo_session`, which use its public items alone.
#![tactic(auto)]

#[cfg(test)]
mod sessions;
