//! Tests of `outside`, which use its public items alone.
#![tactic(auto)]

#[cfg(test)]
mod objects;
