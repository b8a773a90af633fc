//! Tests of `design_load` and of the crates below it, from texts to circuits in order, which use its public items alone.
#![tactic(auto)]

#[cfg(test)]
mod designs;
#[cfg(test)]
mod told;
