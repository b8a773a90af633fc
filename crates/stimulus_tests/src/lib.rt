//! Tests of `stimulus` and the crates below it, which use their public items alone.
#![tactic(auto)]

#[cfg(test)]
mod circuits;
#[cfg(test)]
mod faults;
#[cfg(test)]
mod samples;
