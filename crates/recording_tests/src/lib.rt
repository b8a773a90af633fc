//! Tests of recordings, which use their public items alone.
#![tactic(auto)]

#[cfg(test)]
mod batches;
#[cfg(test)]
mod plays;
#[cfg(test)]
mod records;
#[cfg(test)]
mod runs;
