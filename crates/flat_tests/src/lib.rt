//! Tests of the crates that read and run flat designs, which use their public items alone.
#![tactic(auto)]

#[cfg(test)]
mod refusals;
#[cfg(test)]
mod rounds;
#[cfg(test)]
mod runs;
#[cfg(test)]
mod stimuli;
#[cfg(test)]
mod texts;
