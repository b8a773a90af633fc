//! Tests of `elaborate` and of the crates below it that take the parts of a design, of `process_check` and of `refusal_lines`, which
//! use their public items alone.
#![tactic(auto)]

#[cfg(test)]
mod lines;
#[cfg(test)]
mod refused;
#[cfg(test)]
mod rows;
#[cfg(test)]
mod taken;
#[cfg(test)]
mod texts;
#[cfg(test)]
mod told;
