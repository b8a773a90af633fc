//! Tests of `sim_base`, which use its public items alone.
#![tactic(auto)]

#[cfg(test)]
mod bits;
#[cfg(test)]
mod digits;
#[cfg(test)]
mod names;
#[cfg(test)]
mod shapes;
#[cfg(test)]
mod steps;
#[cfg(test)]
mod times;
