//! Tests of `state_cells` and `memory_cells`, which use their public items alone.
#![tactic(auto)]

#[cfg(test)]
mod memories;
#[cfg(test)]
mod parts;
#[cfg(test)]
mod registers;
#[cfg(test)]
mod triggers;
