//! Tests of `eval_commit` over whole circuits, which use its public items alone.
#![tactic(auto)]

#[cfg(test)]
mod changes;
#[cfg(test)]
mod diagnostics;
#[cfg(test)]
mod memories;
#[cfg(test)]
mod registers;
#[cfg(test)]
mod samples;
#[cfg(test)]
mod sources;
