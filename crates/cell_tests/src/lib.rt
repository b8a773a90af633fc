//! Tests of `signal_words`, `cell_words` and `cell_wide`, which use their public items alone.
#![tactic(auto)]

#[cfg(test)]
mod arithmetic;
#[cfg(test)]
mod cells;
#[cfg(test)]
mod selections;
#[cfg(test)]
mod shifts;
#[cfg(test)]
mod signals;
#[cfg(test)]
mod widths;
