//! Tests of `command_words`, which use its public items alone.
#![tactic(auto)]

#[cfg(test)]
mod texts;
#[cfg(test)]
mod words;
