//! Tests of `rtlil_lexer` and `rtlil_tree`, which use their public items alone.
#![tactic(auto)]

#[cfg(test)]
mod attributes;
#[cfg(test)]
mod tokens;
#[cfg(test)]
mod trees;
