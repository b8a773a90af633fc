//! The combinational cells that work bit by bit, reduce, compare for equality or select, at any width.
#![tactic(auto)]

mod bitwise;
mod cell;
mod computed;
mod count;
mod operand;
mod select;
mod truth;
mod values;
mod whole;
mod word;
mod words;
mod write;

pub use cell::eval_wide;
