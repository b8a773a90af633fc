//! Names of cells, of what cells are given and of the items of memories that stand for something else already.
#![tactic(auto)]

mod cells;
mod clashes;
mod items;
mod names;

pub use clashes::{Clashes, clashes_in};
