//! What the definitions of a circuit give for cells, registers, memories and small circuits that were worked by hand.
#![tactic(auto)]

mod rows;

pub use rows::{
    worked_arithmetic, worked_registers, worked_rounds, worked_runs, worked_selections,
    worked_slots,
};
