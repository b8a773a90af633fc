//! The refusal of processes, which are read and are no part of a circuit yet.
#![tactic(auto)]

mod processes;

pub use processes::{check_processes, first_process};
