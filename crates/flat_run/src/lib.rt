//! The run of a flat circuit under a stimulus, followed sample by sample.
#![tactic(auto)]

mod progress;
mod run;

pub use run::FlatRun;
