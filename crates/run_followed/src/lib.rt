//! The run of a circuit under its stimulus, followed sample by sample.
#![tactic(auto)]

mod fired;
mod progress;
mod run;

pub use run::FollowedRun;
