//! The history of a run: which entries may follow which, what they say, and the log.
#![tactic(auto)]

mod entry;
mod followed;
mod hall;
mod history;
mod laws;
mod log;
mod replaying;

pub use entry::{Act, Entry, Goal, Why};
pub use followed::Followed;
pub use hall::Hall;
pub use history::History;
pub use laws::{
    law_of_batches, law_of_beginnings, law_of_clients, law_of_first_entries, law_of_goals,
    law_of_goals_ahead, law_of_hold, law_of_logs, law_of_moments, law_of_openings, law_of_progress,
    law_of_records, law_of_runs, law_of_steps,
};
pub use log::log_text;
