//! The words of the command line, which `clap` reads: what they ask for, or that they do not fit.
#![tactic(auto)]

mod command;
mod fault;
mod laws;
mod line;
mod modes;
mod texts;
mod top;
mod words;

pub use command::{Asked, Command, Mode};
pub use fault::WordsFault;
pub use laws::law_of_commands;
pub use texts::{help_text, version_text};
pub use top::top_identifier;
pub use words::read_words;
