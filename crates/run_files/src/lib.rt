//! The files of a run: a design, and a stimulus for its circuit.
#![tactic(auto)]

mod fault;
mod laws;
mod load;
mod refusal;

pub use fault::FileFault;
pub use laws::law_of_files;
pub use load::{RunFiles, load_files};
pub use refusal::Refusal;
