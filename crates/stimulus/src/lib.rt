//! Stimuli, read from their text: what the inputs of a circuit are at each sample, and when it comes.
#![tactic(auto)]

mod inputs;
mod laws;
mod reading;
mod run;
mod steps;
mod stop;
mod values;

pub use laws::{law_of_blocks, law_of_inputs};
pub use reading::read;
pub use run::Run;
pub use stimulus_blocks::{Place, Stimulus};
pub use stimulus_text::{StimFault, StimFaultKind};
