//! A circuit under a stimulus.
use circuit::Circuit;
use std::sync::Arc;
use stimulus_blocks::Stimulus;

/// A circuit and a stimulus that was read for it. It stands for the run of the definitions, as `run_of` says.
#[derive(Debug, Drop)]
pub struct Run {
    pub circuit: Arc<Circuit>,
    pub stimulus: Arc<Stimulus>,
}
