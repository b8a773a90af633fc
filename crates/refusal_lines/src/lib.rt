//! The lines that say why a design is refused, whether for its text or for what the text says, or a stimulus.
#![tactic(auto)]

mod design;
mod line;
mod stimulus;
mod text;

pub use design::design_fault_line;
pub use stimulus::stimulus_fault_line;
pub use text::text_fault_line;
