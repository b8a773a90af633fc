//! The start values of registers, from the digits of `\init` on the nets that they drive.
#![tactic(auto)]

mod chains;
mod laws;
mod marks;
mod places;
mod starts;
mod taken;

pub use laws::law_of_origins;
pub use marks::{Mark, marks_of};
pub use starts::with_starts;
