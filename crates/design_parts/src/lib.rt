//! What the parts of a design give: the checks of each, in their order, and the lists of a circuit, one behind the
//! other.
#![tactic(auto)]

mod draft;
mod laws;
mod refusal;

pub use draft::Draft;
pub use laws::law_of_order;
pub use refusal::{Refusal, refused_at};
