//! The next values of registers and latches, and whether a diagnostic fires in a round.
#![tactic(auto)]

mod diagnostic;
mod laws;
mod parts;
mod port;
mod register;
mod source;

pub use diagnostic::fires;
pub use laws::{law_of_firing, law_of_rounds};
pub use port::{has_edge, is_active};
pub use register::{next, put_value};
