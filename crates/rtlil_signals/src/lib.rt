//! Signals of a tree in RTLIL, in an instance of a module: their pieces, and the drives between them.
#![tactic(auto)]

mod drives;
mod scope;
mod signal;
mod slice;
mod span;
mod value;

pub use drives::{Source, connect, drive, sig_of};
pub use scope::NamedNet;
pub use signal::{is_named, spans_of};
pub use slice::Range;
pub use span::{Span, part_of, width_of};
pub use value::{bits_part, const_bits, const_part, const_width};
