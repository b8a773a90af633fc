//! The words that every crate of the simulator speaks: values of bits, times, names, the shape of a
//! recording, the kinds of diagnostics, counted steps and want of memory.
#![tactic(auto)]

mod bits;
mod digits;
mod hexadecimal;
mod kinds;
mod laws;
mod memory;
mod name;
mod shape;
mod steps;
mod time;
mod values;
mod view;

pub use bits::{Bits, low_digits};
pub use digits::{number_in_digits, write_lowest_digits};
pub use kinds::Kinds;
pub use laws::{law_of_halves, law_of_number_parts};
pub use memory::NoMemory;
pub use name::Name;
pub use shape::Shape;
pub use steps::Steps;
pub use time::Time;
pub use values::Values;
pub use view::BitsView;
