//! The cell library of the Yosys manual as one table: the type of each combinational cell, register and latch,
//! and the checks of a cell by the line of its type.
#![tactic(auto)]

mod checks;
mod laws;
mod line;
mod names;
mod table;
#[cfg(test)]
mod tests;
mod values;
mod written;

pub use checks::{
    WIDEST, WIDEST_ARITHMETIC, check_cell, limits_pass, parameters_pass, port_named, port_width,
    ports_pass, slice_passes, widths_pass,
};
pub use laws::{law_of_connections, law_of_examples, law_of_table, law_of_types, law_of_widths};
pub use line::{Gives, Line, Parameter, Port, PortName, Range, Span, Way};
pub use table::line_of;
pub use values::{given, in_range, number, span_width};
pub use written::{Connection, Setting};
