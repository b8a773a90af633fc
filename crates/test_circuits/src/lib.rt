//! Circuits that are written as texts, for the tests of several crates.
//!
//! A text has a part a line, or several that `;` parts, in the order of the circuit's lists. Words are parted by one
//! space or more:
//!
//! ```text
//! net PATH WIDTH
//! drive PART const VALUE | input N AT | wire NET AT | cell N AT | reg N AT | read MEMORY N AT
//! cell TYPE SIGNS WIDTH OFFSET A B S
//! reg KIND POLARITY WIDTH VALUE INIT CLK D EN SET CLR LOAD AD
//! mem WIDTH SIZE OFFSET INIT
//! read CLOCKED RISING SEE INIT CLK EN ADDR
//! write RISING CLK EN ADDR WORD
//! input NET
//! node NAME SCOPE SLOT NET LSB INPUT OUTPUT SRC
//! rows NAME SCOPE SLOT MEMORY SRC
//! scope NAME MODULE MODULE_SRC CELL_SRC
//! assert TEXT SRC A EN ON RISING
//! assume TEXT SRC A EN ON RISING
//! ```
//!
//! A port of a memory belongs to the memory before it. A PART is `NET[AT+:WIDTH]`. A VALUE is `WIDTH'DIGITS` with
//! hexadecimal digits, in which `f*12` are twelve times `f`, and `.` parts such runs. A signal is a list of parts and
//! values, the least first, which `,` parts. A port that is not written, or is `-`, is the empty signal. SIGNS has
//! the letters of the ports that are signed (`-`, `a`, `b` or `ab`). A flag is `0` or `1`, and flags are some of them,
//! or `-`; POLARITY has those of clock, enable, set, clear and load. TYPE and KIND are the names of cells without
//! `$`. In a name `_` is a space, `?` a byte that no text has, and `-` is no name or the empty one. A diagnostic
//! without ON has no trigger.
#![tactic(auto)]

mod line;
mod parts;
mod words;

pub use line::{Line, value};
pub use parts::{circuit_of, put_parts};
pub use words::{kind_of, op_of};
