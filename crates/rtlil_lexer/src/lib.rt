//! The tokens of a text in RTLIL, as the Yosys manual has it: words, identifiers, integers, constants,
//! strings, signs and the ends of lines, each with its place.
#![tactic(auto)]

mod classes;
mod constant;
mod fault;
mod laws;
mod lexer;
mod number;
mod piece;
mod place;
mod quoted;
mod sound;
mod spelling;
mod strings;
mod token;

pub use constant::{Constant, WIDEST};
pub use fault::{TextFault, TextFaultKind};
pub use laws::{law_of_faults, law_of_one_reading, law_of_tokens};
pub use lexer::lex;
pub use quoted::Quoted;
pub use spelling::Spelling;
pub use token::{Token, TokenKind};
