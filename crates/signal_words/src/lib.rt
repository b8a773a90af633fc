//! What signals hold, read from the values of nets: at most 64 bits at a time.
#![tactic(auto)]

mod laws;
mod piece;
mod reader;
mod run;
mod sign;
mod signal;
mod values;
mod word;

pub use laws::{law_of_start, law_of_stores};
pub use reader::SigReader;
pub use run::{PieceReader, one_piece};
pub use sign::{are_signed, is_negative};
pub use signal::{sig_bit, sig_field, sig_word};
pub use values::{SigWord, is_one_word, ones_word};
pub use word::{
    one_word, whole_sig_word, whole_value, whole_value_of_width, whole_word, word_of, word_of_whole,
};
