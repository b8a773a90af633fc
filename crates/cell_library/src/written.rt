//! A cell as it is written: by names, numbers and widths.
use rtlil_lexer::Spelling;

/// A parameter that is written, and its number. A number of 2^64 and above may be given as any from 2^31 on.
#[derive(Debug, Drop)]
pub struct Setting<'a> {
    /// The identifier, as `\WIDTH`.
    pub name: Spelling<'a>,
    pub value: u64,
}

/// A port that is joined, and how many bits it is joined to: of 2^64 and more 2^64 - 1.
#[derive(Debug, Drop)]
pub struct Connection<'a> {
    /// The identifier, as `\A`.
    pub port: Spelling<'a>,
    pub width: u64,
}
