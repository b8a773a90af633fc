//! What a text is made of.
use crate::constant::Constant;
use crate::quoted::Quoted;
use crate::spelling::Spelling;

/// One token, with the place of its first byte. Lines and columns count from 1, and columns count bytes.
#[derive(Debug, Drop)]
pub struct Token<'a> {
    pub kind: TokenKind<'a>,
    pub line: u32,
    pub column: u32,
}

/// What a token is.
#[derive(Debug, Drop)]
pub enum TokenKind<'a> {
    /// Lower-case letters and `_`: a keyword of the grammar, or no word of it.
    Word(Spelling<'a>),
    /// `\` or `$` and at least one byte more, the sign at its front included.
    Identifier(Spelling<'a>),
    /// A decimal number of 32 bits with a sign.
    Integer(i32),
    /// A width, a quote and digits.
    Constant(Constant<'a>),
    /// What stands between double quotes.
    String(Quoted<'a>),
    /// `{`
    LeftBrace,
    /// `}`
    RightBrace,
    /// `[`
    LeftBracket,
    /// `]`
    RightBracket,
    /// `:`
    Colon,
    /// `,`
    Comma,
    /// A line feed, or the end of a text whose last line has none.
    EndOfLine,
}
