//! Places in a text.
ghost use Rattle.std.specs.Prelude.{◌≡◌, ◌<◌, ◌+◌};
ghost use Rattle.rtlil_lexer.specs.Tokens.{behind, onward, start};

use crate::token::TokenKind;

/// A line and a column, both from 1; columns count bytes.
#[derive(Clone, Copy, Debug, PartialEq, Eq)]
pub(crate) struct Place {
    pub(crate) line: u32,
    pub(crate) column: u32,
}

impl Place {
    /// Where a text begins.
    pub(crate) fn start() -> Place
        ensures { result ≡ start }
    {
        Place { line: 1, column: 1 }
    }

    /// A place of the same line, so many bytes on.
    pub(crate) fn onward(self, size: usize) -> Place
        requires { self.column + size < 4294967296 }
        ensures { result ≡ onward self size }
    {
        Place {
            line: self.line,
            column: self.column + size as u32,
        }
    }

    /// The place behind a piece that takes so many bytes: behind a line's end it is the beginning of the next line.
    pub(crate) fn behind(self, token: &Option<TokenKind<'_>>, size: usize) -> Place
        requires line { self.line + 1 < 4294967296 }
        requires column { self.column + size < 4294967296 }
        ensures { result ≡ behind self token.now size }
    {
        match token {
            Some(TokenKind::EndOfLine) => Place {
                line: self.line + 1,
                column: 1,
            },
            _ => self.onward(size),
        }
    }
}
