//! The tokens of a text.
ghost use Rattle.std.specs.Prelude.{◌≡◌, ◌≤◌, ◌<◌, ◌+◌, length, Ok, Err, IfOk, IfErr, MatchResult};
ghost use Rattle.rtlil_lexer.specs.declared.fault.TextFault.TheVariants.{At};
ghost use Rattle.rtlil_lexer.specs.Tokens.{fault_at, tokens_in, last_end, lexed, with_front, Fails};
ghost use Rattle.rtlil_lexer.specs.Cursors.{left_of, one_or_none, HasRoom};

use crate::fault::{TextFault, TextFaultKind};
use crate::piece::first_of;
use crate::place::Place;
use crate::sound::sound_length;
use crate::token::{Token, TokenKind};
use std::alloc::Global;

/// What of a text is not read yet: its bytes, how many of them are sound, and the place of the first one.
#[derive(Debug, Drop)]
pub(crate) struct Cursor<'a> {
    pub(crate) rest: &'a [u8],
    pub(crate) sound: usize,
    pub(crate) place: Place,
}

fn fault_at(kind: TextFaultKind, place: Place) -> TextFault
    ensures { result ≡ fault_at kind place }
{
    TextFault::At {
        kind,
        line: place.line,
        column: place.column,
    }
}

/// The token of a piece that stands here, if it is one.
fn token_at<'a>(place: Place, kind: Option<TokenKind<'a>>) -> Option<Token<'a>>
    ensures { one_or_none result ≡ tokens_in place kind.entry }
{
    let kind = kind?;
    Some(Token {
        kind,
        line: place.line,
        column: place.column,
    })
}

impl<'a> Cursor<'a> {
    /// Reads what stands first: its token, if it is one, and where the reader stands behind it.
    fn read_piece(self) -> Result<(Option<Token<'a>>, Cursor<'a>), TextFault>
        requires some { 0 < length self.rest.now }
        requires room { HasRoom self }
        ensures left { MatchResult result (λ read. left_of self.entry ≡ with_front (one_or_none read.0) (left_of read.1)) (λ fault. left_of self.entry ≡ Err fault) }
        ensures room { IfOk result (λ read. HasRoom read.1) }
        ensures shorter { IfOk result (λ read. length read.1.rest.now < length self.entry.rest.now) }
    {
        let piece = match first_of(self.rest) {
            Ok(piece) => piece,
            Err(kind) => return Err(fault_at(kind, self.place)),
        };
        if piece.length > self.sound {
            return Err(fault_at(TextFaultKind::BadByte, self.place.onward(self.sound)));
        }
        let next = Cursor {
            rest: &self.rest[piece.length..],
            sound: self.sound - piece.length,
            place: self.place.behind(&piece.token, piece.length),
        };
        Ok((token_at(self.place, piece.token), next))
    }
}

/// The end of the last line, where the text's end ends it: behind a line feed no further line begins.
fn last_end<'a>(place: Place) -> Option<Token<'a>>
    ensures { one_or_none result ≡ last_end place }
{
    if place.column == 1 && place.line != 1 {
        return None;
    }
    token_at(place, Some(TokenKind::EndOfLine))
}

/// Reads the tokens of a text in RTLIL, as the chapter on its text in the Yosys manual has them.
///
/// - Lines end with a line feed, and the text's end ends its last line; behind a line feed at the end no further line
///   begins, and an empty text has one empty line. White space is space, tab and carriage return. `#` where a token may
///   begin starts a comment up to the line's end. A token ends where the next byte no longer belongs to it, so white
///   space between tokens may be left out.
/// - A word has lower-case letters and `_`. An identifier has `\` or `$` and one or more bytes that are neither white
///   space nor a line feed. An integer has digits, behind a `-` or without one. A constant has digits, `'`, an `s` or
///   none, and any number of the digits `0 1 x z m -`. A string stands between double quotes; in it `\n`, `\t`, a
///   backslash with one to three octal digits, and a backslash with any other byte are escapes. The signs are
///   `{ } [ ] : ,`.
///
/// Each token has the line and the column of its first byte. The fault is the first in the text, with its place:
///
/// - `BadByte` at a byte that starts no token, is 0 or is no UTF-8, also within a comment, a string or an identifier;
///   at a `-`, `\` or `$` behind which the rest of its token is missing;
/// - `BadString` at a string that is not closed on its line or has an octal escape above 255;
/// - `BadNumber` at an integer outside 32 bits with a sign, or at a constant of more than 67,108,864 bits or with more
///   digits than bits.
///
/// The bounds of numbers, the choice among faults and their places are this crate's own. Memory is taken for the list of
/// tokens alone, which point into the text.
pub fn lex(alloc: Global, bytes: &[u8]) -> Result<Vec<Token<'_>>, TextFault>
    requires countable { length bytes.now < 4294967295 }
    ensures tokens { IfOk result (λ tokens. lexed bytes.now ≡ Ok tokens.items) }
    ensures fault { IfErr result (λ fault. Fails fault (lexed bytes.now)) }
{
    let mut tokens = Vec::new(alloc);
    let mut cursor = Cursor {
        rest: bytes,
        sound: sound_length(bytes),
        place: Place::start(),
    };
    while !cursor.rest.is_empty() {
        let (token, next) = cursor.read_piece()?;
        if let Some(token) = token {
            tokens.push(token)?;
        }
        cursor = next;
    }
    if let Some(end) = last_end(cursor.place) {
        tokens.push(end)?;
    }
    Ok(tokens)
}
