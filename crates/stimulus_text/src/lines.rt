//! The lines of a text and the words of a line.
ghost use Rattle.std.specs.Prelude.{◌≡◌, ◌∷◌, ◌+◌, ◌<◌, ◌==◌, [], MatchOption, IfOk, IfSome, length, map, filter, not};
ghost use Rattle.std.specs.List.{slice_split};
ghost use Rattle.stimulus_text.specs.Lines.{is_blank, is_comment, lines_of, words_of, without_return};

use memchr::memchr;
use std::alloc::{AllocError, Global};

/// The first line of a text without what ends it, and the text behind it.
#[derive(Clone, Copy, Debug)]
pub struct Line<'a> {
    pub text: &'a [u8],
    pub rest: &'a [u8],
}

/// A line without a carriage return at its end.
fn without_return<'a>(line: &'a [u8]) -> &'a [u8]
    ensures { result.now ≡ without_return line.entry.now }
{
    let Some(last) = line.len().checked_sub(1) else {
        return line;
    };
    if line[last] == b'\r' {
        &line[..last]
    } else {
        line
    }
}

/// The first line of a text; none where the text has no bytes.
pub fn next_line<'a>(text: &'a [u8]) -> Option<Line<'a>>
    ensures lines { MatchOption result (lines_of text.entry.now ≡ []) (λ line. lines_of text.entry.now ≡ line.text.now ∷ lines_of line.rest.now) }
    ensures shorter { IfSome result (λ line. length line.rest.now < length text.entry.now) }
{
    if text.is_empty() {
        return None;
    }
    match memchr(b'\n', text) {
        Some(end) => Some(Line {
            text: without_return(&text[..end]),
            rest: &text[end + 1..],
        }),
        None => Some(Line {
            text,
            rest: &text[text.len()..],
        }),
    }
}

/// The words of a line.
pub fn words_of<'a>(alloc: Global, line: &'a [u8]) -> Result<Vec<&'a [u8]>, AllocError>
    ensures { IfOk result (λ v. map (λ x. x.now) v.items ≡ words_of line.entry.now) }
{
    line.split(|byte| *byte == b' ' || *byte == b'\t')
        .filter(|word| !word.is_empty())
        .collect(alloc)
}

/// Whether a line says nothing since it begins with `#`.
pub fn is_comment(line: &[u8]) -> bool
    ensures { result ≡ is_comment line.now }
{
    matches!(line, [b'#', ..])
}
