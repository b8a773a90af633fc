//! The lines of a text and the words of a line.
ghost use Rattle.std.specs.Prelude.{◌≡◌, ◌==◌, Err, None, Some, IfOk, length, map};
ghost use Rattle.std.specs.List.{list_any, slice_split};
ghost use Rattle.flat_stimulus.specs.Words.{lines_of, words_of};

use flat_text::FlatFault;
use std::alloc::{AllocError, Global};

/// The parts of the lines' text.
fn split_lines<'a>(alloc: Global, text: &'a [u8]) -> Result<Vec<&'a [u8]>, AllocError>
    ensures { IfOk result (λ v. map (λ x. x.now) v.items ≡ slice_split (λ c. c == 10) text.entry.now) }
{
    text.split(|byte| *byte == b'\n').collect(alloc)
}

fn split_words<'a>(alloc: Global, line: &'a [u8]) -> Result<Vec<&'a [u8]>, AllocError>
    ensures { IfOk result (λ v. map (λ x. x.now) v.items ≡ slice_split (λ c. c == 32) line.entry.now) }
{
    line.split(|byte| *byte == b' ').collect(alloc)
}

/// The lines of a text in which each ends with a line feed.
pub fn read_lines<'a>(alloc: Global, text: &'a [u8]) -> Result<Vec<&'a [u8]>, FlatFault>
    ensures ok { IfOk result (λ v. lines_of text.entry.now ≡ Some (map (λ x. x.now) v.items)) }
    ensures not_built { result ≡ Err FlatFault.NotBuilt → lines_of text.entry.now ≡ None }
{
    if text.is_empty() || text[text.len() - 1] != b'\n' {
        return Err(FlatFault::NotBuilt);
    }
    let lines = split_lines(alloc, &text[..text.len() - 1])?;
    Ok(lines)
}

/// Whether one of the words has no bytes.
fn has_empty(words: &[&[u8]]) -> bool
    ensures { result ≡ list_any (λ word. length word.now == 0) words.now }
{
    words.iter().any(|word| word.is_empty())
}

/// The words of a line in which each stands one blank behind the one before.
pub fn read_words<'a>(alloc: Global, line: &'a [u8]) -> Result<Vec<&'a [u8]>, FlatFault>
    ensures ok { IfOk result (λ v. words_of line.entry.now ≡ Some (map (λ x. x.now) v.items)) }
    ensures not_built { result ≡ Err FlatFault.NotBuilt → words_of line.entry.now ≡ None }
{
    let words = split_words(alloc, line)?;
    if has_empty(&words) {
        return Err(FlatFault::NotBuilt);
    }
    Ok(words)
}
