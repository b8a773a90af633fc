//! Lines and words, cut off the front of what is left of a text or a line.
ghost use Rattle.std.specs.Prelude.{◌≡◌, ◌<◌, ◌∷◌, ◌==◌, not, position, None, Some, IfSome, MatchOption, length, option_copied};
ghost use Rattle.flat_text.specs.Words.{parts, parts_left, without_leading_blanks, words_of, one_of, two_of};

/// Where a byte stands first.
pub(crate) fn place_of(byte: u8, bytes: &[u8]) -> Option<usize>
    ensures { result ≡ position (λ b. b == byte) bytes.now }
{
    bytes.iter().position(|at| *at == byte)
}

/// The first part, and what stands behind the separator that ends it.
pub(crate) fn split_first(bytes: &[u8], separator: u8) -> (&[u8], Option<&[u8]>)
    ensures parts { parts separator bytes.now ≡ result.0.now ∷ parts_left separator (option_copied result.1) }
    ensures shorter { IfSome result.1 (λ rest. length rest.now < length bytes.now) }
{
    match place_of(separator, bytes) {
        Some(at) => (&bytes[..at], Some(&bytes[at + 1..])),
        None => (bytes, None),
    }
}

/// Where the first byte stands that is no blank.
fn start_of(line: &[u8]) -> Option<usize>
    ensures { result ≡ position (λ b. not (b == 32)) line.now }
{
    line.iter().position(|byte| *byte != b' ')
}

pub(crate) fn without_leading_blanks(line: &[u8]) -> &[u8]
    ensures { result.now ≡ without_leading_blanks line.now }
{
    match start_of(line) {
        Some(at) => &line[at..],
        None => &line[line.len()..],
    }
}

/// The word, where it is the only one.
pub(crate) fn one_of(words: &[u8]) -> Option<&[u8]>
    ensures { option_copied result ≡ one_of (words_of words.now) }
{
    let (word, rest) = split_first(words, b' ');
    match rest {
        None => Some(word),
        Some(_) => None,
    }
}

/// The words, where they are two.
pub(crate) fn two_of(words: &[u8]) -> Option<(&[u8], &[u8])>
    ensures { MatchOption result (two_of (words_of words.now) ≡ None) (λ pair. two_of (words_of words.now) ≡ Some (pair.0.now, pair.1.now)) }
{
    let (first, rest) = split_first(words, b' ');
    let Some(rest) = rest else {
        return None;
    };
    let (second, rest) = split_first(rest, b' ');
    match rest {
        None => Some((first, second)),
        Some(_) => None,
    }
}
