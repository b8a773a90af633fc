//! Strings, from behind their first quote on.
ghost use Rattle.std.specs.Prelude.{◌≡◌, ◌<◌, ◌==◌, ◌&&◌, not, IfSome, false, length, option_copied};
ghost use Rattle.rtlil_lexer.specs.Strings.{body_length, body_of};

/// Whether a byte escapes the next one.
fn escapes_next(escaped: bool, byte: u8) -> bool
    ensures { result ≡ (byte == 92 && not escaped) }
{
    byte == b'\\' && !escaped
}

/// How many bytes stand before the quote that closes a string on its line.
fn body_length(rest: &[u8]) -> Option<usize>
    ensures value { result ≡ body_length false rest.now }
    ensures within { IfSome result (λ size. size < length rest.now) }
{
    let mut escaped = false;
    for (at, byte) in rest.iter().enumerate() {
        if *byte == b'\n' {
            return None;
        }
        if *byte == b'"' && !escaped {
            return Some(at);
        }
        escaped = escapes_next(escaped, *byte);
    }
    None
}

/// What stands between a string's quotes, from behind the first one on; none where no quote closes it on
/// its line.
pub(crate) fn body_of(rest: &[u8]) -> Option<&[u8]>
    ensures { option_copied result ≡ body_of rest.now }
{
    match body_length(rest) {
        Some(size) => Some(&rest[..size]),
        None => None,
    }
}
