//! The front of a text that is UTF-8 without the byte 0.
ghost use Rattle.std.specs.Prelude.{◌≡◌, ◌≤◌, length};
ghost use Rattle.std.specs.Str.Lossy.{utf8_valid_len};
ghost use Rattle.rtlil_lexer.specs.Tokens.{sound_length};

use memchr::memchr;
use simdutf8::compat::from_utf8;

/// How many bytes stand before the first that is no UTF-8.
fn utf8_length(bytes: &[u8]) -> usize
    ensures value { result ≡ utf8_valid_len bytes.now }
    ensures within { result ≤ length bytes.now }
{
    match from_utf8(bytes) {
        Ok(_) => bytes.len(),
        Err(error) => error.valid_up_to(),
    }
}

/// How many bytes stand before the first that is 0 or no UTF-8.
pub(crate) fn sound_length(bytes: &[u8]) -> usize
    ensures value { result ≡ sound_length bytes.now }
    ensures within { result ≤ length bytes.now }
{
    let text = &bytes[..utf8_length(bytes)];
    match memchr(0, text) {
        Some(at) => at,
        None => text.len(),
    }
}
