//! Strings: bytes between quotes.
ghost use Rattle.std.specs.Prelude.{◌≡◌, ◌≤◌, ◌<◌, ◌+◌, ◌∷◌, IfOk, true, length, drop, slice_index};
ghost use Rattle.std.specs.List.{list_all, take_while};
ghost use Rattle.rtlil_lexer.specs.Characters.{is_octal_digit};
ghost use Rattle.rtlil_lexer.specs.Strings.{unescaped, is_byte, octal_behind, named_escape, escape_value, escape_length, quoted_of};

use sim_base::{Name, NoMemory};
use std::alloc::Global;
use std::marker::Model;

/// How many octal digits an escape has at most.
const MOST_OCTAL_DIGITS: usize = 3;

/// A string, as it stands in the text: nothing is copied. A contract sees the bytes that it stands for,
/// with its escapes resolved.
#[derive(Debug, Drop)]
pub struct Quoted<'a> {
    body: &'a [u8],
}

impl<'a> Model for Quoted<'a> {
    ghost use Rattle.std.specs.Prelude.{◌≡◌, List, ℕ, true};
    ghost use Rattle.std.specs.List.{list_all};
    ghost use Rattle.rtlil_lexer.specs.Strings.{unescaped, is_byte};

    ghost Value = { List ℕ };

    ghost view = { λ q. unescaped q.body.now };

    ghost invariant = { λ q. list_all is_byte (unescaped q.body.now) ≡ true };
}

impl<'a> Quoted<'a> {
    /// The same string of the text.
    pub fn copied(&self) -> Quoted<'a>
        ensures { result ≡ self.now }
    {
        Quoted { body: self.body }
    }

    /// The string with this text between its quotes; none where an octal escape is above 255.
    pub(crate) fn of(body: &'a [u8]) -> Option<Quoted<'a>>
        ensures { result ≡ quoted_of body.now }
    {
        if is_all_bytes(body) {
            Some(Quoted { body })
        } else {
            None
        }
    }

    /// A name of these bytes.
    pub fn to_name(&self, alloc: Global) -> Result<Name, NoMemory>
        ensures { IfOk result (λ name. name ≡ self.now) }
    {
        let bytes = decoded(alloc, self.body)?;
        Ok(Name::new(bytes))
    }

    /// How many bytes it stands for. Each call counts them.
    pub fn len(&self) -> usize
        ensures { result ≡ length self.now }
    {
        characters_in(self.body)
    }
}

/// A character of a string: its number, and how many bytes of the text stand for it.
#[derive(Clone, Copy)]
struct Character {
    value: u16,
    length: usize,
}

fn is_octal_digit(byte: u8) -> bool
    ensures { result ≡ is_octal_digit byte }
{
    b'0' <= byte && byte <= b'7'
}

/// What a byte behind a backslash stands for, where it is no octal digit.
fn named_escape(byte: u8) -> u8
    ensures { result ≡ named_escape byte }
{
    match byte {
        b'n' => b'\n',
        b't' => b'\t',
        other => other,
    }
}

/// The octal digits at the front, of which five fit in 16 bits.
fn octal_at(front: &[u8]) -> Character
    requires { length front.now ≤ 5 }
    ensures value { result.value ≡ octal_behind 0 (take_while is_octal_digit front.now) }
    ensures length { result.length ≡ length (take_while is_octal_digit front.now) }
    ensures within { result.length ≤ length front.now }
{
    let mut value = 0u16;
    for (at, byte) in front.iter().enumerate() {
        if !is_octal_digit(*byte) {
            return Character { value, length: at };
        }
        value = value * 8 + u16::from(*byte - b'0');
    }
    Character {
        value,
        length: front.len(),
    }
}

/// What stands behind a backslash.
#[tactic(auto, unfolding(crate::specs::Strings::escape_value, crate::specs::Strings::escape_length))]
fn escape_at(rest: &[u8]) -> Character
    ensures value { result.value ≡ escape_value rest.now }
    ensures length { result.length ≡ escape_length rest.now }
    ensures short { result.length ≤ 3 }
{
    let octal = octal_at(&rest[..rest.len().min(MOST_OCTAL_DIGITS)]);
    if octal.length > 0 {
        return octal;
    }
    let byte = if rest.is_empty() { 0 } else { rest[0] };
    Character {
        value: u16::from(named_escape(byte)),
        length: 1,
    }
}

/// The character that begins at a place of a string.
fn character_at(body: &[u8], at: usize) -> Character
    requires { at < length body.now }
    ensures value { unescaped (drop at body.now) ≡ result.value ∷ unescaped (drop (at + result.length) body.now) }
    ensures some { 0 < result.length }
    ensures short { result.length ≤ 4 }
{
    let byte = body[at];
    if byte != b'\\' {
        return Character {
            value: u16::from(byte),
            length: 1,
        };
    }
    let escape = escape_at(&body[at + 1..]);
    Character {
        value: escape.value,
        length: escape.length + 1,
    }
}

/// Whether each character of a string is a byte.
fn is_all_bytes(body: &[u8]) -> bool
    ensures { result ≡ list_all is_byte (unescaped body.now) }
{
    let mut at = 0;
    while at < body.len() {
        let character = character_at(body, at);
        if character.value > 255 {
            return false;
        }
        at += character.length;
    }
    true
}

/// How many characters a string has.
fn characters_in(body: &[u8]) -> usize
    ensures { result ≡ length (unescaped body.now) }
{
    let mut count = 0;
    let mut at = 0;
    while at < body.len() {
        at += character_at(body, at).length;
        count += 1;
    }
    count
}

/// The characters of a string.
fn decoded(alloc: Global, body: &[u8]) -> Result<Vec<u8>, NoMemory>
    requires { list_all is_byte (unescaped body.now) ≡ true }
    ensures { IfOk result (λ bytes. bytes.items ≡ unescaped body.now) }
{
    let mut bytes = Vec::with_capacity(alloc, body.len())?;
    let mut at = 0;
    while at < body.len() {
        let character = character_at(body, at);
        bytes.push(character.value as u8)?;
        at += character.length;
    }
    Ok(bytes)
}
