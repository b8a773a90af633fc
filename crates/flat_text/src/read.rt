//! Reading the text of a module.
ghost use Rattle.std.specs.Prelude.{◌≡◌, Some, None, IfOk, Err};
ghost use Rattle.std.specs.List.{list_all};
ghost use Rattle.flat_text.specs.Module.{is_text, is_text_byte, module_of};
ghost use Rattle.flat_text.specs.Place.{LeadsPast, IsRefusedText};

use crate::fault::FlatFault;
use crate::line::line_of;
use crate::module::Module;
use crate::place::Place;
use crate::words::{split_first, without_leading_blanks};
use std::alloc::Global;

fn has_text_bytes(text: &[u8]) -> bool
    ensures { result ≡ list_all is_text_byte text.now }
{
    text.iter()
        .all(|byte| *byte == b'\n' || (*byte >= b' ' && *byte <= b'~'))
}

/// Whether a text has bytes from 32 to 126 and line feeds alone, and a line feed at its end.
fn is_text(text: &[u8]) -> bool
    ensures { result ≡ is_text text.now }
{
    match text {
        [] => false,
        [.., last] => *last == b'\n' && has_text_bytes(text),
    }
}

/// The place behind a line of text.
fn after_line(alloc: Global, place: Place, line: &[u8]) -> Result<Place, FlatFault>
    ensures ok { IfOk result (λ after. LeadsPast place line.now after) }
    ensures not_built { result ≡ Err FlatFault.NotBuilt → IsRefusedText place line.now }
{
    let words = without_leading_blanks(line);
    if words.is_empty() {
        return Ok(place);
    }
    let said = line_of(alloc, words)?;
    place.after(alloc, said)
}

/// Reads the module of a text.
///
/// A text has lines of bytes from 32 to 126, each ended by a line feed. A line is empty but for blanks, which means
/// nothing, or it has words behind any number of blanks, parted by one blank each, with none at its end. Its lines are,
/// in this order: `autoidx` and a number, which may be left out; attributes; `module` and an identifier; wires, each
/// behind its attributes; cells, each behind attributes, which are dropped; and `end`.
///
/// - `attribute`, an identifier and a value;
/// - `wire`, then `width` and a number, then `input` or `output` and a number, both of which may be left out, and an
///   identifier;
/// - `cell` and two identifiers, its type and its name; behind it lines of `parameter`, an identifier and a value, then
///   lines of `connect`, an identifier and an identifier or binary digits, then `end`.
///
/// A number has 1 to 9 decimal digits. Binary digits are a number up to 67,108,864, a quote and so many digits 0 or 1. A
/// value is a number, binary digits or a text in double quotes that has no blank, double quote or backslash. An
/// identifier begins with a backslash or a dollar sign and has one byte more at least.
///
/// `NotBuilt` comes for each other text.
pub fn read_module(alloc: Global, text: &[u8]) -> Result<Module, FlatFault>
    ensures ok { IfOk result (λ m. module_of text.now ≡ Some m) }
    ensures not_built { result ≡ Err FlatFault.NotBuilt → module_of text.now ≡ None }
{
    if !is_text(text) {
        return Err(FlatFault::NotBuilt);
    }
    let mut place = Place::Start;
    let mut rest = Some(text);
    while let Some(lines) = rest {
        let (line, more) = split_first(lines, b'\n');
        place = after_line(alloc, place, line)?;
        rest = more;
    }
    match place.finished() {
        Some(module) => Ok(module),
        None => Err(FlatFault::NotBuilt),
    }
}
