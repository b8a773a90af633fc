//! The texts of attributes.
ghost use Rattle.std.specs.Prelude.{◌≡◌, ◌*◌, IfOk, length};
ghost use Rattle.std.specs.Str.{is_utf8};
ghost use Rattle.design_wires.specs.Wires.{init_of};
ghost use Rattle.design_wires.specs.Texts.{bytes_of, const_text, if_text, source_text, value_bytes};

use rtlil_signals::const_bits;
use rtlil_tree::{Attribute, Const, Wire, attribute_value};
use sim_base::{Bits, Name, NoMemory};
use std::alloc::Global;
use std::str::from_utf8;

#[tactic(auto, using(crate::proofs::Texts::is_text, crate::proofs::Texts::is_no_text))]
fn is_utf8(bytes: &[u8]) -> bool
    ensures { result ≡ is_utf8 bytes.now }
{
    from_utf8(bytes).is_ok()
}

fn if_text(name: Name) -> Option<Name>
    ensures { result ≡ if_text name }
{
    if is_utf8(name.as_bytes()) {
        Some(name)
    } else {
        None
    }
}

/// The bytes of a value, the most significant first, of which the bits are whole ones.
fn bytes_of(alloc: Global, value: &Bits, count: u32) -> Result<Name, NoMemory>
    requires { count * 8 ≡ value.now.width }
    ensures { IfOk result (λ name. name ≡ bytes_of count value.now.number) }
{
    let _ = value.width();
    let mut bytes = Vec::with_capacity(alloc, count as usize)?;
    for done in 0..count {
        bytes.push(value.field(8 * (count - 1 - done), 8) as u8)?;
    }
    Ok(Name::new(bytes))
}

/// The bytes of a value, if its bits are whole ones.
fn value_bytes(alloc: Global, value: &Bits) -> Result<Option<Name>, NoMemory>
    ensures { IfOk result (λ found. found ≡ value_bytes value.now) }
{
    let width = value.width();
    if width % 8 != 0 {
        return Ok(None);
    }
    Ok(Some(bytes_of(alloc, value, width / 8)?))
}

/// The text of a constant, if its bits are whole bytes of UTF-8.
pub fn const_text(alloc: Global, constant: &Const) -> Result<Option<Name>, NoMemory>
    ensures { IfOk result (λ found. found ≡ const_text constant.now) }
{
    if let Const::String(quoted) = constant {
        return Ok(if_text(quoted.to_name(alloc)?));
    }
    let value = const_bits(alloc, constant)?;
    match value_bytes(alloc, &value)? {
        Some(name) => Ok(if_text(name)),
        None => Ok(None),
    }
}

/// The text of the attribute `\src`, if there is one.
pub fn source_text(alloc: Global, attributes: &[Attribute]) -> Result<Option<Name>, NoMemory>
    ensures { IfOk result (λ found. found ≡ source_text attributes.now) }
{
    match attribute_value(attributes, b"\\src") {
        Some(constant) => const_text(alloc, constant),
        None => Ok(None),
    }
}

/// The same constant of the text.
fn copied<'t>(constant: &Const<'t>) -> Const<'t>
    ensures { result ≡ constant.now }
{
    match constant {
        Const::Digits(digits) => Const::Digits(digits.copied()),
        Const::Integer(number) => Const::Integer(*number),
        Const::String(text) => Const::String(text.copied()),
    }
}

/// What is written as a wire's start value, if anything is.
pub(crate) fn init_of<'t>(wire: &Wire<'t>) -> Option<Const<'t>>
    ensures { result ≡ init_of wire.now }
{
    match attribute_value(wire.attributes.as_slice(), b"\\init") {
        Some(constant) => Some(copied(constant)),
        None => None,
    }
}
