//! The line of a design's fault.
ghost use Rattle.std.specs.Prelude.{◌≡◌, ◌++◌, Some, IfOk, OnOk, flat_map};
ghost use Rattle.refusal_lines.specs.Lines.{bit_text, design_fault_line, place_text};

use crate::line::{push_decimal, push_head};
use circuit::{BitAt, DesignFault};
use sim_base::NoMemory;
use std::alloc::Global;

/// Puts a place behind the text, after a blank; nothing where there is no place.
fn push_place(text: &mut Vec<u8>, place: &[u8]) -> Result<(), NoMemory>
    ensures { OnOk result (text.new.items ≡ text.old.items ++ place_text place.now) }
{
    if !place.is_empty() {
        text.push(b' ')?;
        text.extend_from_slice(place)?;
    }
    Ok(())
}

/// Puts a bit behind the text, after a blank: the path of its net, a blank, and its number in brackets.
fn push_bit(text: &mut Vec<u8>, bit: &BitAt) -> Result<(), NoMemory>
    ensures { OnOk result (text.new.items ≡ text.old.items ++ bit_text bit.now) }
{
    text.push(b' ')?;
    text.extend_from_slice(bit.net.as_bytes())?;
    text.extend_from_slice(b" [")?;
    push_decimal(text, bit.bit)?;
    text.push(b']')?;
    Ok(())
}

fn push_bits(text: &mut Vec<u8>, bits: &[BitAt]) -> Result<(), NoMemory>
    ensures { OnOk result (text.new.items ≡ text.old.items ++ flat_map bit_text bits.now) }
{
    for bit in bits {
        push_bit(text, bit)?;
    }
    Ok(())
}

/// The line of a design's fault, with the line's end: `refused`, the number and the name of its kind, the place where there is
/// one, and each of its bits as the path of the net and `[I]`, with a blank between two of them. Names are written as their
/// bytes. A fault that is want of memory has no line: it gives `NoMemory`, as want of memory for the line does.
pub fn design_fault_line(alloc: Global, fault: &DesignFault) -> Result<Vec<u8>, NoMemory>
    ensures { IfOk result (λ text. design_fault_line fault.now ≡ Some text.items) }
{
    match fault.kind.number() {
        Some(number) => {
            let mut text = Vec::new(alloc);
            push_head(&mut text, number, fault.kind.name())?;
            push_place(&mut text, fault.place.as_bytes())?;
            push_bits(&mut text, fault.bits.as_slice())?;
            text.push(b'\n')?;
            Ok(text)
        }
        None => Err(NoMemory),
    }
}
