//! The line of a stimulus' fault.
ghost use Rattle.std.specs.Prelude.{◌≡◌, IfOk};
ghost use Rattle.refusal_lines.specs.Lines.{stimulus_fault_line};

use crate::line::{push_decimal, push_head};
use sim_base::NoMemory;
use std::alloc::Global;
use stimulus_text::StimFaultKind;

/// The line of a stimulus' fault, with the line's end: `refused`, the number and the name of its kind, and the line of the text,
/// with a blank between two of them.
pub fn stimulus_fault_line(
    alloc: Global,
    kind: StimFaultKind,
    line: u32,
) -> Result<Vec<u8>, NoMemory>
    ensures { IfOk result (λ text. text.items ≡ stimulus_fault_line kind line) }
{
    let mut text = Vec::new(alloc);
    push_head(&mut text, kind.number(), kind.name())?;
    text.push(b' ')?;
    push_decimal(&mut text, line)?;
    text.push(b'\n')?;
    Ok(text)
}
