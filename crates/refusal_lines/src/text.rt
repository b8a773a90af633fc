//! The line of a text's fault.
ghost use Rattle.std.specs.Prelude.{◌≡◌, Some, IfOk};
ghost use Rattle.refusal_lines.specs.Lines.{text_fault_line};

use crate::line::{push_decimal, push_head};
use rtlil_lexer::TextFault;
use sim_base::NoMemory;
use std::alloc::Global;

/// The line of a text's fault, with the line's end: `refused`, the number and the name of its kind, the line and the column,
/// with a blank between two of them. A fault that is want of memory has no line: it gives `NoMemory`, as want of memory for the
/// line does.
pub fn text_fault_line(alloc: Global, fault: TextFault) -> Result<Vec<u8>, NoMemory>
    ensures { IfOk result (λ text. text_fault_line fault ≡ Some text.items) }
{
    match fault {
        TextFault::At { kind, line, column } => {
            let mut text = Vec::new(alloc);
            push_head(&mut text, kind.number(), kind.name())?;
            text.push(b' ')?;
            push_decimal(&mut text, line)?;
            text.push(b' ')?;
            push_decimal(&mut text, column)?;
            text.push(b'\n')?;
            Ok(text)
        }
        TextFault::NoMemory => Err(NoMemory),
    }
}
