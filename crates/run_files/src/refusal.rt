//! Why the files of a run are refused.
ghost use Rattle.std.specs.Prelude.{◌≡◌, IfOk, Some};
ghost use Rattle.run_files.specs.Lines.{refusal_line};

use circuit::DesignFault;
use refusal_lines::{design_fault_line, stimulus_fault_line, text_fault_line};
use rtlil_lexer::TextFault;
use sim_base::NoMemory;
use std::alloc::Global;
use stimulus_text::StimFaultKind;

/// A fault of a file that was read.
#[derive(Debug, Drop)]
pub enum Refusal {
    /// 50: the design's file has more bytes than are read.
    DesignTooLong,
    /// 1 to 6: the design's text has a fault, or a process.
    Text(TextFault),
    /// 10 to 24: what the text says is no design, or its drives have a fault.
    Design(DesignFault),
    /// 50: the stimulus' file has more bytes than are read.
    StimulusTooLong,
    /// 30 to 36: the stimulus has a fault in this line.
    Stimulus { kind: StimFaultKind, line: u32 },
}

impl Refusal {
    /// The line that says the refusal, with the line's end. What is want of memory has no line: it gives `NoMemory`, as want of
    /// memory for the line does.
    pub fn line(&self, alloc: Global) -> Result<Vec<u8>, NoMemory>
        ensures { IfOk result (λ text. refusal_line self.now ≡ Some text.items) }
    {
        match self {
            Refusal::DesignTooLong => Ok(Vec::from_slice(
                alloc,
                b"refused 50 FileTooLong design\n",
            )?),
            Refusal::Text(fault) => text_fault_line(alloc, *fault),
            Refusal::Design(fault) => design_fault_line(alloc, fault),
            Refusal::StimulusTooLong => Ok(Vec::from_slice(
                alloc,
                b"refused 50 FileTooLong stimulus\n",
            )?),
            Refusal::Stimulus { kind, line } => stimulus_fault_line(alloc, *kind, *line),
        }
    }
}
