//! Faults of a text.
ghost use Rattle.std.specs.Prelude.{◌≡◌};
ghost use Rattle.rtlil_lexer.specs.Faults.{text_fault_name, text_fault_number};
ghost use Rattle.rtlil_lexer.specs.declared.fault.TextFault.TheVariants.{NoMemory as OutOfMemory};

use sim_base::NoMemory;
use std::alloc::{AllocError, AllocFailed};
use thiserror::Error;

/// What is wrong with a text. Each kind has a number, which programs print.
#[derive(Clone, Copy, Debug, PartialEq, Eq, Error)]
pub enum TextFaultKind {
    /// 1: a byte that starts no token, or is 0, or is no UTF-8. Its place is its own.
    #[error("a byte that starts no token")]
    BadByte,
    /// 2: a string that is not closed on its line, or an octal escape above 255. Its place is the string's.
    #[error("a string that is not closed or has a bad escape")]
    BadString,
    /// 3: an integer outside 32 bits with a sign, or a constant of more than 67,108,864 bits or with more
    /// digits than bits. Its place is the number's.
    #[error("a number out of range")]
    BadNumber,
    /// 4: a token that fits no rule of the grammar.
    #[error("a token that fits no rule")]
    Syntax,
    /// 5: braces or switches more than 256 deep.
    #[error("nested too deep")]
    Nesting,
    /// 6: a part of a process that is not read.
    #[error("a part of a process that is not read")]
    Process,
}

impl TextFaultKind {
    /// The number under which a refusal is printed.
    pub fn number(self) -> u8
        ensures { result ≡ text_fault_number self }
    {
        match self {
            TextFaultKind::BadByte => 1,
            TextFaultKind::BadString => 2,
            TextFaultKind::BadNumber => 3,
            TextFaultKind::Syntax => 4,
            TextFaultKind::Nesting => 5,
            TextFaultKind::Process => 6,
        }
    }

    /// The name that is printed.
    pub fn name(self) -> &'static str
        ensures { result.now ≡ text_fault_name self }
    {
        match self {
            TextFaultKind::BadByte => "BadByte",
            TextFaultKind::BadString => "BadString",
            TextFaultKind::BadNumber => "BadNumber",
            TextFaultKind::Syntax => "Syntax",
            TextFaultKind::Nesting => "Nesting",
            TextFaultKind::Process => "Process",
        }
    }
}

/// Why a text was not read.
#[derive(Clone, Copy, Debug, PartialEq, Eq, Error)]
pub enum TextFault {
    /// The first fault of the text, and its place. Lines and columns count from 1, and columns count bytes.
    #[error("line {line}, column {column}: {kind}")]
    At {
        kind: TextFaultKind,
        line: u32,
        column: u32,
    },
    /// There was no memory for the answer. This comes in the place of any other answer.
    #[error("out of memory")]
    NoMemory,
}

impl From<NoMemory> for TextFault {
    ghost from_gives = { λ _ e. e ≡ OutOfMemory };

    fn from(_cause: NoMemory) -> TextFault {
        TextFault::NoMemory
    }
}

impl From<AllocError> for TextFault {
    ghost from_gives = { λ _ e. e ≡ OutOfMemory };

    fn from(_cause: AllocError) -> TextFault {
        TextFault::NoMemory
    }
}

impl<T: Drop> From<AllocFailed<T>> for TextFault {
    ghost from_gives = { λ _ e. e ≡ OutOfMemory };

    fn from(_cause: AllocFailed<T>) -> TextFault {
        TextFault::NoMemory
    }
}
