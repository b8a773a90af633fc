//! Faults of a stimulus' text.
ghost use Rattle.std.specs.Prelude.{◌≡◌};
ghost use Rattle.stimulus_text.specs.Faults.{stim_fault_name, stim_fault_number};
ghost use Rattle.stimulus_text.specs.declared.fault.StimFault.TheVariants.{NoMemory as OutOfMemory};

use sim_base::NoMemory;
use std::alloc::{AllocError, AllocFailed};
use thiserror::Error;

/// What is wrong with a stimulus' text. Each kind has a number, which programs print.
#[derive(Clone, Copy, Debug, PartialEq, Eq, Error)]
pub enum StimFaultKind {
    /// 30: the first line is missing or is not `stimulus 0`, a line stands where none of its kind may, a `block` line
    /// has a wrong number of words, words stand behind `end`, or a block has no `end`.
    #[error("a line of another form")]
    Head,
    /// 31: the second line is missing, or does not name each input once behind `inputs`.
    #[error("the inputs are not each named once")]
    InputNames,
    /// 32: a word in the place of a time is none, or a block ends behind the largest time.
    #[error("no time")]
    BadTime,
    /// 33: a value or a number of repeats is outside its rule, or a row has a wrong number of values.
    #[error("no value")]
    BadValue,
    /// 34: an offset is not above the one before it in its block, or not below the period.
    #[error("an offset that does not rise or is not below the period")]
    NotRising,
    /// 35: a block has no row, or the text has no block.
    #[error("a block without rows or a text without blocks")]
    Empty,
    /// 36: there are more than 16,777,216 samples.
    #[error("more than 16777216 samples")]
    TooMany,
}

impl StimFaultKind {
    /// The number under which a refusal is printed.
    pub fn number(self) -> u8
        ensures { result ≡ stim_fault_number self }
    {
        match self {
            StimFaultKind::Head => 30,
            StimFaultKind::InputNames => 31,
            StimFaultKind::BadTime => 32,
            StimFaultKind::BadValue => 33,
            StimFaultKind::NotRising => 34,
            StimFaultKind::Empty => 35,
            StimFaultKind::TooMany => 36,
        }
    }

    /// The name that is printed.
    pub fn name(self) -> &'static str
        ensures { result.now ≡ stim_fault_name self }
    {
        match self {
            StimFaultKind::Head => "Head",
            StimFaultKind::InputNames => "InputNames",
            StimFaultKind::BadTime => "BadTime",
            StimFaultKind::BadValue => "BadValue",
            StimFaultKind::NotRising => "NotRising",
            StimFaultKind::Empty => "Empty",
            StimFaultKind::TooMany => "TooMany",
        }
    }
}

/// Why a stimulus was not read.
#[derive(Clone, Copy, Debug, PartialEq, Eq, Error)]
pub enum StimFault {
    /// The first fault of the text, and its line, counted from 1.
    #[error("line {line}: {kind}")]
    At { kind: StimFaultKind, line: u32 },
    /// There was no memory for the answer. This comes in the place of any other answer.
    #[error("out of memory")]
    NoMemory,
}

impl From<NoMemory> for StimFault {
    ghost from_gives = { λ _ e. e ≡ OutOfMemory };

    fn from(_cause: NoMemory) -> StimFault {
        StimFault::NoMemory
    }
}

impl From<AllocError> for StimFault {
    ghost from_gives = { λ _ e. e ≡ OutOfMemory };

    fn from(_cause: AllocError) -> StimFault {
        StimFault::NoMemory
    }
}

impl<T: Drop> From<AllocFailed<T>> for StimFault {
    ghost from_gives = { λ _ e. e ≡ OutOfMemory };

    fn from(_cause: AllocFailed<T>) -> StimFault {
        StimFault::NoMemory
    }
}
