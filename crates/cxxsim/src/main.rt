//! `cxxsim trace --design F --stimulus F` runs a design in RTLIL under a table of input values, and prints
//! the value of every item at every sample; `cxxsim solo --design F --stimulus F` serves one client over the
//! standard streams.
#![tactic(auto)]

mod command;
mod loading;
mod outcome;
mod print;
mod program;
mod refusal;
mod session;
#[cfg(test)]
mod solo_tests;
#[cfg(test)]
mod tests;
mod tracing;
mod words;

pub use command::{Command, Mode};
use outside::{Files, StdErr, StdIn, StdOut};
pub use program::{cxxsim, solo};
pub use refusal::Refusal;
use std::io::ErrorKind;
use std::process::ExitCode;
use std::{env, io};
pub use words::{WordsFault, read_words};

/// The status of a call that finds no memory for its words.
const NO_MEMORY: u8 = 8;

/// Only makes the real objects: the files, the standard streams, and the standard error as the log.
fn main(rt: HostRuntime) -> ExitCode {
    let Ok(words) = words_of(&rt) else {
        return ExitCode::from(NO_MEMORY);
    };
    let mut shelf = Files::new(rt);
    let mut input = StdIn::new(rt.stdin());
    let mut out = StdOut::new(rt.stdout());
    let mut log = StdErr::new(rt.stderr());
    ExitCode::from(cxxsim(&rt, &words, &mut shelf, &mut input, &mut out, &mut log))
}

/// The words after the program's name. A word that is not UTF-8 fits nowhere: then there are none.
fn words_of(rt: &HostRuntime) -> io::Result<Vec<String>> {
    let mut words = Vec::new(rt.alloc());
    let given = match env::args(rt) {
        Err(error) if error.kind() == ErrorKind::InvalidData => return Ok(words),
        given => given?,
    };
    for word in given.skip(1) {
        words.push(word)?;
    }
    Ok(words)
}
