//! `rtlil_check FILE ..` reads files in RTLIL and says of each how many modules and statements it has, or what
//! its first fault is and where. `rtlil_check design FILE [TOP]` says what the design of a file has, or why it is refused.
#![tactic(auto)]

mod counts;
mod design;
mod sizes;

use crate::counts::{Counts, counts_of};
use crate::design::{MOST_BYTES, judge, tell};
use command_words::top_identifier;
use outside::{Files, Shelf, ShelfFault, SinkFault, StdErr, StdOut, put_all};
use rtlil_lexer::{TextFault, lex};
use rtlil_tree::parse;
use sim_base::{Name, NoMemory};
use std::alloc::{AllocError, Global};
use std::io::ErrorKind;
use std::process::ExitCode;
use std::{env, io};

const USAGE: &[u8] = b"usage: rtlil_check FILE .. | rtlil_check design FILE [TOP]\n";

const BAD_WORDS: u8 = 2;

const UNREAD: u8 = 3;

const UNWRITTEN: u8 = 5;

const NO_MEMORY: u8 = 8;

/// What became of a file.
#[derive(Drop)]
enum Verdict {
    Read(Counts),
    Faulty(TextFault),
    Missing(ShelfFault),
}

/// Of files answers 0 where each was read without a fault, and 1 where one was not. Of a design answers:
///
/// - 0: it is taken, and what it has was printed;
/// - 2: the words do not fit, and the standard error has the usage line;
/// - 3: the file could not be read;
/// - 4: it is refused, and the standard error has the line that says why;
/// - 5: the output could not be written;
/// - 8: want of memory.
fn main(rt: HostRuntime) -> ExitCode {
    let words = match words_of(&rt) {
        Ok(words) => words,
        Err(error) if error.kind() == ErrorKind::InvalidData => return ExitCode::from(BAD_WORDS),
        Err(_) => return ExitCode::from(NO_MEMORY),
    };
    match words.split_first() {
        Some((first, rest)) if first.as_str() == "design" => ExitCode::from(design_asked(rt, rest)),
        _ => match check_all(rt, words.as_slice()) {
            Ok(true) => ExitCode::SUCCESS,
            Ok(false) | Err(_) => ExitCode::FAILURE,
        },
    }
}

/// The words after the program's name.
fn words_of(rt: &HostRuntime) -> io::Result<Vec<String>> {
    let mut words = Vec::new(rt.alloc());
    for word in env::args(rt)?.skip(1) {
        words.push(word)?;
    }
    Ok(words)
}

/// Says what a design has, whose file and top these words name.
fn design_asked(rt: HostRuntime, words: &[String]) -> u8 {
    let mut log = StdErr::new(rt.stderr());
    let (file, top) = match words {
        [file] => (file, None),
        [file, top] => (file, Some(top)),
        _ => {
            return match put_all(&mut log, USAGE) {
                Ok(()) => BAD_WORDS,
                Err(SinkFault) => UNWRITTEN,
            };
        }
    };
    match design_named(rt, file, top, &mut log) {
        Ok(status) => status,
        Err(NoMemory) => NO_MEMORY,
    }
}

/// Says what the design of a file has, with this top if one is given.
fn design_named(
    rt: HostRuntime,
    file: &String,
    top: Option<&String>,
    log: &mut StdErr,
) -> Result<u8, NoMemory> {
    let alloc = rt.alloc();
    let file = Name::copy_of(alloc, file.as_bytes())?;
    let top = match top {
        Some(top) => Some(top_identifier(alloc, &Name::copy_of(alloc, top.as_bytes())?)?),
        None => None,
    };
    let mut shelf = Files::new(rt);
    let mut out = StdOut::new(rt.stdout());
    match judge(alloc, &mut shelf, &file, top.as_ref().map(Name::as_bytes)) {
        Ok(said) => match tell(&said, &mut out, log) {
            Ok(status) => Ok(status),
            Err(SinkFault) => Ok(UNWRITTEN),
        },
        Err(ShelfFault::NoMemory) => Err(NoMemory),
        Err(_) => Ok(UNREAD),
    }
}

fn check_all(rt: HostRuntime, names: &[String]) -> io::Result<bool> {
    let mut shelf = Files::new(rt);
    let mut all = true;
    for name in names {
        let verdict = check(rt.alloc(), &mut shelf, name.as_bytes())?;
        match &verdict {
            Verdict::Read(counts) => println!(rt;
                "{name}: modules {}, statements {}",
                counts.modules, counts.statements
            )?,
            Verdict::Faulty(fault) => println!(rt; "{name}: {fault}")?,
            Verdict::Missing(fault) => println!(rt; "{name}: {fault:?}")?,
        }
        all &= matches!(&verdict, Verdict::Read(_));
    }
    Ok(all)
}

/// Reads a file to its tree.
fn check<S: Shelf>(alloc: Global, shelf: &mut S, name: &[u8]) -> Result<Verdict, AllocError> {
    let name = match Name::copy_of(alloc, name) {
        Ok(name) => name,
        Err(_) => return Ok(Verdict::Missing(ShelfFault::NoMemory)),
    };
    let text = match shelf.read(alloc, &name, MOST_BYTES) {
        Ok(text) => text,
        Err(fault) => return Ok(Verdict::Missing(fault)),
    };
    Ok(verdict_of(alloc, text.as_slice()))
}

fn verdict_of(alloc: Global, text: &[u8]) -> Verdict {
    if text.len() as u64 > MOST_BYTES {
        return Verdict::Missing(ShelfFault::TooLong);
    }
    match lex(alloc, text) {
        Ok(tokens) => match parse(alloc, tokens.as_slice()) {
            Ok(file) => Verdict::Read(counts_of(&file)),
            Err(fault) => Verdict::Faulty(fault),
        },
        Err(fault) => Verdict::Faulty(fault),
    }
}
