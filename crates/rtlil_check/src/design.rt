//! The design of a file: what it has, or why it is refused.
ghost use Rattle.std.specs.Prelude.{◌≡◌, ◌⊎◌, ◌<◌, IfOk, IsErrOf, OnErr, Some, length};
ghost use Rattle.std.specs.Option.{option_copied};
ghost use Rattle.std.specs.Io.KnownBytes.{append_known};
ghost use Rattle.outside.specs.Faults.{Rose};
ghost use Rattle.rtlil_check.specs.Said.{IsSaidOf, IsSaidOfText, load_fault_line, said_status, text_for_log, text_for_output, too_long_line};

use crate::sizes::sizes_text;
use design_load::{LoadFault, load_design};
use outside::{Shelf, ShelfFault, Sink, SinkFault, put_all};
use refusal_lines::{design_fault_line, text_fault_line};
use sim_base::{Name, NoMemory};
use std::alloc::Global;

/// The most bytes of a file that is read.
pub const MOST_BYTES: u64 = 536_870_912;

const TOO_LONG: &[u8] = b"refused 50 FileTooLong design\n";

/// What is said of a design.
#[derive(Debug, Drop)]
pub enum Said {
    /// It is taken; what it has.
    Taken(Vec<u8>),
    /// It is refused; the line that says why.
    Refused(Vec<u8>),
    /// Its file has more bytes than are read.
    TooLong,
}

/// The line that says why a text is refused.
fn refusal_line(alloc: Global, fault: LoadFault) -> Result<Vec<u8>, NoMemory>
    ensures { IfOk result (λ text. load_fault_line fault ≡ Some text.items) }
{
    match fault {
        LoadFault::Text(fault) => text_fault_line(alloc, fault),
        LoadFault::Design(fault) => design_fault_line(alloc, &fault),
        LoadFault::NoMemory => Err(NoMemory),
    }
}

/// What is said of a text.
fn said_of(alloc: Global, text: &[u8], top: Option<&[u8]>) -> Result<Said, NoMemory>
    requires { length text.now < 4294967295 }
    ensures { IfOk result (IsSaidOfText text.now (option_copied top.entry)) }
{
    match load_design(alloc, text, top) {
        Ok(loaded) => Ok(Said::Taken(sizes_text(alloc, &loaded.circuit)?)),
        Err(fault) => Ok(Said::Refused(refusal_line(alloc, fault)?)),
    }
}

/// What is said of the design of a file, with the module of this identifier as its top, or the one that says so itself.
pub fn judge<S: Shelf>(
    alloc: Global,
    shelf: &mut S,
    file: &Name,
    top: Option<&[u8]>,
) -> Result<Said, ShelfFault>
    ensures said { IfOk result (IsSaidOf ((S.seen shelf.old).file file.now) (option_copied top.entry)) }
    ensures failed { IsErrOf result ShelfFault.Failed → Rose (S.seen shelf.old).read_faults (S.seen shelf.new).read_faults }
    ensures only { IsErrOf result ShelfFault.TooLong → ⊥ }
{
    let text = match shelf.read(alloc, file, MOST_BYTES) {
        Ok(text) => text,
        Err(ShelfFault::TooLong) => return Ok(Said::TooLong),
        Err(fault) => return Err(fault),
    };
    match said_of(alloc, text.as_slice(), top) {
        Ok(said) => Ok(said),
        Err(NoMemory) => Err(ShelfFault::NoMemory),
    }
}

/// Tells what is said, the output of a design that is taken and the log of one that is refused, and answers the status of it.
pub fn tell<O: Sink, G: Sink>(said: &Said, out: &mut O, log: &mut G) -> Result<u8, SinkFault>
    ensures status { IfOk result (λ status. status ≡ said_status said.now) }
    ensures printed { IfOk result (λ _. (O.seen out.new).held ≡ append_known (O.seen out.old).held (text_for_output said.now)) }
    ensures logged { IfOk result (λ _. (G.seen log.new).held ≡ append_known (G.seen log.old).held (text_for_log said.now)) }
    ensures failed { OnErr result (Rose (O.seen out.old).faults (O.seen out.new).faults ⊎ Rose (G.seen log.old).faults (G.seen log.new).faults) }
{
    match said {
        Said::Taken(text) => put_all(out, text).map(|()| 0),
        Said::Refused(line) => put_all(log, line).map(|()| 4),
        Said::TooLong => put_all(log, TOO_LONG).map(|()| 4),
    }
}
