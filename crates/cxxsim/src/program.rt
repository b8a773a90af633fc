//! The whole program, over any shelf, any input and any sinks.
ghost use Rattle.std.specs.Prelude.{◌≡◌, ◌≤◌, ℕ, IfOk, IsSome, List, None, OnErr, Some, map, string_bytes};
ghost use Rattle.flat_design.specs.Flat.{IsFlat};
ghost use Rattle.flat_run.specs.Run.{AreSamples};
ghost use Rattle.cxxsim.specs.Answers.{IsAnswered, file_limit, task};
ghost use Rattle.cxxsim.specs.Outcome.{WentBy};
ghost use Rattle.cxxsim.specs.Outside.{IsLater, IsQuiet, outside_of};
ghost use Rattle.cxxsim.specs.Solo.{IsSentAtMost, IsSessionOf};
ghost use Rattle.cxxsim.specs.Words.{command_of};

use crate::command::{Command, Mode};
use crate::loading::{Loaded, load};
use crate::outcome::{Outcome, if_logged};
use crate::refusal::LoadFault;
use crate::session::{Closed, converse, put_log};
use crate::tracing::write_trace;
use crate::words::{WordsFault, read_words};
use flat_run::FlatRun;
use outside::{Shelf, Sink, Source};
use sim_base::{Name, NoMemory};
use std::alloc::Global;

/// Design and stimulus files have at most so many bytes.
const FILE_LIMIT: u64 = 536_870_912;

/// The line that the log gets where the words do not fit.
const USAGE: &[u8] = b"usage: cxxsim trace|solo|serve|replay|demo [NUMBER] [OPTIONS]\n";

/// The name that a word gave.
fn given(name: &Option<Name>) -> &Name
    requires { IsSome name.now }
    ensures { name.now ≡ Some result.now }
{
    match name {
        Some(name) => name,
        None => unreachable!(),
    }
}

/// Serves one client of a run, and writes the log.
fn serve_one<I: Source, O: Sink, G: Sink>(
    alloc: Global,
    loaded: Loaded,
    input: &mut I,
    out: &mut O,
    log: &mut G,
) -> Result<Closed, NoMemory>
    requires flat { IsFlat loaded.circuit }
    requires samples { AreSamples loaded.circuit loaded.stimulus }
    ensures session { IfOk result (IsSessionOf (record { circuit = loaded.circuit; block = loaded.stimulus }) (I.seen input.old) (I.seen input.new) (O.seen out.old) (O.seen out.new) (G.seen log.old) (G.seen log.new)) }
    ensures quiet { OnErr result (IsQuiet (G.seen log.old) (G.seen log.new)) }
    ensures wanting { OnErr result (IsSentAtMost (record { circuit = loaded.circuit; block = loaded.stimulus }) (I.seen input.old) (I.seen input.new) (O.seen out.old) (O.seen out.new)) }
    ensures input_later { (I.seen input.old).faults ≤ (I.seen input.new).faults }
    ensures out_later { (O.seen out.old).faults ≤ (O.seen out.new).faults }
    ensures log_later { (G.seen log.old).faults ≤ (G.seen log.new).faults }
{
    let run = FlatRun::new(alloc, loaded.circuit, loaded.stimulus)?;
    converse(alloc, run, input, out, log)
}

/// Does what a command asks for, with files of at most so many bytes.
pub(crate) fn run<S: Shelf, I: Source, O: Sink, G: Sink>(
    alloc: Global,
    command: &Command,
    limit: u64,
    shelf: &mut S,
    input: &mut I,
    out: &mut O,
    log: &mut G,
) -> Outcome
    requires design { IsSome command.now.design }
    requires stimulus { IsSome command.now.stimulus }
    ensures went { WentBy (task limit (outside_of (S.seen shelf.old) (I.seen input.old) (O.seen out.old) (G.seen log.old)) (outside_of (S.seen shelf.new) (I.seen input.new) (O.seen out.new) (G.seen log.new)) command.now) command.now.mode result }
    ensures later { IsLater (outside_of (S.seen shelf.old) (I.seen input.old) (O.seen out.old) (G.seen log.old)) (outside_of (S.seen shelf.new) (I.seen input.new) (O.seen out.new) (G.seen log.new)) }
    ensures files { (other : List ℕ) → (S.seen shelf.new).file other ≡ (S.seen shelf.old).file other }
    ensures writes { (S.seen shelf.new).write_faults ≡ (S.seen shelf.old).write_faults }
{
    let design = given(&command.design);
    let stimulus = given(&command.stimulus);
    match load(alloc, design, stimulus, limit, shelf) {
        Ok(loaded) => match command.mode {
            Mode::Trace => {
                Outcome::Traced(write_trace(alloc, &loaded.circuit, &loaded.stimulus, out))
            }
            Mode::Solo => Outcome::Served(serve_one(alloc, loaded, input, out, log)),
        },
        Err(LoadFault::Read) => Outcome::Unread,
        Err(LoadFault::Refused(refusal)) => {
            Outcome::Refused(refusal, put_log(log, refusal.line()))
        }
        Err(LoadFault::NoMemory) => Outcome::NoMemory,
    }
}

/// Does what a command on two files asks for, over the files of a shelf, the input, the output and the log,
/// and answers the status of `cxxsim`; 2 does not come. No top module and no recording can be named yet. The
/// design's file is read first, then that of the stimulus, then the session begins; the first cause decides.
pub fn solo<S: Shelf, I: Source, O: Sink, G: Sink>(
    alloc: Global,
    command: &Command,
    shelf: &mut S,
    input: &mut I,
    out: &mut O,
    log: &mut G,
) -> u8
    requires design { IsSome command.now.design }
    requires stimulus { IsSome command.now.stimulus }
    requires top { command.now.top ≡ None }
    requires spool { command.now.spool ≡ None }
    ensures answered { IsAnswered file_limit (Some command.now) (outside_of (S.seen shelf.old) (I.seen input.old) (O.seen out.old) (G.seen log.old)) (outside_of (S.seen shelf.new) (I.seen input.new) (O.seen out.new) (G.seen log.new)) result }
    ensures later { IsLater (outside_of (S.seen shelf.old) (I.seen input.old) (O.seen out.old) (G.seen log.old)) (outside_of (S.seen shelf.new) (I.seen input.new) (O.seen out.new) (G.seen log.new)) }
    ensures files { (other : List ℕ) → (S.seen shelf.new).file other ≡ (S.seen shelf.old).file other }
    ensures writes { (S.seen shelf.new).write_faults ≡ (S.seen shelf.old).write_faults }
{
    run(alloc, command, FILE_LIMIT, shelf, input, out, log).status()
}

/// Runs the program with these words (those after the program's name), over the files of a shelf, the input,
/// the output and the log, and answers the status that it ends with:
///
/// - 0: the trace was printed whole, or the client was served and the log written, and every sample settled;
/// - 2: the words do not fit, and the log has the usage line;
/// - 3: a file could not be read, or the input of a session, and the count of such faults rose;
/// - 4: a file is refused, and the log has a line that says why;
/// - 5: the output failed, or the log, and that sink's count of faults rose;
/// - 6: as 0, up to the first sample that does not settle;
/// - 8: want of memory;
/// - 9: the client of a session sent more than 16,777,216 bytes.
///
/// The words are read first, then the design's file, then that of the stimulus, then the session begins; the
/// first cause decides. After a session the first of 3, 9, 5, 6 and 0 that holds is the status.
pub fn cxxsim<R: AllocGlobal, S: Shelf, I: Source, O: Sink, G: Sink>(
    rt: &R,
    words: &[String],
    shelf: &mut S,
    input: &mut I,
    out: &mut O,
    log: &mut G,
) -> u8
    ensures answered { IsAnswered file_limit (command_of (map string_bytes words.now)) (outside_of (S.seen shelf.old) (I.seen input.old) (O.seen out.old) (G.seen log.old)) (outside_of (S.seen shelf.new) (I.seen input.new) (O.seen out.new) (G.seen log.new)) result }
    ensures later { IsLater (outside_of (S.seen shelf.old) (I.seen input.old) (O.seen out.old) (G.seen log.old)) (outside_of (S.seen shelf.new) (I.seen input.new) (O.seen out.new) (G.seen log.new)) }
    ensures files { (other : List ℕ) → (S.seen shelf.new).file other ≡ (S.seen shelf.old).file other }
    ensures writes { (S.seen shelf.new).write_faults ≡ (S.seen shelf.old).write_faults }
{
    let alloc = rt.alloc();
    match read_words(alloc, words) {
        Ok(command) => run(alloc, &command, FILE_LIMIT, shelf, input, out, log).status(),
        Err(WordsFault::Usage) => if_logged(put_log(log, USAGE), 2),
        Err(WordsFault::NoMemory) => 8,
    }
}
