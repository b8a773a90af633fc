//! The reading of the words.
ghost use Rattle.std.specs.Prelude.{◌≡◌, ◌≢◌, None, Some, IfOk, IsErrOf, map, option_map, string_bytes};
ghost use Rattle.clap.specs.Words.{first_of, found_of, kind_of, rows_of};
ghost use Rattle.command_words.specs.Asked as spec;

use crate::command::{Asked, Command};
use crate::fault::WordsFault;
use crate::line::matched;
use crate::modes::{ModeLine, line_named};
use clap::error::ErrorKind;
use clap::{ArgMatches, Error};
use sim_base::{Name, NoMemory, number_in_digits};
use std::alloc::Global;

/// Where clients are waited for, where no word says it.
const LISTEN: &[u8] = b"127.0.0.1:9000";

#[tactic(auto, using(crate::proofs::Steps::first_value_rows))]
fn value<'a>(matches: &ArgMatches<'a>, id: &str) -> Option<&'a str>
    ensures { option_map (λ s. s.now) result ≡ first_of id.now (rows_of (found_of matches.now)) }
{
    matches.get_str(id)
}

#[tactic(auto, using(crate::proofs::Steps::same_presence))]
fn is_given(matches: &ArgMatches, id: &str) -> bool
    ensures { result ≡ spec.is_given id.now (rows_of (found_of matches.now)) }
{
    value(matches, id).is_some()
}

/// The number of 1 to 7 digits that is from 1 to 1000.
fn number_of(text: &str) -> Option<u32>
    ensures { result ≡ spec.number_of text.now }
{
    let number = number_in_digits(text.as_bytes(), 7)?;
    if 1 <= number && number <= 1000 {
        Some(number as u32)
    } else {
        None
    }
}

fn number_given(text: Option<&str>) -> Option<u32>
    ensures { result ≡ spec.number_given (option_map (λ t. t.now) text.entry) }
{
    match text {
        Some(text) => number_of(text),
        None => Some(0),
    }
}

fn name_given(alloc: Global, text: Option<&str>) -> Result<Option<Name>, NoMemory>
    ensures { IfOk result (λ name. name ≡ option_map (λ t. t.now) text.entry) }
{
    match text {
        Some(text) => Ok(Some(Name::copy_of(alloc, text.as_bytes())?)),
        None => Ok(None),
    }
}

/// Whether all is given that the mode needs, and nothing that it may not have.
fn is_met(line: ModeLine, matches: &ArgMatches) -> bool
    ensures { result ≡ spec.is_met line (rows_of (found_of matches.now)) }
{
    line.number.meets(is_given(matches, "NUMBER"))
        && line.design.meets(is_given(matches, "design"))
        && line.stimulus.meets(is_given(matches, "stimulus"))
        && line.top.meets(is_given(matches, "top"))
}

fn command_of(
    alloc: Global,
    line: ModeLine,
    matches: &ArgMatches,
    number: u32,
) -> Result<Command, NoMemory>
    ensures { IfOk result (λ c. c ≡ spec.command_of line.mode (rows_of (found_of matches.now)) number) }
{
    Ok(Command {
        mode: line.mode,
        number,
        design: name_given(alloc, value(matches, "design"))?,
        stimulus: name_given(alloc, value(matches, "stimulus"))?,
        top: name_given(alloc, value(matches, "top"))?,
        spool: None,
        listen: Name::copy_of(alloc, LISTEN)?,
        clients: 1,
    })
}

fn command_on(alloc: Global, line: ModeLine, matches: &ArgMatches) -> Result<Command, WordsFault>
    ensures command { IfOk result (λ c. spec.command_on (Some line) (rows_of (found_of matches.now)) ≡ Some c) }
    ensures usage { IsErrOf result WordsFault.Usage → spec.command_on (Some line) (rows_of (found_of matches.now)) ≡ None }
{
    if !is_met(line, matches) {
        return Err(WordsFault::Usage);
    }
    match number_given(value(matches, "NUMBER")) {
        Some(number) => Ok(command_of(alloc, line, matches, number)?),
        None => Err(WordsFault::Usage),
    }
}

fn mode_line(matches: &ArgMatches) -> Option<ModeLine>
    ensures { result ≡ spec.mode_line (rows_of (found_of matches.now)) }
{
    match value(matches, "MODE") {
        Some(mode) => line_named(mode),
        None => None,
    }
}

fn command_in(alloc: Global, matches: &ArgMatches) -> Result<Command, WordsFault>
    ensures command { IfOk result (λ c. spec.command_in (rows_of (found_of matches.now)) ≡ Some c) }
    ensures usage { IsErrOf result WordsFault.Usage → spec.command_in (rows_of (found_of matches.now)) ≡ None }
{
    match mode_line(matches) {
        Some(line) => command_on(alloc, line, matches),
        None => Err(WordsFault::Usage),
    }
}

/// Any fault of the words but want of memory says that they do not fit.
fn fault_of(error: &Error) -> WordsFault
    ensures { result ≡ WordsFault.Usage → kind_of error.now ≢ ErrorKind.OutOfMemory }
{
    match error.kind() {
        ErrorKind::OutOfMemory => WordsFault::NoMemory,
        _ => WordsFault::Usage,
    }
}

fn command_asked(alloc: Global, words: &[String]) -> Result<Command, WordsFault>
    ensures command { IfOk result (λ c. spec.command_asked (map string_bytes words.now) ≡ Some c) }
    ensures usage { IsErrOf result WordsFault.Usage → spec.command_asked (map string_bytes words.now) ≡ None }
{
    match matched(alloc, words) {
        Ok(matches) => command_in(alloc, &matches),
        Err(error) => Err(fault_of(&error)),
    }
}

fn is_alone(word: &str, words: &[String]) -> bool
    ensures { result ≡ spec.is_alone word.now (map string_bytes words.now) }
{
    match words {
        [only] => only.as_str() == word,
        _ => false,
    }
}

/// What the words after the program's name ask for.
///
/// `--help` alone and `--version` alone ask for these texts. Other words ask for a run where `clap` takes them as a mode, a
/// number and the options `--design`, `--stimulus` and `--top`, each with one value, and the mode has all that it needs and
/// nothing that it may not have: `trace` and `solo` need a design and a stimulus and may have a top, and `demo` needs a number
/// from 1 to 1000, of at most 7 digits.
pub fn read_words(alloc: Global, words: &[String]) -> Result<Asked, WordsFault>
    ensures asked { IfOk result (λ a. spec.asked_by (map string_bytes words.now) ≡ Some a) }
    ensures usage { IsErrOf result WordsFault.Usage → spec.asked_by (map string_bytes words.now) ≡ None }
{
    if is_alone("--help", words) {
        return Ok(Asked::Help);
    }
    if is_alone("--version", words) {
        return Ok(Asked::Version);
    }
    let command = command_asked(alloc, words)?;
    Ok(Asked::Command(command))
}
