//! The words of the command line.
ghost use Rattle.std.specs.Prelude.{◌≡◌, None, Some, IfOk, IsErrOf, IsSome, map, string_bytes};
ghost use Rattle.cxxsim.specs.Words.{command_of, mode_named, on_files};
ghost use Rattle.cxxsim.specs.declared.words.WordsFault.TheVariants as faults;

use crate::command::{Command, Mode};
use sim_base::{Name, NoMemory};
use std::alloc::Global;

/// Where clients are waited for, where no word says it.
const LISTEN: &[u8] = b"127.0.0.1:9000";

/// Why the words give no command.
#[derive(Clone, Copy, Debug, PartialEq, Eq)]
pub enum WordsFault {
    /// They do not fit.
    Usage,
    NoMemory,
}

impl From<NoMemory> for WordsFault {
    ghost from_gives = { λ _ e. e ≡ faults.NoMemory };

    fn from(_cause: NoMemory) -> WordsFault {
        WordsFault::NoMemory
    }
}

/// The mode of this name.
fn mode_named(word: &str) -> Option<Mode>
    ensures { result ≡ mode_named word.now }
{
    if word == "trace" {
        Some(Mode::Trace)
    } else if word == "solo" {
        Some(Mode::Solo)
    } else {
        None
    }
}

/// The command of a mode on two files.
fn command_on(alloc: Global, mode: Mode, design: &str, stimulus: &str) -> Result<Command, NoMemory>
    ensures { IfOk result (λ c. c ≡ on_files mode design.now stimulus.now) }
{
    Ok(Command {
        mode,
        number: 0,
        design: Some(Name::copy_of(alloc, design.as_bytes())?),
        stimulus: Some(Name::copy_of(alloc, stimulus.as_bytes())?),
        top: None,
        spool: None,
        listen: Name::copy_of(alloc, LISTEN)?,
        clients: 1,
    })
}

/// The command of the words after the program's name, which are a mode, `--design`, a file, `--stimulus` and a
/// file.
pub fn read_words(alloc: Global, words: &[String]) -> Result<Command, WordsFault>
    ensures command { IfOk result (λ c. command_of (map string_bytes words.now) ≡ Some c) }
    ensures usage { IsErrOf result WordsFault.Usage → command_of (map string_bytes words.now) ≡ None }
    ensures no_memory { IsErrOf result WordsFault.NoMemory → IsSome (command_of (map string_bytes words.now)) }
{
    match words {
        [mode, design, design_name, stimulus, stimulus_name] => {
            if design.as_str() != "--design" || stimulus.as_str() != "--stimulus" {
                return Err(WordsFault::Usage);
            }
            match mode_named(mode.as_str()) {
                Some(mode) => Ok(command_on(
                    alloc,
                    mode,
                    design_name.as_str(),
                    stimulus_name.as_str(),
                )?),
                None => Err(WordsFault::Usage),
            }
        }
        _ => Err(WordsFault::Usage),
    }
}
