//! The line that `clap` reads: a mode, a number and three options.
ghost use Rattle.std.specs.Prelude.{◌≡◌, false, map, string_bytes, IfOk};
ghost use Rattle.clap.specs.Words.{FailsBy, app_of, fault_of, found_of, matches_of, rows_of, rule_of, with_rule};
ghost use Rattle.command_words.specs.Line.{bare, line, option, positional};

use clap::{Arg, ArgMatches, Command, Error};
use std::alloc::{AllocError, Global};

fn option<'a>(alloc: Global, name: &'a str) -> Arg<'a>
    ensures rule { rule_of result ≡ option name.entry.now }
    ensures local { result.global ≡ false }
{
    Arg::new(alloc, name).long(name)
}

fn positional<'a>(alloc: Global, name: &'a str, required: bool) -> Arg<'a>
    ensures rule { rule_of result ≡ positional name.entry.now required }
    ensures local { result.global ≡ false }
{
    Arg::new(alloc, name).required(required)
}

fn bare<'a>(alloc: Global) -> Command<'a>
    ensures { app_of result ≡ bare }
{
    Command::new(alloc, "cxxsim")
        .no_binary_name(true)
        .disable_help_flag(true)
}

fn with_option<'a>(
    alloc: Global,
    command: Command<'a>,
    name: &'a str,
) -> Result<Command<'a>, AllocError>
    ensures { IfOk result (λ r. app_of r ≡ with_rule (app_of command.entry) (option name.entry.now)) }
{
    command.arg(option(alloc, name))
}

fn with_positional<'a>(
    alloc: Global,
    command: Command<'a>,
    name: &'a str,
    required: bool,
) -> Result<Command<'a>, AllocError>
    ensures { IfOk result (λ r. app_of r ≡ with_rule (app_of command.entry) (positional name.entry.now required)) }
{
    command.arg(positional(alloc, name, required))
}

fn line<'a>(alloc: Global) -> Result<Command<'a>, AllocError>
    ensures { IfOk result (λ r. app_of r ≡ line) }
{
    let command = with_positional(alloc, bare(alloc), "MODE", true)?;
    let command = with_positional(alloc, command, "NUMBER", false)?;
    let command = with_option(alloc, command, "design")?;
    let command = with_option(alloc, command, "stimulus")?;
    with_option(alloc, command, "top")
}

/// What the words give of the line, where they fit it.
pub(crate) fn matched<'a>(alloc: Global, words: &'a [String]) -> Result<ArgMatches<'a>, Error>
    ensures fits { FailsBy (fault_of line (map string_bytes words.now)) result }
    ensures matches { IfOk result (λ m. rows_of (found_of m) ≡ matches_of line (map string_bytes words.now)) }
{
    line(alloc)?.try_get_matches_from(words)
}
