//! Words, and what they ask for.
use command_words::{Asked, Command, Mode, WordsFault, read_words, top_identifier};
use sim_base::Name;
use std::alloc::Global;
use std::test::Fail;

/// The words of a row, parted by one space; an empty row has none.
fn words_of(alloc: Global, row: &str) -> Result<Vec<String>, Fail> {
    let mut words = Vec::new(alloc);
    for word in row.split_whitespace() {
        words.push(String::from_str(alloc, word)?)?;
    }
    Ok(words)
}

fn push_name(text: &mut Vec<u8>, name: &Option<Name>) -> Result<(), Fail> {
    let Some(name) = name else {
        text.extend_from_slice(b" -")?;
        return Ok(());
    };
    text.extend_from_slice(b" [")?;
    text.extend_from_slice(name.as_bytes())?;
    text.push(b']')?;
    Ok(())
}

/// The mode, the number and the names of the design, the stimulus and the top, each in brackets or `-`.
fn shown(alloc: Global, command: &Command) -> Result<Vec<u8>, Fail> {
    let number = command.number;
    let mode = match command.mode {
        Mode::Trace => "trace",
        Mode::Solo => "solo",
        Mode::Demo => "demo",
    };
    let mut text = format!(in alloc; "{mode} {number}")?.into_bytes();
    push_name(&mut text, &command.design)?;
    push_name(&mut text, &command.stimulus)?;
    push_name(&mut text, &command.top)?;
    Ok(text)
}

fn answer(alloc: Global, row: &str) -> Result<Vec<u8>, Fail> {
    let words = words_of(alloc, row)?;
    let text = match read_words(alloc, words.as_slice()) {
        Ok(Asked::Command(command)) => return shown(alloc, &command),
        Ok(Asked::Help) => "help",
        Ok(Asked::Version) => "version",
        Err(WordsFault::Usage) => "usage",
        Err(WordsFault::NoMemory) => "no memory",
    };
    Ok(text.as_bytes().to_vec(alloc)?)
}

/// Each row's words, ` -> ` and what they ask for.
const FITTING: &str = "trace --design d --stimulus s -> trace 0 [d] [s] -
solo --stimulus=s --design=d -> solo 0 [d] [s] -
--top t trace --design d --stimulus s -> trace 0 [d] [s] [t]
trace --design= --stimulus s --top= -> trace 0 [] [s] []
solo --design d --stimulus s --top=-x -> solo 0 [d] [s] [-x]
demo 1 -> demo 1 - - -
demo 0001000 -> demo 1000 - - -
-- demo 7 -> demo 7 - - -
--help -> help
--version -> version";

/// Words that do not fit, a row each.
const OTHERS: &str = "
trace
Trace --design d --stimulus s
trace --design d
solo --stimulus s
trace --design d --stimulus s --top -x
trace --design d --design d --stimulus s
trace --des d --stimulus s
trace 7 --design d --stimulus s
solo --design d --stimulus s --spool f
serve --design d --stimulus s
replay --design d --spool f
demo
demo 0
demo 1001
demo 00000001
demo +5
demo 5 6
demo 5 --design d
trace --help
--help --version";

#[test]
fn words_that_fit_ask_for_what_they_say(rt: HostRuntime) -> Result<(), Fail> {
    for row in FITTING.lines() {
        let (words, want) = row.split_once(" -> ").unwrap_or((row, ""));
        let got = answer(rt.alloc(), words)?;
        assert_eq!(rt; got.as_slice(), want.as_bytes(), "of {words}");
    }
    Ok(())
}

#[test]
fn other_words_do_not_fit(rt: HostRuntime) -> Result<(), Fail> {
    for words in OTHERS.lines() {
        let got = answer(rt.alloc(), words)?;
        assert_eq!(rt; got.as_slice(), "usage".as_bytes(), "of {words}");
    }
    Ok(())
}

#[test]
fn a_top_is_meant_by_its_identifier(rt: HostRuntime) -> Result<(), Fail> {
    for row in r"counter \counter
$paramod $paramod
$ \$
\x \\x"
        .lines()
    {
        let (name, want) = row.split_once(" ").unwrap_or((row, ""));
        let name = Name::copy_of(rt.alloc(), name.as_bytes())?;
        let got = top_identifier(rt.alloc(), &name)?;
        assert_eq!(rt; got.as_bytes(), want.as_bytes());
    }
    Ok(())
}
