//! One client over memory: what is said to it and written to the log, however its bytes are cut and whatever fails.
use crate::cxxsim;
use outside::{Bytes, Gathered, Shelves};
use sim_base::Name;
use std::alloc::Global;
use std::process::Abort;
use std::test::Fail;
use test_designs::plays::{Play, SHORT, TO_THE_END, UNSETTLED, UNTIL_15};
use test_designs::replies::NO_JSON;

const WORDS: [&str; 5] = ["solo", "--design", "design", "--stimulus", "stimulus"];

/// How many bytes go through a call at most, and the number of the call that fails; 0 is none.
#[derive(Clone, Copy)]
struct Calls {
    most: usize,
    failing: u64,
}

const WHOLE: Calls = Calls {
    most: usize::MAX,
    failing: 0,
};

/// How the input gives, and how output and log take.
#[derive(Clone, Copy)]
struct Cut {
    input: Calls,
    out: Calls,
    log: Calls,
}

const UNCUT: Cut = Cut {
    input: WHOLE,
    out: WHOLE,
    log: WHOLE,
};

/// How a call ended, and what it wrote.
#[derive(Drop)]
struct Ended {
    status: u8,
    out: Gathered,
    log: Gathered,
}

fn shelf_of(alloc: Global, play: &Play) -> Result<Shelves, Fail> {
    let mut shelf = Shelves::new(alloc);
    let design = play.design.as_bytes().to_vec(alloc)?;
    shelf.add(Name::copy_of(alloc, b"design")?, design)?;
    let stimulus = play.stimulus.as_bytes().to_vec(alloc)?;
    shelf.add(Name::copy_of(alloc, b"stimulus")?, stimulus)?;
    Ok(shelf)
}

fn words_of(alloc: Global) -> Result<Vec<String>, Fail> {
    let mut words = Vec::new(alloc);
    for word in &WORDS {
        words.push(String::from_str(alloc, word)?)?;
    }
    Ok(words)
}

/// A sink that takes so.
fn sink(alloc: Global, calls: Calls) -> Result<Gathered, Fail> {
    let failing = vec![in alloc; calls.failing]?;
    Ok(
        Gathered::new(alloc)
            .taking(calls.most.max(1))
            .failing(failing),
    )
}

/// A source that gives these bytes so.
fn source(alloc: Global, bytes: &[u8], calls: Calls) -> Result<Bytes, Fail> {
    let failing = vec![in alloc; calls.failing]?;
    Ok(
        Bytes::new(alloc, bytes.to_vec(alloc)?)
            .giving(calls.most.max(1))
            .failing(failing),
    )
}

/// Serves the client of a play.
fn served<R: AllocGlobal>(rt: &R, play: &Play, cut: Cut) -> Result<Ended, Fail> {
    let alloc = rt.alloc();
    let words = words_of(alloc)?;
    let mut shelf = shelf_of(alloc, play)?;
    let mut input = source(alloc, &play.sent, cut.input)?;
    let mut out = sink(alloc, cut.out)?;
    let mut log = sink(alloc, cut.log)?;
    let status = cxxsim(rt, &words, &mut shelf, &mut input, &mut out, &mut log);
    Ok(Ended { status, out, log })
}

/// Nothing fails: the play comes, whatever the pieces are in which bytes are given and taken.
fn check_pieces<R: AllocGlobal + Abort>(rt: &R, text: &str) -> Result<(), Fail> {
    let play = Play::read(rt.alloc(), text)?;
    for most in 1..=40 {
        let calls = Calls { most, failing: 0 };
        let cut = Cut {
            input: calls,
            out: calls,
            log: calls,
        };
        let ended = served(rt, &play, cut)?;
        assert_eq!(rt; ended.status, play.status, "pieces of {most}: {text}");
        assert!(rt;
            ended.out.bytes() == play.said.as_slice(),
            "said, pieces of {most}: {text}"
        );
        assert!(rt;
            ended.log.bytes() == play.log.as_slice(),
            "log, pieces of {most}: {text}"
        );
    }
    Ok(())
}

/// The log of a session that a fault broke off.
fn is_cut_off(log: &[u8], whole: &[u8]) -> bool {
    match log.strip_suffix(b"close 0 fault\nend\n") {
        Some(begun) => whole.starts_with(begun),
        None => false,
    }
}

/// The output is the beginning of what is said, and the log is broken off.
fn is_broken_off(ended: &Ended, play: &Play, status: u8) -> bool {
    ended.status == status
        && play.said.starts_with(ended.out.bytes())
        && is_cut_off(ended.log.bytes(), &play.log)
}

/// Each read of the input fails in turn.
fn check_reads<R: AllocGlobal + Abort>(rt: &R, text: &str) -> Result<(), Fail> {
    let play = Play::read(rt.alloc(), text)?;
    let last = play.sent.len() as u64 / 5 + 2;
    for failing in 1..last {
        let input = Calls { most: 5, failing };
        let ended = served(rt, &play, Cut { input, ..UNCUT })?;
        assert!(rt; is_broken_off(&ended, &play, 3), "read {failing}: {text}");
    }
    Ok(())
}

/// Each write to the output fails in turn.
fn check_writes<R: AllocGlobal + Abort>(rt: &R, text: &str) -> Result<(), Fail> {
    let play = Play::read(rt.alloc(), text)?;
    let writes = (play.said.len() as u64).div_ceil(64);
    for failing in 1..=writes {
        let out = Calls { most: 64, failing };
        let ended = served(rt, &play, Cut { out, ..UNCUT })?;
        assert!(rt; is_broken_off(&ended, &play, 5), "write {failing}: {text}");
    }
    Ok(())
}

/// Each write to the log fails in turn.
fn check_log<R: AllocGlobal + Abort>(rt: &R, text: &str) -> Result<(), Fail> {
    let play = Play::read(rt.alloc(), text)?;
    let writes = (play.log.len() as u64).div_ceil(8);
    for failing in 1..=writes {
        let log = Calls { most: 8, failing };
        let ended = served(rt, &play, Cut { log, ..UNCUT })?;
        assert_eq!(rt; ended.status, 5, "log {failing}: {text}");
        assert!(rt;
            ended.out.bytes() == play.said.as_slice(),
            "said, log {failing}: {text}"
        );
        assert!(rt;
            play.log.starts_with(ended.log.bytes()),
            "log {failing}: {text}"
        );
    }
    Ok(())
}

#[test]
fn a_client_is_answered_however_its_bytes_are_cut(rt: HostRuntime) -> Result<(), Fail> {
    for text in SHORT.split("\n\n") {
        check_pieces(&rt, text)?;
    }
    for text in [UNTIL_15, TO_THE_END, UNSETTLED] {
        check_pieces(&rt, text)?;
    }
    Ok(())
}

#[test]
fn a_call_that_fails_ends_the_session(rt: HostRuntime) -> Result<(), Fail> {
    for text in [UNTIL_15, TO_THE_END, UNSETTLED] {
        check_reads(&rt, text)?;
        check_writes(&rt, text)?;
        check_log(&rt, text)?;
    }
    Ok(())
}

#[test]
fn the_first_cause_decides(rt: HostRuntime) -> Result<(), Fail> {
    let play = Play::read(rt.alloc(), UNSETTLED)?;
    let fails = Calls {
        most: 8,
        failing: 1,
    };
    let log = Cut {
        log: fails,
        ..UNCUT
    };
    let out = Cut { out: fails, ..log };
    let input = Cut {
        input: fails,
        ..log
    };
    assert_eq!(rt; served(&rt, &play, input)?.status, 3);
    assert_eq!(rt; served(&rt, &play, out)?.status, 5);
    assert_eq!(rt; served(&rt, &play, log)?.status, 5);
    assert_eq!(rt; served(&rt, &play, UNCUT)?.status, 6);
    Ok(())
}

/// The longest packet has so many bytes.
const LONGEST: usize = 1_048_576;

/// So many blanks as a packet.
fn push_blanks(bytes: &mut Vec<u8>, count: usize) -> Result<(), Fail> {
    bytes.resize(bytes.len().saturating_add(count), b' ')?;
    bytes.push(0)?;
    Ok(())
}

const TOO_LONG: &str = "counter six 0
< no_json
< too_long
record 1
open 0
packet 0
close 0 too_long
end";

#[test]
fn a_part_that_is_too_long_is_told(rt: HostRuntime) -> Result<(), Fail> {
    let mut play = Play::read(rt.alloc(), TOO_LONG)?;
    push_blanks(&mut play.sent, LONGEST)?;
    push_blanks(&mut play.sent, LONGEST + 1)?;
    let ended = served(&rt, &play, UNCUT)?;
    assert_eq!(rt; ended.status, 0);
    assert!(rt; ended.out.bytes() == play.said.as_slice());
    assert!(rt; ended.log.bytes() == play.log.as_slice());
    Ok(())
}

#[test]
fn more_bytes_than_are_read_end_the_session(rt: HostRuntime) -> Result<(), Fail> {
    let mut play = Play::read(rt.alloc(), "counter six 9")?;
    for _packet in 0..16 {
        push_blanks(&mut play.sent, LONGEST - 1)?;
        play.said.extend_from_slice(NO_JSON.as_bytes())?;
        play.said.push(0)?;
    }
    assert_eq!(rt; served(&rt, &play, UNCUT)?.status, 0);
    play.sent.push(b' ')?;
    let ended = served(&rt, &play, UNCUT)?;
    assert_eq!(rt; ended.status, 9);
    assert!(rt; ended.out.bytes() == play.said.as_slice());
    let log = ended.log.bytes();
    assert!(rt; log.ends_with(b"packet 0\nclose 0 limit\nend\n"));
    Ok(())
}
