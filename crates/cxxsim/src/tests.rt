//! The program over files and sinks in memory.
ghost use Rattle.std.specs.Prelude.{IfOk, IsSome};

use crate::command::{Command, Mode};
use crate::cxxsim;
use crate::outcome::Outcome;
use crate::program::run;
use outside::{Bytes, Gathered, Shelves};
use sim_base::{Name, NoMemory};
use std::alloc::Global;
use std::str::from_utf8;
use std::test::Fail;
use test_designs::designs::{COUNTER, COUNTER_AS_WRITTEN, RING};
use test_designs::stimuli::SIX;

const USAGE: &str = "usage: cxxsim trace|solo|serve|replay|demo [NUMBER] [OPTIONS]\n";

const WORDS: &str = "trace --design design --stimulus stimulus";

/// The numbers of the calls that fail; 0 is none.
#[derive(Clone, Copy)]
struct Failing {
    read: u64,
    out: u64,
    log: u64,
}

const NONE: Failing = Failing {
    read: 0,
    out: 0,
    log: 0,
};

/// How a call ended, and what it printed.
#[derive(Drop)]
struct Ended {
    status: u8,
    out: Gathered,
    log: Gathered,
}

impl Ended {
    fn is(&self, status: u8, out: &str, log: &str) -> bool {
        self.status == status
            && self.out.bytes() == out.as_bytes()
            && self.log.bytes() == log.as_bytes()
    }
}

/// A text with a bar for each line's end.
fn barred(alloc: Global, bytes: &[u8]) -> Result<String, Fail> {
    let mut text = String::new(alloc);
    for line in from_utf8(bytes)?.split_inclusive('\n') {
        match line.strip_suffix('\n') {
            Some(line) => write!(text, "{line}|")?,
            None => text.push_str(line)?,
        }
    }
    Ok(text)
}

fn number(word: Option<&str>) -> u64 {
    word.and_then(|word| word.parse().ok()).unwrap_or(u64::MAX)
}

const COUNTED: &str = "items 2
1 clk
8 q
0.000000000000000 0 00
0.000000005000000 1 01
0.000000010000000 0 01
0.000000015000000 1 02
0.000000020000000 0 02
0.000000025000000 1 03
end 6
";

/// The counter with a subtractor, which is no part of the first form of designs.
fn counter_by_sub(alloc: Global) -> Result<String, Fail> {
    let (front, behind) = COUNTER.split_once("$add").ok_or("no adder")?;
    Ok(format!(in alloc; "{front}$sub{behind}")?)
}

fn shelf_of(alloc: Global, design: &str, stimulus: &str, failing: u64) -> Result<Shelves, Fail> {
    let mut shelf = Shelves::new(alloc).failing_reads(vec![in alloc; failing]?);
    let design = design.as_bytes().to_vec(alloc)?;
    shelf.add(Name::copy_of(alloc, b"design")?, design)?;
    let stimulus = stimulus.as_bytes().to_vec(alloc)?;
    shelf.add(Name::copy_of(alloc, b"stimulus")?, stimulus)?;
    Ok(shelf)
}

/// Calls the program over these two files. Its sinks take at most 7 bytes at a call.
fn called<R: AllocGlobal>(
    rt: &R,
    words: &str,
    design: &str,
    stimulus: &str,
    failing: Failing,
) -> Result<Ended, Fail> {
    let alloc = rt.alloc();
    let mut given = Vec::new(alloc);
    for word in words.split_whitespace() {
        given.push(String::from_str(alloc, word)?)?;
    }
    let mut shelf = shelf_of(alloc, design, stimulus, failing.read)?;
    let mut out = Gathered::new(alloc)
        .taking(7)
        .failing(vec![in alloc; failing.out]?);
    let mut log = Gathered::new(alloc)
        .taking(7)
        .failing(vec![in alloc; failing.log]?);
    let mut input = Bytes::new(alloc, Vec::new(alloc));
    let status = cxxsim(rt, &given, &mut shelf, &mut input, &mut out, &mut log);
    Ok(Ended { status, out, log })
}

/// What is shown, and below it a design, a stimulus and the trace.
const TRACES: &str = r"No inputs, and an output that nothing drives.
---
module \m
wire width 3 output 1 \y
end
---
stimulus 0
inputs
block 1 1.0
0.0
end
---
items 1
3 y
0.000000000000000 0
end 1
===
The first sample is a rising edge, since all inputs were 0 before it.
---
module \m
wire input 1 \clk
wire output 2 \q
cell $dff $r\q
parameter \CLK_POLARITY 1'1
parameter \WIDTH 1
connect \CLK \clk
connect \D 1'1
connect \Q \q
end
end
---
stimulus 0
inputs clk
block 1 1.0
0.0 1
end
---
items 2
1 clk
1 q
0.000000000000000 1 1
end 1
===
Two registers, one behind the other, move together at an edge.
---
module \m
wire input 1 \clk
wire input 2 \d
wire output 3 \q1
wire output 4 \q2
cell $dff $r\q1
parameter \CLK_POLARITY 1'1
parameter \WIDTH 1
connect \CLK \clk
connect \D \d
connect \Q \q1
end
cell $dff $r\q2
parameter \CLK_POLARITY 1'1
parameter \WIDTH 1
connect \CLK \clk
connect \D \q1
connect \Q \q2
end
end
---
stimulus 0
inputs clk d
block 2 0.00000001
0.0 0 1
0.000000005 1 1
end
---
items 4
1 clk
1 d
1 q1
1 q2
0.000000000000000 0 1 0 0
0.000000005000000 1 1 1 0
0.000000010000000 0 1 1 0
0.000000015000000 1 1 1 1
end 4
===
x takes d at clk, g its inverse at clk, and y takes x where g rises, in a later round.
---
module \m
wire input 1 \clk
wire input 2 \d
wire \g
wire \x
wire \y
wire $n
cell $add $a$n
parameter \A_WIDTH 1
parameter \B_WIDTH 1
parameter \Y_WIDTH 1
connect \A \g
connect \B 1'1
connect \Y $n
end
cell $dff $r\x
parameter \CLK_POLARITY 1'1
parameter \WIDTH 1
connect \CLK \clk
connect \D \d
connect \Q \x
end
cell $dff $r\g
parameter \CLK_POLARITY 1'1
parameter \WIDTH 1
connect \CLK \clk
connect \D $n
connect \Q \g
end
cell $dff $r\y
parameter \CLK_POLARITY 1'1
parameter \WIDTH 1
connect \CLK \g
connect \D \x
connect \Q \y
end
end
---
stimulus 0
inputs clk d
block 1 1.0
0.0 0 1
0.5 1 1
end
---
items 5
1 clk
1 d
1 g
1 x
1 y
0.000000000000000 0 1 0 0 0
0.500000000000000 1 1 1 1 1
end 2
";

#[test]
fn a_design_under_a_stimulus_is_traced(rt: HostRuntime) -> Result<(), Fail> {
    for section in TRACES.split("===\n") {
        let mut parts = section.split("---\n");
        let shown = parts.next().ok_or("no title")?;
        let design = parts.next().ok_or("no design")?;
        let stimulus = parts.next().ok_or("no stimulus")?;
        let traced = parts.next().ok_or("no trace")?;
        let ended = called(&rt, WORDS, design, stimulus, NONE)?;
        assert!(rt; ended.is(0, traced, ""), "{shown}");
    }
    let ended = called(&rt, WORDS, COUNTER_AS_WRITTEN, SIX, NONE)?;
    assert!(rt; ended.is(0, COUNTED, ""));
    let stimulus = "stimulus 0\ninputs clk\nblock 2 1.0\n0.0 0\n0.5 1\nend\n";
    let ended = called(&rt, WORDS, RING, stimulus, NONE)?;
    let traced = "items 3\n1 b\n1 clk\n1 t\n0.000000000000000 0 0 0\nunsettled 1\n";
    assert!(rt; ended.is(6, traced, ""));
    Ok(())
}

const REFUSED_DESIGN: &str = "refused 60 NotBuilt design\n";

#[test]
fn what_is_not_of_the_form_is_refused(rt: HostRuntime) -> Result<(), Fail> {
    let by_sub = counter_by_sub(rt.alloc())?;
    let two_blanks = "stimulus 0\ninputs clk\nblock  3 0.00000001\n0.0 0\n0.000000005 1\nend\n";
    for (design, stimulus) in [(by_sub.as_str(), SIX), ("", SIX), (&by_sub, two_blanks)] {
        let ended = called(&rt, WORDS, design, stimulus, NONE)?;
        assert!(rt; ended.is(4, "", REFUSED_DESIGN), "{design}");
    }
    for stimulus in [two_blanks, ""] {
        let ended = called(&rt, WORDS, COUNTER, stimulus, NONE)?;
        assert!(rt;
            ended.is(4, "", "refused 60 NotBuilt stimulus\n"),
            "{stimulus}"
        );
    }
    Ok(())
}

/// Words that do not fit.
const OTHER_WORDS: &str = "trace --design design --stimulus
trace --design design --stimulus stimulus x
trace --desing design --stimulus stimulus
trace --design design --stimuli stimulus
trace --stimulus stimulus --design design
Trace --design design --stimulus stimulus
serve --design design --stimulus stimulus";

#[test]
fn other_words_get_the_usage_line(rt: HostRuntime) -> Result<(), Fail> {
    for words in OTHER_WORDS.lines() {
        let ended = called(&rt, words, COUNTER, SIX, NONE)?;
        assert!(rt; ended.is(2, "", USAGE), "{words}");
    }
    let ended = called(&rt, "", COUNTER, SIX, NONE)?;
    assert!(rt; ended.is(2, "", USAGE));
    let missing = "trace --design none --stimulus stimulus";
    let ended = called(&rt, missing, COUNTER, SIX, NONE)?;
    assert!(rt; ended.is(3, "", ""));
    let failing = Failing { log: 1, ..NONE };
    let ended = called(&rt, "", COUNTER, SIX, failing)?;
    assert!(rt; ended.is(5, "", ""));
    Ok(())
}

/// Whether the design is the counter or refused, the reads, writes and log lines that fail, the status, and what is
/// written and logged, with a bar for a line's end.
const FAILURES: &str = "good 1 0 0 3 , 
good 2 0 0 3 , 
bad 1 0 0 3 , 
bad 2 0 0 4 , refused 60 NotBuilt design|
good 0 1 0 5 , 
good 0 3 0 5 items 2|1 clk|, 
bad 0 0 1 5 , 
bad 0 0 3 5 , refused 60 Not";

#[test]
fn calls_that_fail_are_told(rt: HostRuntime) -> Result<(), Fail> {
    let bad = counter_by_sub(rt.alloc())?;
    for row in FAILURES.lines() {
        let mut words = row.splitn(6, ' ');
        let design = if words.next() == Some("good") {
            COUNTER
        } else {
            bad.as_str()
        };
        let failing = Failing {
            read: number(words.next()),
            out: number(words.next()),
            log: number(words.next()),
        };
        let status = number(words.next());
        let want = words.next().ok_or("no texts")?;
        let ended = called(&rt, WORDS, design, SIX, failing)?;
        assert!(rt; u64::from(ended.status) == status, "{row}");
        let out = barred(rt.alloc(), ended.out.bytes())?;
        let log = barred(rt.alloc(), ended.log.bytes())?;
        let got = format!(in rt.alloc(); "{out}, {log}")?;
        assert_eq!(rt; got.as_str(), want, "{row}");
    }
    let failing = Failing { log: 1, ..NONE };
    let ended = called(&rt, WORDS, COUNTER, SIX, failing)?;
    assert!(rt; ended.is(0, COUNTED, ""));
    Ok(())
}

/// The command `trace` on these two files.
fn trace_command(alloc: Global) -> Result<Command, NoMemory>
    ensures design { IfOk result (λ c. IsSome c.design) }
    ensures stimulus { IfOk result (λ c. IsSome c.stimulus) }
{
    Ok(Command {
        mode: Mode::Trace,
        number: 0,
        design: Some(Name::copy_of(alloc, b"design")?),
        stimulus: Some(Name::copy_of(alloc, b"stimulus")?),
        top: None,
        spool: None,
        listen: Name::copy_of(alloc, b"")?,
        clients: 1,
    })
}

/// Traces two files of which no more bytes than a limit are read.
fn limited(
    alloc: Global,
    design: &str,
    stimulus: &str,
    limit: u64,
) -> Result<(Outcome, Gathered, Gathered), Fail> {
    let command = trace_command(alloc)?;
    let mut shelf = shelf_of(alloc, design, stimulus, 0)?;
    let mut input = Bytes::new(alloc, Vec::new(alloc));
    let mut out = Gathered::new(alloc);
    let mut log = Gathered::new(alloc);
    let outcome = run(
        alloc, &command, limit, &mut shelf, &mut input, &mut out, &mut log,
    );
    Ok((outcome, out, log))
}

#[test]
fn files_over_the_limit_are_refused(rt: HostRuntime) -> Result<(), Fail> {
    let alloc = rt.alloc();
    let design = "module \\m\nwire input 1 \\clk\nend\n";
    let stimulus = "stimulus 0\ninputs clk\nblock 1 1.0\n0.0 1\nend\n";
    let traced = "items 1\n1 clk\n0.000000000000000 1\nend 1\n";
    let design_is_long = "refused 50 FileTooLong design\n";
    let stimulus_is_long = "refused 50 FileTooLong stimulus\n";
    let long = design.len().max(stimulus.len());
    let limits = [
        design.len().saturating_sub(1),
        design.len(),
        stimulus.len().saturating_sub(1),
        stimulus.len(),
    ];
    for limit in limits {
        let (line, text) = if limit < design.len() {
            (design_is_long, "")
        } else if limit < long {
            (stimulus_is_long, "")
        } else {
            ("", traced)
        };
        let (outcome, out, log) = limited(alloc, design, stimulus, limit as u64)?;
        let status = if line.is_empty() { 0 } else { 4 };
        assert_eq!(rt; outcome.status(), status, "{limit}");
        assert!(rt; out.bytes() == text.as_bytes(), "{limit}");
        assert!(rt; log.bytes() == line.as_bytes(), "{limit}");
    }
    Ok(())
}
