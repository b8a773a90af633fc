//! The first fault of a text, by its name and its line, at the edges of each rule. In a row `|` ends a line of the text.
use crate::circuits::inputs;
use circuit::Circuit;
use std::alloc::{AllocError, AllocGlobal, Global};
use std::process::Abort;
use std::test::Fail;
use stimulus::{StimFault, StimFaultKind, read};

/// The bytes of a text that stands in a row, behind what all rows begin with.
fn bytes_of(alloc: Global, front: &str, text: &str) -> Result<Vec<u8>, AllocError> {
    let mut bytes = Vec::new(alloc);
    for byte in front.bytes() {
        bytes.push(if byte == b'|' { b'\n' } else { byte })?;
    }
    for byte in text.bytes() {
        bytes.push(if byte == b'|' { b'\n' } else { byte })?;
    }
    Ok(bytes)
}

/// How many samples a text gives, or the name and the line of its fault.
fn outcome(alloc: Global, text: &[u8], circuit: &Circuit) -> Result<String, AllocError> {
    if text.len() >= 4_294_967_295 {
        return format!(in alloc; "too long");
    }
    match read(alloc, text, circuit) {
        Ok(stimulus) => format!(in alloc; "{} samples", stimulus.count()),
        Err(StimFault::At { kind, line }) => format!(in alloc; "{} {line}", kind.name()),
        Err(StimFault::NoMemory) => format!(in alloc; "no memory"),
    }
}

/// Checks rows of a text, ` -> ` and its outcome.
fn check_rows<R: AllocGlobal + Abort>(rt: &R, circuit: &Circuit, front: &str, rows: &str) {
    for row in rows.lines() {
        let (text, want) = row.split_once(" -> ").unwrap_or((row, ""));
        let bytes = bytes_of(rt.alloc(), front, text).expect(rt, "memory");
        let got = outcome(rt.alloc(), &bytes, circuit).expect(rt, "memory");
        assert_eq!(rt; got.as_str(), want, "of {text}");
    }
}

/// The first line and the line of the inputs, what may stand before and between them, and what may not.
const HEADS: &str = " -> Head 1
| -> Head 1
# nothing|| -> Head 2
stimulus -> Head 1
stimulus 1| -> Head 1
stimulus 00| -> Head 1
stimuli 0| -> Head 1
|stimulus 0 0 -> Head 2
 # a blank before the sign| -> Head 1
stimulus 0 -> InputNames 1
stimulus 0|# names| -> InputNames 2
stimulus 0||| -> InputNames 3
stimulus 0|input clk| -> InputNames 2
stimulus 0|inputs| -> InputNames 2
stimulus 0|inputs clk clk| -> InputNames 2
stimulus 0|inputs clock| -> InputNames 2
stimulus 0|inputs cl| -> InputNames 2
stimulus 0|inputs clk -> Empty 2
stimulus 0|inputs clk| -> Empty 2
stimulus 0|inputs clk|# none| -> Empty 3
\tstimulus \t0\r|\r|  inputs\tclk\t\r|block 1 1.0|0.0 1|end -> 1 samples
stimulus 0|inputs clk\r x| -> InputNames 2";

/// Heads of blocks, behind the first two lines.
const BLOCKS: &str = "0.0 1| -> Head 3
end| -> Head 3
inputs clk| -> Head 3
blocks 1 1.0| -> Head 3
block| -> Head 3
block 1| -> Head 3
block 1 1.0 5| -> Head 3
block 1 1.0| -> Head 3
block 1 1.0|0.0 0| -> Head 4
block 1 1.0|block 1 1.0| -> Head 4
block 0 1.0| -> BadValue 3
block x| -> BadValue 3
block x 1.0 5| -> BadValue 3
block 0 1.| -> BadValue 3
block 1 1. 5| -> BadTime 3
block 4294967295 1.0|x| -> BadTime 4
block 4294967296 1.0| -> BadValue 3
block 0000000001 1.0|0.0 0|end| -> 1 samples
block 00000000001 1.0| -> BadValue 3
block 1 1.|0.0 0|end| -> BadTime 3
block 1 1| -> BadTime 3
block 1 .5| -> BadTime 3
block 1 4294967295.999999999999999|x| -> BadTime 4
block 1 4294967296.0| -> BadTime 3
block 1 1.0000000000000000| -> BadTime 3";

/// Rows of a block and its end, behind the first two lines.
const ROWS: &str = "block 1 1.0|end| -> Empty 4
block 1 1.0|end x| -> Empty 4
block 1 1.0|0.0 0|end x| -> Head 5
block 1 1.0|0.0 0|end now|x| -> Head 5
block 1 1.0|0.0 0|END| -> BadTime 5
block 1 1.0|0 5| -> BadTime 4
block 1 1.0|0.0| -> BadValue 4
block 1 1.0|0.0 0 1| -> BadValue 4
block 1 0.0|0.0 0| -> NotRising 4
block 1 1.0|1.0 5| -> NotRising 4
block 2 1.0|1.0 0|end| -> NotRising 4
block 1 1.0|0.999999999999999 0|end -> 1 samples
block 1 1.0|0.5 0|0.5 5| -> NotRising 5
block 1 1.0|0.5 0|0.499999999999999 0| -> NotRising 5
block 1 1.0|0.5 0|0.500000000000001 0|end -> 2 samples
block 1 1.0|0.5 0|end|block 1 1.0|0.0 0|end| -> 2 samples
block 1 1.0|0.0 0|# end|\r| \t|0.5 1|end\r| -> 2 samples";

/// The limits on samples and times, behind the first two lines. `end` is refused for the first of them.
const LIMITS: &str = "block 16777216 0.1|0.0 0|end| -> 16777216 samples
block 16777217 0.1|0.0 0|end| -> TooMany 5
block 8388608 0.1|0.0 0|0.05 1|end| -> 16777216 samples
block 8388609 0.1|0.0 0|0.05 1|end| -> TooMany 6
block 16777215 0.1|0.0 0|end|block 1 0.1|0.0 0|end -> 16777216 samples
block 16777216 0.1|0.0 0|end|block 1 0.1|0.0 0|end -> TooMany 8
block 4294967295 4294967295.0|0.0 0|end x| -> TooMany 5
block 2 4294967295.0|1.0 0|end x| -> BadTime 5
block 1 4294967295.999999999999999|4294967295.999999999999998 0|end| -> 1 samples
block 1 4294967295.999999999999999|4294967295.999999999999999 0|end| -> NotRising 4
block 2 2147483647.999999999999999|0.0 0|end|block 1 0.000000000000001|0.0 0|end -> 3 samples
block 2 2147483648.0|0.0 0|end| -> BadTime 5
block 1 4294967295.999999999999998|0.0 0|end|block 1 0.000000000000001|0.0 0|end -> 2 samples
block 1 4294967295.999999999999999|0.0 0|end|block 1 0.000000000000001|0.0 0|end -> BadTime 8";

#[test]
fn lines_have_their_form(rt: HostRuntime) {
    let circuit = inputs(&rt, &[(b"clk", 1)]);
    let front = "stimulus 0|inputs clk|";
    check_rows(&rt, &circuit, "", HEADS);
    check_rows(&rt, &circuit, front, BLOCKS);
    check_rows(&rt, &circuit, front, ROWS);
    check_rows(&rt, &circuit, front, LIMITS);
}

/// Values of 1, of 64 and of 65 bits.
const VALUES: &str = "1 0 0 -> 1 samples
2 0 0 -> BadValue 4
00000000000000000000 0 0 -> 1 samples
00000000000000000001 0 0 -> 1 samples
00000000000000000002 0 0 -> BadValue 4
0 fFfFffffffFFFFFF 0 -> 1 samples
0 0ffffffffffffffff 0 -> 1 samples
0 10000000000000000 0 -> BadValue 4
0 0 1ffffffffffffffff -> 1 samples
0 0 20000000000000000 -> BadValue 4
0 0 g -> BadValue 4
0 0 000000000000000000000G -> BadValue 4
0 0 0x1 -> BadValue 4
0 0 -1 -> BadValue 4
0 0 1_0 -> BadValue 4
0 0 @ -> BadValue 4
0 : 0 -> BadValue 4
0 ` 0 -> BadValue 4
0 0 -> BadValue 4
0 0 0 0 -> BadValue 4";

#[test]
fn values_fit_their_widths(rt: HostRuntime) {
    let circuit = inputs(&rt, &[(b"bit", 1), (b"word", 64), (b"more", 65)]);
    for row in VALUES.lines() {
        let (values, want) = row.split_once(" -> ").unwrap_or((row, ""));
        let text = format!(in rt.alloc(); "{values}|end -> {want}").expect(&rt, "memory");
        let front = "stimulus 0|inputs bit word more|block 1 1.0|0.0 ";
        check_rows(&rt, &circuit, front, text.as_str());
    }
}

/// Names in any order, behind `inputs`: each of the three once.
const NAMES: &str = "word bit more -> Empty 2
more word bit -> Empty 2
bit word -> InputNames 2
bit word more bit -> InputNames 2
bit word word -> InputNames 2
bit word most -> InputNames 2
bit word mor -> InputNames 2
bit word \\more -> InputNames 2
bit,word,more -> InputNames 2";

#[test]
fn inputs_are_named_once_each(rt: HostRuntime) {
    let circuit = inputs(&rt, &[(b"bit", 1), (b"word", 64), (b"more", 65)]);
    check_rows(&rt, &circuit, "stimulus 0|inputs ", NAMES);
}

#[test]
fn a_text_need_not_be_characters(rt: HostRuntime) -> Result<(), Fail> {
    let circuit = inputs(&rt, &[(b"\xFF", 1)]);
    let text = b"#\xFE\nstimulus 0\ninputs \xFF\nblock 1 1.0\n\xFF\n";
    let got = outcome(rt.alloc(), text, &circuit)?;
    assert_eq!(&rt; got.as_str(), "BadTime 5");
    Ok(())
}

/// The number, the name and the text of each kind, at line 5.
const KINDS: &str = "30 Head line 5: a line of another form
31 InputNames line 5: the inputs are not each named once
32 BadTime line 5: no time
33 BadValue line 5: no value
34 NotRising line 5: an offset that does not rise or is not below the period
35 Empty line 5: a block without rows or a text without blocks
36 TooMany line 5: more than 16777216 samples";

#[test]
fn faults_have_their_numbers_and_texts(rt: HostRuntime) -> Result<(), Fail> {
    let kinds = [
        StimFaultKind::Head,
        StimFaultKind::InputNames,
        StimFaultKind::BadTime,
        StimFaultKind::BadValue,
        StimFaultKind::NotRising,
        StimFaultKind::Empty,
        StimFaultKind::TooMany,
    ];
    let mut rows = KINDS.lines();
    for kind in kinds {
        let text = StimFault::At { kind, line: 5 }.to_string(rt.alloc())?;
        let got = format!(in rt.alloc(); "{} {} {}", kind.number(), kind.name(), text.as_str())?;
        assert_eq!(&rt; got.as_str(), rows.next().unwrap_or(""));
    }
    assert!(&rt; rows.next().is_none());
    Ok(())
}
