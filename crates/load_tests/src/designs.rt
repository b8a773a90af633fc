//! Whole designs: what is taken, and what refuses them first.
use crate::told::told;
use sim_base::NoMemory;
use std::alloc::Global;
use std::process::Abort;
use std::test::Fail;

const TAKEN: &str =
    r#"module \m / wire input 1 \b / wire output 2 \a / wire $p / connect \a \b / end => 3 2 0 0 0 1; 0 a; 1 b
module \m / wire input 1 \c / wire width 2 \d / attribute \init 2'1x / wire width 2 \q / cell $dff \r / parameter \WIDTH 2 / parameter \CLK_POLARITY 1 / connect \CLK \c / connect \D \d / connect \Q \q / end / end => 3 2 0 1 0 1; 0 c; 1 d; 2 q; 2'2
module \inner / wire input 1 \c / wire output 2 \q / cell $dff \r / parameter \WIDTH 1 / parameter \CLK_POLARITY 1 / connect \CLK \c / connect \D \q / connect \Q \q / end / end / attribute \top 1 / module \outer / wire input 1 \c / attribute \init 1'1 / wire \y / cell \inner \b / connect \c \c / connect \q \y / end / cell \inner \a / connect \c \c / end / cell \inner $z / end / end => 8 8 0 3 0 3; 0 a c; 1 a q; 2 b c; 3 b q; 4 c; 5 y; 1'1; 1'0; 1'0
module \m / wire \w / cell $mem_v2 \s / parameter \MEMID "\\mem" / parameter \SIZE 3 / parameter \OFFSET 0 / parameter \ABITS 2 / parameter \WIDTH 8 / parameter \INIT 0 / parameter \RD_PORTS 0 / parameter \RD_CLK_ENABLE 0 / parameter \RD_CLK_POLARITY 0 / parameter \WR_PORTS 0 / parameter \WR_CLK_ENABLE 0 / parameter \WR_CLK_POLARITY 0 / end / end => 1 0 0 0 1 1; 0 mem; 3 w"#;

const REFUSED: &str = r#" => refused 10 NoTop
module \m / end / module \m / end => refused 10 NoTop
\m: module \m / wire inout 1 \a / end / module \m / end => refused 13 DuplicateName \m
\n: module \m / end => refused 10 NoTop
attribute \top 1 / module \m / end / attribute \top 1 / module \n / end => refused 11 ManyTops
\n: attribute \top 1 / module \m / end / module \n / wire inout 1 \a / end => refused 17 Inout \n \a
module \m / wire inout 1 \a / process $p / end / end => refused 6 Process 3 2
module \m / process $p / end / wire 3 => refused 4 Syntax 4 7
module \m / cell \m \a / end / end => refused 20 RecursiveModules \m \a
module \m / wire \a / connect \a 1'0 / connect \a 1'1 / end => refused 23 TwoDrivers \a [0]
module \m / wire \a / wire \b / connect \a \b / connect \b \a / end => refused 24 CombLoop \a [0] \b [0]"#;

/// The text of a row: its lines are parted by `/`.
fn text_of(alloc: Global, row: &str) -> Result<Vec<u8>, NoMemory> {
    let mut text = Vec::new(alloc);
    for byte in row.as_bytes() {
        text.push(if *byte == b'/' { b'\n' } else { *byte })?;
    }
    text.push(b'\n')?;
    Ok(text)
}

/// In each row a text stands before the arrow, behind the identifier of the top and `: ` where one is named, and what is told of
/// it stands behind the arrow.
fn check(rt: &impl Abort, alloc: Global, rows: &str) -> Result<(), Fail> {
    for row in rows.lines() {
        let (design, want) = row.split_once(" => ").unwrap_or((row, ""));
        let (top, lines) = design.split_once(": ").unwrap_or(("", design));
        let text = text_of(alloc, lines)?;
        assert_eq!(rt;
            told(alloc, &text, top.as_bytes())?.as_str(),
            want,
            "{design}"
        );
    }
    Ok(())
}

#[test]
fn designs_are_taken_whole(rt: HostRuntime) -> Result<(), Fail> {
    check(&rt, rt.alloc(), TAKEN)
}

#[test]
fn the_first_fault_is_answered(rt: HostRuntime) -> Result<(), Fail> {
    check(&rt, rt.alloc(), REFUSED)
}
