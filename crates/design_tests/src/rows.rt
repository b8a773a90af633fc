//! Rows that say what becomes of a design.
use crate::told::told;
use sim_base::NoMemory;
use std::alloc::Global;
use std::process::Abort;
use std::test::Fail;

/// What stands before the lines of a row: the wires `a`, `b` and `c` of 8, 8 and 1 bits, nets 0, 1 and 2.
const FRONT: &[u8] = br"module \m
wire width 8 \a
wire width 8 \b
wire \c
";

/// What stands behind them: modules that may be instances.
const BEHIND: &[u8] = br"
end
module \child
wire width 8 input 1 \x
wire output 2 \y
wire inout 3 \z
wire \w
end
module \plain
wire width 8 input 1 \x
wire output 2 \y
wire \w
end
module \both
wire input 1 output 2 \x
end
module \wide
wire width 65537 input 1 \x
end
";

/// What a `%` stands for: parameters of a memory that has rows of 8 bits, read ports without a clock and one write port. Those
/// that a row chooses stand in it.
const MEMORY: &[u8] = br#"parameter \MEMID "\\mem"
parameter \OFFSET 0
parameter \ABITS 2
parameter \WIDTH 8
parameter \INIT 0
parameter \RD_CLK_ENABLE 1'0
parameter \RD_CLK_POLARITY 1'0
parameter \WR_PORTS 1
parameter \WR_CLK_POLARITY 1'1
"#;

fn push_byte(text: &mut Vec<u8>, byte: u8) -> Result<(), NoMemory> {
    match byte {
        b'/' => text.push(b'\n')?,
        b'%' => text.extend_from_slice(MEMORY)?,
        other => text.push(other)?,
    }
    Ok(())
}

/// The text of a row between two others: its lines are parted by `/`.
fn text_of(alloc: Global, front: &[u8], row: &str, behind: &[u8]) -> Result<Vec<u8>, NoMemory> {
    let mut text = Vec::from_slice(alloc, front)?;
    for byte in row.as_bytes() {
        push_byte(&mut text, *byte)?;
    }
    text.extend_from_slice(behind)?;
    Ok(text)
}

fn check_between(
    rt: &impl Abort,
    alloc: Global,
    front: &[u8],
    rows: &str,
    behind: &[u8],
) -> Result<(), Fail> {
    for row in rows.lines() {
        let (lines, want) = row.split_once(" => ").unwrap_or((row, ""));
        let text = text_of(alloc, front, lines, behind)?;
        assert_eq!(rt; told(alloc, &text)?.as_str(), want, "{lines}");
    }
    Ok(())
}

/// In each row the lines of a module stand before the arrow, and what is told of the design with it as its top behind it.
pub fn check_modules(rt: &impl Abort, alloc: Global, rows: &str) -> Result<(), Fail> {
    check_between(rt, alloc, FRONT, rows, BEHIND)
}

/// In each row a whole text stands before the arrow, and what is told of its design behind it.
pub fn check_texts(rt: &impl Abort, alloc: Global, rows: &str) -> Result<(), Fail> {
    check_between(rt, alloc, b"", rows, b"")
}
