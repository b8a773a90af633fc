//! Stimulus texts that are read, and texts that are not.
ghost use Rattle.std.specs.Prelude.{IfOk};
ghost use Rattle.flat_design.specs.Flat.{IsFlat};

use circuit::Circuit;
use flat_design::elaborate;
use flat_stimulus::read_stimulus;
use flat_text::{FlatFault, read_module};
use sim_base::Time;
use std::alloc::{AllocError, Global};
use std::process::Abort;
use std::test::Fail;

/// Its inputs are `b` and `a`, its columns `a` and `b`.
const DESIGN: &[u8] = br"module \m
wire width 4 input 1 \b
wire input 2 \a
wire output 3 \y
end
";

fn circuit(alloc: Global) -> Result<Circuit, FlatFault>
    ensures { IfOk result IsFlat }
{
    let module = read_module(alloc, DESIGN)?;
    elaborate(alloc, &module)
}

/// The number of samples, and the time in femtoseconds and the inputs `b` and `a` of sample `k`.
type Sample = (u64, u128, u64, u64);

fn sample(alloc: Global, circuit: &Circuit, text: &str, k: u64) -> Result<Option<Sample>, FlatFault>
    requires { IsFlat circuit.now }
{
    let stimulus = read_stimulus(alloc, text.as_bytes(), circuit)?;
    let count = stimulus.count();
    let mut inputs = vec![in alloc; 0u64; circuit.inputs.len()]?;
    if k >= count {
        return Ok(None);
    }
    let time = stimulus.row(k, &mut inputs);
    Ok(match inputs.as_slice() {
        [b, a] => Some((count, time.femtoseconds(), *b, *a)),
        _ => None,
    })
}

/// A text whose inputs are named, with these lines behind.
fn text_of(alloc: Global, lines: &str) -> Result<String, AllocError> {
    format!(in alloc; "stimulus 0\ninputs a b\n{lines}\n")
}

/// What is said of sample `k`.
fn told_of_sample(
    alloc: Global,
    circuit: &Circuit,
    text: &str,
    k: &str,
) -> Result<String, FlatFault>
    requires { IsFlat circuit.now }
{
    Ok(
        match sample(alloc, circuit, text, k.parse().unwrap_or(0))? {
            Some((count, time, b, a)) => format!(in alloc; "{count} {time} {b} {a}")?,
            None => format!(in alloc; "none")?,
        },
    )
}

/// How many samples of the stimulus are at or before a time.
fn told_until(alloc: Global, circuit: &Circuit, text: &str, time: &str) -> Result<String, FlatFault>
    requires { IsFlat circuit.now }
{
    let stimulus = read_stimulus(alloc, text.as_bytes(), circuit)?;
    Ok(match Time::read(time.as_bytes()) {
        Some(time) => format!(in alloc; "{}", stimulus.count_until(time))?,
        None => format!(in alloc; "no time")?,
    })
}

/// Blocks, and what is said of a sample or of the samples up to a time.
const BLOCKS: &str = "block 2 0.5
0.0 0 0
0.25 1 f
end
?
sample 1 -> 4 250000000000000 15 1
sample 3 -> 4 750000000000000 15 1
sample 4 -> none
until 0.0 -> 1
until 0.25 -> 2
until 0.75 -> 4
until 4294967295.999999999999999 -> 4

block 3 1.0
0.5 0 0
end
?
until 0.499999999999999 -> 0
until 0.5 -> 1
until 2.5 -> 3

block 1 4294967295.999999999999999
4294967295.999999999999998 0 00F
end
?
sample 0 -> 1 4294967295999999999999998 15 0
until 4294967295.999999999999998 -> 1

block 16777216 0.000000000000001
0.0 1 0
end
?
sample 16777215 -> 16777216 16777215 0 1
sample 16777216 -> none
until 0.000000000000099 -> 100
until 1.0 -> 16777216";

fn check_block<R: AllocGlobal + Abort>(rt: &R, section: &str) -> Result<(), Fail> {
    let alloc = rt.alloc();
    let circuit = circuit(alloc)?;
    let (lines, rows) = section.split_once("\n?\n").unwrap_or((section, ""));
    let text = text_of(alloc, lines)?;
    for row in rows.lines() {
        let (asked, want) = row.split_once(" -> ").unwrap_or((row, ""));
        let (word, argument) = asked.split_once(' ').unwrap_or((asked, ""));
        let told = match word {
            "sample" => told_of_sample(alloc, &circuit, &text, argument)?,
            _ => told_until(alloc, &circuit, &text, argument)?,
        };
        assert_eq!(rt; told.as_str(), want, "{row} of {lines}");
    }
    Ok(())
}

#[test]
fn samples_are_rows_of_the_repeated_block(rt: HostRuntime) -> Result<(), Fail> {
    for section in BLOCKS.split("\n\n") {
        check_block(&rt, section)?;
    }
    Ok(())
}

/// Blocks that are refused.
const OTHER_BLOCKS: &str = "block 1 0.5
0.5 0 0
end
---
block 1 0.5
0.25 0 0
0.25 0 0
end
---
block 1 1.
0.0 0 0
end
---
block 2 4294967295.999999999999999
0.0 0 0
end
---
block 1 0.5
0.0 2 0
end
---
block 1 0.5
0.0 0
end
---
block 0 0.5
0.0 0 0
end
---
block 16777217 0.000000000000001
0.0 0 0
end
---
---
block 1 0.5
end
---
block 1 0.5
0.0 0 0
---
block 1 0.5
0.0 0 0
end
block 1 0.5
0.0 0 0
end
---
block 1 0.5
0.0\t0 0
end
";

/// Heads that are refused.
const OTHER_HEADS: &str = "---
stimulus 0
---
stimulus 1
inputs a b
---
inputs a b
stimulus 0
---
stimulus 0
inputs b a
---
stimulus 0
inputs a
---
stimulus 0
inputs a b y
---
stimulus 0
inputs a  b
---

stimulus 0
inputs a b
";

/// Whether the text is not of the form that is read.
fn is_refused(alloc: Global, circuit: &Circuit, text: &str) -> bool
    requires { IsFlat circuit.now }
{
    let read = read_stimulus(alloc, text.as_bytes(), circuit);
    matches!(&read, Err(FlatFault::NotBuilt))
}

#[test]
fn blocks_and_heads_of_other_forms_are_refused(rt: HostRuntime) -> Result<(), Fail> {
    let alloc = rt.alloc();
    let circuit = circuit(alloc)?;
    for lines in OTHER_BLOCKS.split("---\n") {
        let text = format!(in alloc; "stimulus 0\ninputs a b\n{lines}")?;
        assert!(rt; is_refused(alloc, &circuit, &text), "{lines}");
    }
    for head in OTHER_HEADS.split("---\n") {
        let text = format!(in alloc; "{head}block 1 0.5\n0.0 0 0\nend\n")?;
        assert!(rt; is_refused(alloc, &circuit, &text), "{head}");
    }
    let good = "stimulus 0\ninputs a b\nblock 1 0.5\n0.0 0 0\nend\n";
    assert!(rt; !is_refused(alloc, &circuit, good));
    Ok(())
}
