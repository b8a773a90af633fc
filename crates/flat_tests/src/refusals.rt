//! Modules that have no circuit, and beside them some that have one.
use flat_design::elaborate;
use flat_text::{FlatFault, read_module};
use std::alloc::{AllocError, Global};
use std::process::Abort;
use std::test::Fail;

/// Whether the module has a circuit.
fn has_circuit(alloc: Global, text: &str) -> Result<bool, FlatFault> {
    let module = read_module(alloc, text.as_bytes())?;
    match elaborate(alloc, &module) {
        Ok(_) => Ok(true),
        Err(FlatFault::NotBuilt) => Ok(false),
        Err(fault) => Err(fault),
    }
}

/// Each section's lines stand in a module behind four wires, and its first line says whether it is built.
fn check(rt: &impl Abort, alloc: Global, sections: &str) -> Result<(), Fail> {
    for section in sections.split("---\n") {
        let (want, lines) = section.split_once('\n').unwrap_or((section, ""));
        let text = format!(in alloc;
            "module \\m\nwire input 1 \\clk\nwire width 8 \\q\nwire width 8 $n\nwire width 8 \\m\n{lines}end\n"
        )?;
        let is_built = has_circuit(alloc, &text)?;
        assert_eq!(rt; is_built, want == "built", "{lines}");
    }
    Ok(())
}

const WIRES: &str = r#"refused
wire \q
---
refused
wire width 0 \a
---
built
wire width 64 \a
---
refused
wire width 65 \a
---
refused
wire input 2 $a
---
built
attribute \init 1'1
wire \a
---
refused
attribute \init 1'1
attribute \init 1'1
wire \a
---
refused
attribute \init 2'11
wire \a
---
refused
attribute \init 1
wire \a
---
refused
attribute \init "1"
wire \a
"#;

const ADDERS: &str = r"built
cell $add $a
parameter \B_WIDTH 1
parameter \Y_WIDTH 8
parameter \A_WIDTH 8
connect \A \q
connect \Y $n
connect \B 1'1
end
---
refused
cell $add $a
parameter \B_WIDTH 1
parameter \Y_WIDTH 8
connect \A \q
connect \Y $n
connect \B 1'1
end
---
refused
cell $add $a
parameter \B_WIDTH 1
parameter \Y_WIDTH 8
parameter \A_WIDTH 8
parameter \A_WIDTH 8
connect \A \q
connect \Y $n
connect \B 1'1
end
---
refused
cell $add $a
parameter \B_WIDTH 1
parameter \Y_WIDTH 8
parameter \A_SIGNED 1
parameter \A_WIDTH 8
connect \A \q
connect \Y $n
connect \B 1'1
end
---
refused
cell $add $a
parameter \B_WIDTH 1
parameter \Y_WIDTH 8
parameter \A_WIDTH 8
connect \A \r
connect \Y $n
connect \B 1'1
end
---
refused
cell $add $a
parameter \B_WIDTH 1
parameter \Y_WIDTH 8
parameter \A_WIDTH 8
connect \A $n
connect \Y $n
connect \B 1'1
end
---
refused
cell $add $a
parameter \B_WIDTH 1
parameter \Y_WIDTH 8
parameter \A_WIDTH 8
connect \A \q
connect \Y \clk
connect \B 1'1
end
---
refused
cell $add $a
parameter \B_WIDTH 1
parameter \Y_WIDTH 8
parameter \A_WIDTH 8
connect \A \q
connect \A \q
connect \Y $n
connect \B 1'1
end
";

const REGISTERS: &str = r"built
cell $dff $r
parameter \CLK_POLARITY 1'1
parameter \WIDTH 8
connect \CLK \clk
connect \D $n
connect \Q \q
end
---
refused
cell $dff $r
parameter \CLK_POLARITY 1'1
connect \CLK \clk
connect \D $n
connect \Q \q
end
---
refused
cell $dff $r
parameter \CLK_POLARITY 1'1
parameter \WIDTH 8
parameter \DEPTH 8
connect \CLK \clk
connect \D $n
connect \Q \q
end
---
refused
cell $dff $r
parameter \CLK_POLARITY 1'1
parameter \WIDTH 8
connect \CLK \m
connect \D $n
connect \Q \q
end
---
refused
cell $dff $r
parameter \CLK_POLARITY 1'1
parameter \WIDTH 8
connect \CLK \clk
connect \D 1'1
connect \Q \q
end
---
refused
cell $dff $r
parameter \CLK_POLARITY 1'1
parameter \WIDTH 8
connect \CLK \clk
connect \D \r
connect \Q \q
end
";

/// A wire takes one output, and adders read what stands before them.
const CELLS: &str = r"built
cell $add $a
parameter \B_WIDTH 1
parameter \Y_WIDTH 8
parameter \A_WIDTH 8
connect \A \q
connect \Y \m
connect \B 1'1
end
cell $add $b
parameter \B_WIDTH 1
parameter \Y_WIDTH 8
parameter \A_WIDTH 8
connect \A \m
connect \Y $n
connect \B 1'1
end
cell $dff $r
parameter \CLK_POLARITY 1'1
parameter \WIDTH 8
connect \CLK \clk
connect \D $n
connect \Q \q
end
---
refused
cell $add $b
parameter \B_WIDTH 1
parameter \Y_WIDTH 8
parameter \A_WIDTH 8
connect \A \m
connect \Y $n
connect \B 1'1
end
cell $add $a
parameter \B_WIDTH 1
parameter \Y_WIDTH 8
parameter \A_WIDTH 8
connect \A \q
connect \Y \m
connect \B 1'1
end
cell $dff $r
parameter \CLK_POLARITY 1'1
parameter \WIDTH 8
connect \CLK \clk
connect \D $n
connect \Q \q
end
---
refused
cell $add $a
parameter \B_WIDTH 1
parameter \Y_WIDTH 8
parameter \A_WIDTH 8
connect \A \q
connect \Y \m
connect \B 1'1
end
cell $add $a
parameter \B_WIDTH 1
parameter \Y_WIDTH 8
parameter \A_WIDTH 8
connect \A \m
connect \Y $n
connect \B 1'1
end
cell $dff $r
parameter \CLK_POLARITY 1'1
parameter \WIDTH 8
connect \CLK \clk
connect \D $n
connect \Q \q
end
---
refused
cell $add $a
parameter \B_WIDTH 1
parameter \Y_WIDTH 8
parameter \A_WIDTH 8
connect \A \q
connect \Y \m
connect \B 1'1
end
cell $add $b
parameter \B_WIDTH 1
parameter \Y_WIDTH 8
parameter \A_WIDTH 8
connect \A \q
connect \Y \m
connect \B 1'1
end
cell $dff $r
parameter \CLK_POLARITY 1'1
parameter \WIDTH 8
connect \CLK \clk
connect \D $n
connect \Q \q
end
---
refused
cell $add $a
parameter \B_WIDTH 1
parameter \Y_WIDTH 8
parameter \A_WIDTH 8
connect \A \q
connect \Y \m
connect \B 1'1
end
cell $add $b
parameter \B_WIDTH 1
parameter \Y_WIDTH 8
parameter \A_WIDTH 8
connect \A \m
connect \Y \q
connect \B 1'1
end
cell $dff $r
parameter \CLK_POLARITY 1'1
parameter \WIDTH 8
connect \CLK \clk
connect \D $n
connect \Q \q
end
";

#[test]
fn parts_of_other_forms_have_no_circuit(rt: HostRuntime) -> Result<(), Fail> {
    let alloc = rt.alloc();
    check(&rt, alloc, WIRES)?;
    check(&rt, alloc, ADDERS)?;
    check(&rt, alloc, REGISTERS)?;
    check(&rt, alloc, CELLS)
}

/// A module of so many wires of one bit, each of another name.
fn many_wires(alloc: Global, count: u32) -> Result<String, AllocError> {
    let mut text = String::new(alloc);
    write!(text, "module \\m\n")?;
    for i in 0..count {
        write!(text, "wire \\w{i}\n")?;
    }
    write!(text, "end\n")?;
    Ok(text)
}

#[test]
fn a_thousand_wires_are_the_most(rt: HostRuntime) -> Result<(), Fail> {
    for (count, want) in [(1000, true), (1001, false)] {
        let text = many_wires(rt.alloc(), count)?;
        assert_eq!(rt; has_circuit(rt.alloc(), &text)?, want, "{count} wires");
    }
    Ok(())
}
