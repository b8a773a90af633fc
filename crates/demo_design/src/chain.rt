//! The text of the demo's design.
ghost use Rattle.std.specs.Prelude.{◌≡◌, ◌++◌, IfOk, OnOk};
ghost use Rattle.demo_design.specs.DemoText.{adder_of, addend_of, cells_of, design_text, each_stage, numbered, register_of, wires_of};

use itoa::Buffer;
use sim_base::NoMemory;
use std::alloc::Global;

const ADDER_PARAMETERS: &[u8] = br"    parameter \A_SIGNED 0
    parameter \A_WIDTH 16
    parameter \B_SIGNED 0
    parameter \B_WIDTH 16
    parameter \Y_WIDTH 16
";

const REGISTER_PARAMETERS: &[u8] = br"    parameter \CLK_POLARITY 1'1
    parameter \WIDTH 16
";

/// The text, in RTLIL, of the module `\demo` of so many stages.
///
/// Its one input is the clock `\clk`. Stage i has the register `\qi` of 16 bits, which begins at 0 and takes at each
/// rising clock its own value plus that of the register of the stage before; that of stage 0 counts up by 1. After so
/// many rising edges it is therefore the number of choices of i + 1 of them, modulo 65,536.
pub fn design(alloc: Global, stages: u32) -> Result<Vec<u8>, NoMemory>
    ensures { IfOk result (λ text. text.items ≡ design_text stages) }
{
    let mut text = Vec::new(alloc);
    text.extend_from_slice(b"module \\demo\n  wire input 1 \\clk\n")?;
    push_wires(&mut text, stages)?;
    push_cells(&mut text, stages)?;
    text.extend_from_slice(b"end\n")?;
    Ok(text)
}

fn push_wires(text: &mut Vec<u8>, stages: u32) -> Result<(), NoMemory>
    ensures { OnOk result (text.new.items ≡ text.old.items ++ each_stage wires_of stages) }
{
    for stage in 0..stages {
        push_numbered(text, b"  wire width 16 \\q", stage)?;
        push_numbered(text, b"  wire width 16 $sum", stage)?;
    }
    Ok(())
}

fn push_cells(text: &mut Vec<u8>, stages: u32) -> Result<(), NoMemory>
    ensures { OnOk result (text.new.items ≡ text.old.items ++ each_stage cells_of stages) }
{
    for stage in 0..stages {
        push_adder(text, stage)?;
        push_register(text, stage)?;
    }
    Ok(())
}

fn push_adder(text: &mut Vec<u8>, stage: u32) -> Result<(), NoMemory>
    ensures { OnOk result (text.new.items ≡ text.old.items ++ adder_of stage) }
{
    push_numbered(text, b"  cell $add $adder", stage)?;
    text.extend_from_slice(ADDER_PARAMETERS)?;
    push_numbered(text, b"    connect \\A \\q", stage)?;
    push_addend(text, stage)?;
    push_numbered(text, b"    connect \\Y $sum", stage)?;
    text.extend_from_slice(b"  end\n")?;
    Ok(())
}

fn push_addend(text: &mut Vec<u8>, stage: u32) -> Result<(), NoMemory>
    ensures { OnOk result (text.new.items ≡ text.old.items ++ addend_of stage) }
{
    if stage == 0 {
        text.extend_from_slice(b"    connect \\B 16'0000000000000001\n")?;
        return Ok(());
    }
    push_numbered(text, b"    connect \\B \\q", stage - 1)
}

fn push_register(text: &mut Vec<u8>, stage: u32) -> Result<(), NoMemory>
    ensures { OnOk result (text.new.items ≡ text.old.items ++ register_of stage) }
{
    push_numbered(text, b"  cell $dff $register", stage)?;
    text.extend_from_slice(REGISTER_PARAMETERS)?;
    text.extend_from_slice(b"    connect \\CLK \\clk\n")?;
    push_numbered(text, b"    connect \\D $sum", stage)?;
    push_numbered(text, b"    connect \\Q \\q", stage)?;
    text.extend_from_slice(b"  end\n")?;
    Ok(())
}

/// A line of these words, with the number of a stage at its end.
fn push_numbered(text: &mut Vec<u8>, words: &[u8], stage: u32) -> Result<(), NoMemory>
    ensures { OnOk result (text.new.items ≡ text.old.items ++ numbered words.now stage) }
{
    let mut buffer = Buffer::new();
    text.extend_from_slice(words)?;
    text.extend_from_slice(buffer.format(stage).as_bytes())?;
    text.push(b'\n')?;
    Ok(())
}
