//! What a design gives, and the line of a refusal, as a text.
use circuit::{By, Circuit};
use design_parts::Refusal;
use elaborate::elaborate;
use process_check::check_processes;
use refusal_lines::{design_fault_line, text_fault_line};
use rtlil_lexer::{TextFault, lex};
use rtlil_tree::{File, parse};
use sim_base::Bits;
use std::alloc::Global;
use std::str::from_utf8;
use std::test::Fail;

const TOP: &[u8] = br"\m";

/// A value of at most 64 bits as its width and its number.
fn push_value(out: &mut String, value: &Bits) -> Result<(), Fail> {
    let width = value.width();
    if width <= 64 {
        write!(out, "{width}'{:x}", value.word())?;
    }
    Ok(())
}

fn push_source(out: &mut String, by: &By) -> Result<(), Fail> {
    match by {
        By::Const(value) => push_value(out, value)?,
        By::Input(input, at) => write!(out, "input {input} {at}")?,
        By::Wire(net, at) => write!(out, "wire {net} {at}")?,
        By::Cell(cell, at) => write!(out, "cell {cell} {at}")?,
        By::Reg(register, at) => write!(out, "reg {register} {at}")?,
        By::Read(memory, port, at) => write!(out, "read {memory} {port} {at}")?,
    }
    Ok(())
}

/// How many nets, cells, registers, memories, diagnostics and items there are.
fn push_counts(out: &mut String, circuit: &Circuit) -> Result<(), Fail> {
    write!(
        out,
        "{} {} {} {} {} {}",
        circuit.nets.len(),
        circuit.cells.len(),
        circuit.regs.len(),
        circuit.mems.len(),
        circuit.diags.len(),
        circuit.items.len()
    )?;
    Ok(())
}

/// The counts, and behind them each drive: the net, its first bit and how many there are, and what drives them.
fn circuit_told(alloc: Global, circuit: &Circuit) -> Result<String, Fail> {
    let mut out = String::new(alloc);
    push_counts(&mut out, circuit)?;
    for drive in circuit.drives.as_slice() {
        write!(out, "; {}[{}+{}] ", drive.net, drive.at, drive.width)?;
        push_source(&mut out, &drive.by)?;
    }
    Ok(out)
}

/// A line without its end.
fn line_told(alloc: Global, line: &[u8]) -> Result<String, Fail> {
    let mut out = String::new(alloc);
    out.push_str(from_utf8(line)?.trim_end_matches('\n'))?;
    Ok(out)
}

fn fault_told(alloc: Global, fault: TextFault) -> Result<String, Fail> {
    line_told(alloc, &text_fault_line(alloc, fault)?)
}

fn refusal_told(alloc: Global, refusal: &Refusal) -> Result<String, Fail> {
    match refusal {
        Refusal::At(fault) => line_told(alloc, &design_fault_line(alloc, fault)?),
        Refusal::NoMemory => line_told(alloc, b"NoMemory"),
    }
}

fn design_told(alloc: Global, file: &File) -> Result<String, Fail> {
    match elaborate(alloc, file, Some(TOP)) {
        Ok(circuit) => circuit_told(alloc, &circuit),
        Err(refusal) => refusal_told(alloc, &refusal),
    }
}

/// What the module `\m` of a text gives as a design, or the line of its refusal.
pub fn told(alloc: Global, text: &[u8]) -> Result<String, Fail> {
    if text.len() >= 4_294_967_295 {
        return fault_told(alloc, TextFault::NoMemory);
    }
    let tokens = match lex(alloc, text) {
        Ok(tokens) => tokens,
        Err(fault) => return fault_told(alloc, fault),
    };
    let file = match parse(alloc, tokens.as_slice()) {
        Ok(file) => file,
        Err(fault) => return fault_told(alloc, fault),
    };
    match check_processes(&file) {
        Ok(()) => design_told(alloc, &file),
        Err(fault) => fault_told(alloc, fault),
    }
}
