//! What a text gives, and the line of a refusal, as a text.
use circuit::{Circuit, Item, Reg};
use design_load::{LoadFault, load_design};
use refusal_lines::{design_fault_line, text_fault_line};
use std::alloc::Global;
use std::str::from_utf8;
use std::test::Fail;

/// How many nets, drives, cells, registers, memories and scopes there are.
fn push_counts(out: &mut String, circuit: &Circuit) -> Result<(), Fail> {
    write!(
        out,
        "{} {} {} {} {} {}",
        circuit.nets.len(),
        circuit.drives.len(),
        circuit.cells.len(),
        circuit.regs.len(),
        circuit.mems.len(),
        circuit.scopes.len()
    )?;
    Ok(())
}

/// An item's first slot and its name.
fn push_item(out: &mut String, item: &Item) -> Result<(), Fail> {
    write!(out, "; {} ", item.first_slot)?;
    out.push_str(from_utf8(item.name.as_bytes())?)?;
    Ok(())
}

/// A register's start value.
fn push_start(out: &mut String, reg: &Reg) -> Result<(), Fail> {
    let width = reg.init.width();
    if width <= 64 {
        write!(out, "; {width}'{:x}", reg.init.word())?;
    }
    Ok(())
}

/// The counts, and behind them the items in their order and the start values of the registers.
fn circuit_told(alloc: Global, circuit: &Circuit) -> Result<String, Fail> {
    let mut out = String::new(alloc);
    push_counts(&mut out, circuit)?;
    for item in circuit.items.as_slice() {
        push_item(&mut out, item)?;
    }
    for reg in circuit.regs.as_slice() {
        push_start(&mut out, reg)?;
    }
    Ok(out)
}

/// A line without its end.
fn line_told(alloc: Global, line: &[u8]) -> Result<String, Fail> {
    let mut out = String::new(alloc);
    out.push_str(from_utf8(line)?.trim_end_matches('\n'))?;
    Ok(out)
}

fn fault_told(alloc: Global, fault: LoadFault) -> Result<String, Fail> {
    match fault {
        LoadFault::Text(fault) => line_told(alloc, &text_fault_line(alloc, fault)?),
        LoadFault::Design(fault) => line_told(alloc, &design_fault_line(alloc, &fault)?),
        LoadFault::NoMemory => line_told(alloc, b"NoMemory"),
    }
}

/// What a text gives, or the line of its refusal. The top is the module of this identifier, if it is not empty.
pub fn told(alloc: Global, text: &[u8], top: &[u8]) -> Result<String, Fail> {
    if text.len() >= 4_294_967_295 {
        return line_told(alloc, b"too long");
    }
    let top = if top.is_empty() { None } else { Some(top) };
    match load_design(alloc, text, top) {
        Ok(loaded) => circuit_told(alloc, &loaded.circuit),
        Err(fault) => fault_told(alloc, fault),
    }
}
