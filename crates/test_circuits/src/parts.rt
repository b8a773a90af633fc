//! The parts of a circuit, each of a line.
use crate::line::Line;
use crate::words::{kind_of, op_of};
use circuit::{
    By, Cell, Circuit, Diag, DiagKind, Drive, Item, ItemKind, Mem, Net, Polarity, ReadPort, Reg,
    Scope, Trigger, WritePort,
};
use sqlite_items::Items;
use std::alloc::Global;

/// The circuit of a text; none where a line has no form of a part, or there is no memory.
pub fn circuit_of(alloc: Global, text: &str) -> Option<Circuit> {
    let mut circuit = Circuit {
        nets: Items::new(alloc),
        drives: Items::new(alloc),
        cells: Items::new(alloc),
        regs: Items::new(alloc),
        mems: Items::new(alloc),
        inputs: Items::new(alloc),
        items: Items::new(alloc),
        scopes: Items::new(alloc),
        diags: Items::new(alloc),
    };
    put_parts(alloc, &mut circuit, text)?;
    Some(circuit)
}

/// Adds the parts of a text at the ends of a circuit's lists.
pub fn put_parts(alloc: Global, circuit: &mut Circuit, text: &str) -> Option<()> {
    for line in text.lines() {
        for part in line.split(';') {
            let mut line = Line::new(alloc, part);
            if let Some(word) = line.word() {
                put_part(circuit, word, &mut line)?;
            }
        }
    }
    Some(())
}

fn put_part(circuit: &mut Circuit, word: &str, line: &mut Line) -> Option<()> {
    match word {
        "net" => circuit.nets.push(net(line)?).ok(),
        "drive" => circuit.drives.push(drive(line)?).ok(),
        "cell" => circuit.cells.push(cell(line)?).ok(),
        "reg" => circuit.regs.push(register(line)?).ok(),
        "mem" => circuit.mems.push(memory(line)?).ok(),
        "input" => circuit.inputs.push(line.number()?).ok(),
        "scope" => circuit.scopes.push(scope(line)?).ok(),
        "node" | "rows" => circuit.items.push(item(word == "node", line)?).ok(),
        "assert" => circuit.diags.push(diagnostic(DiagKind::Assert, line)?).ok(),
        "assume" => circuit.diags.push(diagnostic(DiagKind::Assume, line)?).ok(),
        _ => put_port(circuit, word, line),
    }
}

/// Adds a port to the last memory.
fn put_port(circuit: &mut Circuit, word: &str, line: &mut Line) -> Option<()> {
    let mut memory = circuit.mems.pop()?;
    match word {
        "read" => memory.reads.push(read_port(line)?).ok()?,
        "write" => memory.writes.push(write_port(line)?).ok()?,
        _ => return None,
    }
    circuit.mems.push(memory).ok()
}

fn net(line: &mut Line) -> Option<Net> {
    let path = line.name()?;
    Some(Net {
        path,
        width: line.number()?,
    })
}

fn driver(line: &mut Line) -> Option<By> {
    match line.word()? {
        "const" => Some(By::Const(line.bits()?)),
        "input" => Some(By::Input(line.number()?, line.number()?)),
        "wire" => Some(By::Wire(line.number()?, line.number()?)),
        "cell" => Some(By::Cell(line.number()?, line.number()?)),
        "reg" => Some(By::Reg(line.number()?, line.number()?)),
        "read" => Some(By::Read(line.number()?, line.number()?, line.number()?)),
        _ => None,
    }
}

fn drive(line: &mut Line) -> Option<Drive> {
    let (net, at, width) = line.part()?;
    Some(Drive {
        net,
        at,
        width,
        by: driver(line)?,
    })
}

fn cell(line: &mut Line) -> Option<Cell> {
    let op = op_of(line.word()?)?;
    let signs = line.word()?;
    let width = line.number()?;
    let offset = line.number()?;
    Some(Cell {
        op,
        a: line.sig()?,
        b: line.sig()?,
        s: line.sig()?,
        a_signed: signs.contains('a'),
        b_signed: signs.contains('b'),
        width,
        offset,
    })
}

fn register(line: &mut Line) -> Option<Reg> {
    let kind = kind_of(line.word()?)?;
    let [clk, en, set, clr, load] = line.five_flags()?;
    let pol = Polarity {
        clk,
        en,
        set,
        clr,
        load,
    };
    let width = line.number()?;
    let value = line.bits()?;
    let init = line.bits()?;
    Some(Reg {
        kind,
        width,
        clk: line.sig()?,
        d: line.sig()?,
        en: line.sig()?,
        set: line.sig()?,
        clr: line.sig()?,
        load: line.sig()?,
        ad: line.sig()?,
        pol,
        value,
        init,
    })
}

fn memory(line: &mut Line) -> Option<Mem> {
    let width = line.number()?;
    let size = line.number()?;
    let offset = line.number()?;
    Some(Mem {
        width,
        size,
        offset,
        init: line.bits()?,
        reads: Items::new(line.alloc),
        writes: Items::new(line.alloc),
    })
}

fn read_port(line: &mut Line) -> Option<ReadPort> {
    let clocked = line.flag()?;
    let rising = line.flag()?;
    let see = line.flags()?;
    let init = line.bits()?;
    Some(ReadPort {
        clocked,
        rising,
        clk: line.sig()?,
        en: line.sig()?,
        addr: line.sig()?,
        see,
        init,
    })
}

fn write_port(line: &mut Line) -> Option<WritePort> {
    Some(WritePort {
        rising: line.flag()?,
        clk: line.sig()?,
        en: line.sig()?,
        addr: line.sig()?,
        word: line.sig()?,
    })
}

fn node(line: &mut Line) -> Option<ItemKind> {
    let net = line.number()?;
    let lsb_at = line.word()?.parse::<i32>().ok()?;
    Some(ItemKind::Node {
        net,
        lsb_at,
        input: line.flag()?,
        output: line.flag()?,
    })
}

fn item(is_node: bool, line: &mut Line) -> Option<Item> {
    let name = line.name()?;
    let scope = line.number()?;
    let first_slot = line.number()?;
    let kind = if is_node {
        node(line)?
    } else {
        ItemKind::Memory {
            mem: line.number()?,
        }
    };
    Some(Item {
        name,
        scope,
        kind,
        src: line.name_or_none()?,
        first_slot,
    })
}

fn scope(line: &mut Line) -> Option<Scope> {
    Some(Scope {
        name: line.name()?,
        module: line.name()?,
        module_src: line.name_or_none()?,
        cell_src: line.name_or_none()?,
    })
}

fn trigger(line: &mut Line) -> Option<Option<Trigger>> {
    let on = line.sig()?;
    let rising = line.flags()?;
    if on.is_empty() && rising.is_empty() {
        return Some(None);
    }
    Some(Some(Trigger { on, rising }))
}

fn diagnostic(kind: DiagKind, line: &mut Line) -> Option<Diag> {
    Some(Diag {
        kind,
        text: line.name()?,
        src: line.name_or_none()?,
        a: line.sig()?,
        en: line.sig()?,
        trigger: trigger(line)?,
    })
}
