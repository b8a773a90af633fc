//! Registers with their start values.
ghost use Rattle.std.specs.Prelude.{◌≡◌, ℕ, ◌<◌, ◌^◌, ◌==◌, ◌∷◌, IfOk, List, length, map, option_copied, reverse, if◌then◌else◌};
ghost use Rattle.std.specs.Int.{bit_at};
ghost use Rattle.sim_base.specs.BitValue.{digit_of, zeros};
ghost use Rattle.driver_check.specs.Numbers.{IsNumbering};
ghost use Rattle.design_starts.specs.Chains.{IsOrigin, IsTable};
ghost use Rattle.design_starts.specs.Starts.{HaveDigits, started, with_values};
ghost use Rattle.design_starts.specs.declared.marks.Mark.{Mark as TheMark};

use crate::chains::Chains;
use crate::marks::{Mark, marks_of};
use crate::taken::Taken;
use circuit::{Circuit, Listing, Reg};
use rtlil_tree::Const;
use sim_base::{Bits, NoMemory};
use sqlite_items::Items;
use std::alloc::Global;

fn zeros_of(alloc: Global, regs: &[Reg]) -> Result<Listing<Bits>, NoMemory>
    ensures { IfOk result (λ values. values ≡ map (λ r. zeros r.width) regs.now) }
{
    let mut values = Listing::new(alloc);
    for reg in regs {
        values.push(Bits::zero(alloc, reg.width)?)?;
    }
    Ok(values)
}

/// Writes a bit, if the value has it.
fn set_bit(value: &mut Bits, bit: u64, digit: bool)
    ensures width { value.new.width ≡ value.old.width }
    ensures below { value.new.number < 2 ^ value.new.width }
    ensures bits { (i : ℕ) → i < value.old.width → bit_at value.new.number i ≡ (if i == bit then digit_of digit else bit_at value.old.number i) }
{
    let width = value.width();
    if bit < width as u64 {
        value.set(bit as u32, digit);
    }
}

/// Gives a digit to the register bit from which a mark comes, if there is one.
fn give(circuit: &Circuit, end: Taken, mark: &Mark, values: &mut Listing<Bits>)
    requires end { IsOrigin circuit.now (mark.now.net, mark.now.bit) end }
    ensures { (ms : List TheMark) → HaveDigits circuit.now ms values.old → HaveDigits circuit.now (mark.now ∷ ms) values.new }
{
    let _ = circuit;
    if let Taken::Register(register, bit) = end {
        if (register as usize) < values.len() {
            set_bit(values.at(register as usize), bit, mark.digit);
        }
    }
}

/// The values of all registers, from the last mark to the first: the first that comes from a register bit is the
/// last that is written to it.
fn values_of(alloc: Global, circuit: &Circuit, marks: &[Mark]) -> Result<Listing<Bits>, NoMemory>
    ensures { IfOk result (λ values. HaveDigits circuit.now marks.now values) }
{
    let mut values = zeros_of(alloc, circuit.regs.as_slice())?;
    if marks.is_empty() {
        return Ok(values);
    }
    let mut chains = Chains::new(alloc, circuit)?;
    for done in 0..marks.len() {
        let mark = &marks[marks.len() - 1 - done];
        let end = chains.origin(alloc, circuit, mark.net, mark.bit)?;
        give(circuit, end, mark, &mut values);
    }
    Ok(values)
}

fn with_init(reg: Reg, init: Bits) -> Reg
    ensures { result ≡ (record reg { init = init }) }
{
    Reg { init, ..reg }
}

/// The registers in reverse.
fn reversed(alloc: Global, regs: Items<Reg>) -> Result<Items<Reg>, NoMemory>
    ensures { IfOk result (λ found. found ≡ reverse regs) }
{
    let mut rest = regs;
    let mut found = Items::new(alloc);
    'registers: while let Some(reg) = rest.pop() {
        found.push(reg)?;
    }
    Ok(found)
}

/// The registers with these values before the first sample.
fn with_values(alloc: Global, regs: Items<Reg>, values: &[Bits]) -> Result<Items<Reg>, NoMemory>
    requires { length values.now ≡ length regs }
    ensures { IfOk result (λ found. found ≡ with_values regs values.now) }
{
    let mut rest = reversed(alloc, regs)?;
    let mut found = Items::new(alloc);
    'registers: while let Some(reg) = rest.pop() {
        let init = values[found.len()].try_clone(alloc)?;
        found.push(with_init(reg, init))?;
    }
    Ok(found)
}

/// Gives each register of a circuit its start value, whatever it had: of each of its bits the digit of `\init` on the
/// first net bit, in net order, among those that it drives directly or through wires alone, whose digit there is 0 or 1,
/// and otherwise 0. There is one entry for each net: its constant of `\init`, if it has one. Where a bit has several
/// drives the first of them counts, and bits that drive each other in a circle come from no register.
pub fn with_starts(
    alloc: Global,
    circuit: Circuit,
    inits: &[Option<&Const>],
) -> Result<Circuit, NoMemory>
    ensures { IfOk result (λ found. found ≡ started circuit (map option_copied inits.now)) }
{
    let marks = marks_of(alloc, circuit.nets.as_slice(), inits)?;
    let values = values_of(alloc, &circuit, &marks)?;
    let regs = with_values(alloc, circuit.regs, values.as_slice())?;
    Ok(Circuit { regs, ..circuit })
}
