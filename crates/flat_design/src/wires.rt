//! Wires: what they must be, and what they add to a circuit.
ghost use Rattle.std.specs.Prelude.{◌≡◌, ◌≢◌, ◌<◌, ◌≤◌, ◌+◌, ◌^◌, ◌||◌, not, length, count_by, find, IfOk, OnOk, Err};
ghost use Rattle.std.specs.List.{list_all};
ghost use Rattle.std.specs.Option.{option_copied};
ghost use Rattle.flat_design.specs.Wires.{is_word_width, is_wire, is_input, is_output, is_init, is_digits_of, digits_or_zeros, start_of, with_wire, with_wires};

use crate::names::{has_backslash, is_named};
use circuit::{By, Circuit, Drive, Net};
use flat_text::{Attribute, Constant, FlatFault, Port, Wire};
use sim_base::Bits;
use std::alloc::Global;

/// Whether a value of this width is one word of 64 bits.
pub fn is_word_width(width: u32) -> bool
    ensures { result ≡ is_word_width width }
{
    1 <= width && width <= 64
}

pub fn is_input(wire: &Wire) -> bool
    ensures { result ≡ is_input wire.now.port }
{
    matches!(wire.port, Port::Input)
}

pub fn is_output(wire: &Wire) -> bool
    ensures { result ≡ is_output wire.now.port }
{
    matches!(wire.port, Port::Output)
}

fn is_init(attribute: &Attribute) -> bool
    ensures { result ≡ is_init attribute.now }
{
    is_named(&attribute.name, b"\\init")
}

fn is_digits_of(width: u32, value: &Constant) -> bool
    ensures { result ≡ is_digits_of width value.now }
{
    match value {
        Constant::Digits(digits) => digits.width() == width,
        _ => false,
    }
}

fn count_of_inits(attributes: &[Attribute]) -> usize
    ensures { result ≡ count_by is_init attributes.now }
{
    attributes.iter().filter(|a| is_init(a)).count()
}

fn are_inits_of(width: u32, attributes: &[Attribute]) -> bool
    ensures { result ≡ list_all (λ a. not (is_init a) || is_digits_of width a.value) attributes.now }
{
    attributes
        .iter()
        .all(|a| !is_init(a) || is_digits_of(width, &a.value))
}

/// Whether a wire is of a form that is known.
#[tactic(auto, unfolding(crate::specs::Wires::is_wire))]
pub fn is_wire(wire: &Wire) -> bool
    ensures { result ≡ is_wire wire.now }
{
    let attributes = wire.attributes.as_slice();
    is_word_width(wire.width)
        && (!is_input(wire) || has_backslash(&wire.name))
        && (count_of_inits(attributes) <= 1 && are_inits_of(wire.width, attributes))
}

fn find_init(attributes: &[Attribute]) -> Option<&Attribute>
    ensures { option_copied result ≡ find is_init attributes.now }
{
    attributes.iter().find(|a| is_init(a))
}

fn digits_or_zeros(alloc: Global, width: u32, value: &Constant) -> Result<Bits, FlatFault>
    ensures ok { IfOk result (λ b. b ≡ digits_or_zeros width value.now) }
    ensures memory { result ≢ Err FlatFault.NotBuilt }
{
    match value {
        Constant::Digits(digits) => Ok(digits.try_clone(alloc)?),
        _ => Ok(Bits::zero(alloc, width)?),
    }
}

/// The value that a register begins with whose output the wire is.
#[tactic(auto, unfolding(crate::specs::Wires::start_of))]
pub fn start_of(alloc: Global, wire: &Wire) -> Result<Bits, FlatFault>
    ensures ok { IfOk result (λ b. b ≡ start_of wire.now) }
    ensures memory { result ≢ Err FlatFault.NotBuilt }
{
    match find_init(wire.attributes.as_slice()) {
        None => Ok(Bits::zero(alloc, wire.width)?),
        Some(a) => digits_or_zeros(alloc, wire.width, &a.value),
    }
}

/// Adds the wire's net, and for an input its drive.
#[tactic(auto, unfolding(crate::specs::Wires::with_wire))]
pub fn add_wire(alloc: Global, circuit: &mut Circuit, wire: &Wire) -> Result<(), FlatFault>
    requires nets { length circuit.old.nets < 2 ^ 32 }
    requires inputs { length circuit.old.inputs < 2 ^ 32 }
    ensures ok { OnOk result (circuit.new ≡ with_wire circuit.old wire.now) }
    ensures cells { OnOk result ((circuit.new.cells ≡ circuit.old.cells) × (circuit.new.regs ≡ circuit.old.regs)) }
    ensures grown { OnOk result ((length circuit.new.nets ≤ length circuit.old.nets + 1) × (length circuit.new.inputs ≤ length circuit.old.inputs + 1)) }
    ensures memory { result ≢ Err FlatFault.NotBuilt }
{
    let net = circuit.nets.len() as u32;
    let width = wire.width;
    circuit.nets.push(Net {
        path: wire.name.clone()?,
        width,
    })?;
    if is_input(wire) {
        let place = circuit.inputs.len() as u32;
        circuit.inputs.push(net)?;
        circuit.drives.push(Drive {
            net,
            at: 0,
            width,
            by: By::Input(place, 0),
        })?;
    }
    Ok(())
}

/// Adds the wires in their order.
pub fn add_wires(alloc: Global, circuit: &mut Circuit, wires: &[Wire]) -> Result<(), FlatFault>
    requires nets { length circuit.old.nets + length wires.now ≤ 2 ^ 32 }
    requires inputs { length circuit.old.inputs + length wires.now ≤ 2 ^ 32 }
    ensures ok { OnOk result (circuit.new ≡ with_wires circuit.old wires.now) }
    ensures memory { result ≢ Err FlatFault.NotBuilt }
    ensures cells { OnOk result ((circuit.new.cells ≡ circuit.old.cells) × (circuit.new.regs ≡ circuit.old.regs)) }
{
    for wire in wires {
        add_wire(alloc, circuit, wire)?;
    }
    Ok(())
}
