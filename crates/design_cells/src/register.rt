//! A register or a latch of the library.
ghost use Rattle.std.specs.Prelude.{◌≡◌, ◌<◌, ◌^◌, IfOk, None, OnOk, bytes_eq, find, length};
ghost use Rattle.std.specs.Option.{option_copied};
ghost use Rattle.cell_library.specs.Checks as library;
ghost use Rattle.cell_library.specs.Names.{parameter_name};
ghost use Rattle.cell_library.specs.Table.{seen};
ghost use Rattle.circuit.specs.Valid.{widest};
ghost use Rattle.circuit.specs.declared.fault.DesignKind.TheVariants as fault;
ghost use Rattle.design_parts.specs.Parts.{both_made};
ghost use Rattle.design_cells.specs.Joined.{seen_ports};
ghost use Rattle.design_cells.specs.Cells as spec;

use crate::ports::JoinedPort;
use crate::signals::{drive_output, flag, has, signal_at};
use cell_library::{Line, Parameter, PortName, Setting, port_named, port_width};
use circuit::{Polarity, Reg, RegKind};
use design_parts::Draft;
use rtlil_signals::{Source, const_part};
use rtlil_tree::Setting as WrittenSetting;
use sim_base::{Bits, NoMemory};
use std::alloc::Global;

/// What clears a register or resets it.
fn clear_port(line: &Line) -> PortName
    ensures { result ≡ spec.clear_port (seen line.now) }
{
    if port_named(line.ports, PortName::Clr.name()).is_some() {
        PortName::Clr
    } else if port_named(line.ports, PortName::Arst.name()).is_some() {
        PortName::Arst
    } else {
        PortName::Srst
    }
}

fn polarity_of(line: &Line, settings: &[Setting]) -> Polarity
    ensures { result ≡ spec.polarity_of (seen line.now) settings.now }
{
    Polarity {
        clk: flag(line, settings, Parameter::ClkPolarity),
        en: flag(line, settings, Parameter::EnPolarity),
        set: flag(line, settings, Parameter::SetPolarity),
        clr: flag(line, settings, Parameter::ClrPolarity)
            || flag(line, settings, Parameter::ArstPolarity)
            || flag(line, settings, Parameter::SrstPolarity),
        load: flag(line, settings, Parameter::AloadPolarity),
    }
}

/// What is written for a parameter.
fn written_at<'s, 't>(
    written: &'s [WrittenSetting<'t>],
    parameter: Parameter,
) -> Option<&'s WrittenSetting<'t>>
    ensures { option_copied result ≡ find (λ s. bytes_eq s.name (parameter_name parameter)) written.now }
{
    let name = parameter.name();
    for setting in written {
        if setting.name.as_bytes() == name {
            return Some(setting);
        }
    }
    None
}

/// The bits of a parameter, so many of them.
fn bits_at(
    alloc: Global,
    written: &[WrittenSetting],
    parameter: Parameter,
    width: u32,
) -> Result<Bits, NoMemory>
    ensures { IfOk result (λ bits. bits ≡ spec.bits_at written.now parameter width) }
{
    match written_at(written, parameter) {
        Some(setting) => const_part(alloc, &setting.value, 0, width),
        None => Bits::zero(alloc, width),
    }
}

/// What a reset gives.
fn reset_value(
    alloc: Global,
    line: &Line,
    written: &[WrittenSetting],
    width: u32,
) -> Result<Bits, NoMemory>
    ensures { IfOk result (λ bits. bits ≡ spec.reset_value (seen line.now) written.now width) }
{
    if has(line, Parameter::ArstValue) {
        bits_at(alloc, written, Parameter::ArstValue, width)
    } else if has(line, Parameter::SrstValue) {
        bits_at(alloc, written, Parameter::SrstValue, width)
    } else {
        Bits::zero(alloc, width)
    }
}

fn register_of(
    alloc: Global,
    kind: RegKind,
    line: &Line,
    written: &[WrittenSetting],
    settings: &[Setting],
    ports: &[JoinedPort],
) -> Result<Reg, NoMemory>
    requires { library.first_fault (library.limit_checks settings.now widest fault.TooWide line.now.ports.now) ≡ None }
    ensures { IfOk result (λ register. register ≡ spec.register_of kind (seen line.now) written.now settings.now (seen_ports ports.now)) }
{
    let width = port_width(settings, line.ports, PortName::Q);
    Ok(Reg {
        kind,
        width,
        clk: signal_at(alloc, line, settings, ports, PortName::Clk)?,
        d: signal_at(alloc, line, settings, ports, PortName::D)?,
        en: signal_at(alloc, line, settings, ports, PortName::En)?,
        set: signal_at(alloc, line, settings, ports, PortName::Set)?,
        clr: signal_at(alloc, line, settings, ports, clear_port(line))?,
        load: signal_at(alloc, line, settings, ports, PortName::Aload)?,
        ad: signal_at(alloc, line, settings, ports, PortName::Ad)?,
        pol: polarity_of(line, settings),
        value: reset_value(alloc, line, written, width)?,
        init: Bits::zero(alloc, width)?,
    })
}

/// Appends a register or a latch and what it drives.
#[tactic(auto, using(crate::proofs::Steps::made_register))]
pub(crate) fn push_register(
    alloc: Global,
    kind: RegKind,
    line: &Line,
    written: &[WrittenSetting],
    settings: &[Setting],
    ports: &[JoinedPort],
    draft: &mut Draft,
) -> Result<(), NoMemory>
    requires room { length draft.old.regs < 2 ^ 32 }
    requires limits { library.first_fault (library.limit_checks settings.now widest fault.TooWide line.now.ports.now) ≡ None }
    ensures { OnOk result (draft.new ≡ both_made draft.old (spec.register_made kind (seen line.now) written.now settings.now (seen_ports ports.now) draft.old)) }
{
    let number = draft.register_count() as u32;
    draft.push_register(register_of(alloc, kind, line, written, settings, ports)?)?;
    drive_output(ports, PortName::Q, Source::Register(number), draft)
}
