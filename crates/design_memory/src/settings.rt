//! What a memory is given: numbers and bits.
ghost use Rattle.std.specs.Prelude.{◌≡◌, ◌-◌, ◌^◌, IfOk, min};
ghost use Rattle.std.specs.Option.{option_copied};
ghost use Rattle.design_memory.specs.Settings as spec;

use crate::names::Parameter;
use design_cells::capped;
use rtlil_signals::const_bits;
use rtlil_tree::Setting;
use sim_base::{Bits, NoMemory};
use std::alloc::Global;

/// The numbers that a memory is given. One of 2^64 and above stands as 2^64 - 1.
#[derive(Clone, Copy, Debug, PartialEq, Eq)]
pub struct Shape {
    /// How many rows there are.
    pub size: u64,
    /// The address of the first row.
    pub offset: u64,
    /// Of an address, in bits.
    pub address_width: u64,
    /// Of a row, in bits.
    pub width: u64,
    /// How many read ports there are.
    pub reads: u64,
    /// How many write ports there are.
    pub writes: u64,
}

/// The bits that a memory is given.
#[derive(Debug, Drop)]
pub struct Values {
    /// The rows before the first sample, row 0 lowest.
    pub init: Bits,
    /// A bit for each read port: whether it has a clock.
    pub clocked_reads: Bits,
    /// A bit for each read port: whether its clock's edge is the rising one.
    pub rising_reads: Bits,
    /// For each read port a bit for each write port: whether it sees what that one writes at the same edge.
    pub sees: Bits,
    /// For each read port the value of a row before the first sample.
    pub starts: Bits,
    /// A bit for each write port: whether it has a clock.
    pub clocked_writes: Bits,
    /// A bit for each write port: whether its clock's edge is the rising one.
    pub rising_writes: Bits,
}

/// What is written for a parameter.
pub(crate) fn setting_at<'s, 't>(
    settings: &'s [Setting<'t>],
    parameter: Parameter,
) -> Option<&'s Setting<'t>>
    ensures { option_copied result ≡ spec.setting_at settings.now parameter }
{
    let name = parameter.name();
    for setting in settings {
        if setting.name.as_bytes() == name {
            return Some(setting);
        }
    }
    None
}

fn value_at(alloc: Global, settings: &[Setting], parameter: Parameter) -> Result<Bits, NoMemory>
    ensures { IfOk result (λ value. value ≡ spec.value_at settings.now parameter) }
{
    match setting_at(settings, parameter) {
        Some(setting) => const_bits(alloc, &setting.value),
        None => Bits::zero(alloc, 0),
    }
}

/// A parameter as a number of 64 bits, the greatest one where it is above that.
pub(crate) fn number_at(
    alloc: Global,
    settings: &[Setting],
    parameter: Parameter,
) -> Result<u64, NoMemory>
    ensures { IfOk result (λ number. number ≡ spec.number_at settings.now parameter) }
{
    let value = value_at(alloc, settings, parameter)?;
    Ok(capped(&value))
}

#[tactic(auto, unfolding(crate::specs::Settings::shape_of))]
pub(crate) fn shape_of(alloc: Global, settings: &[Setting]) -> Result<Shape, NoMemory>
    ensures { IfOk result (λ shape. shape ≡ spec.shape_of settings.now) }
{
    Ok(Shape {
        size: number_at(alloc, settings, Parameter::Size)?,
        offset: number_at(alloc, settings, Parameter::Offset)?,
        address_width: number_at(alloc, settings, Parameter::AddressWidth)?,
        width: number_at(alloc, settings, Parameter::Width)?,
        reads: number_at(alloc, settings, Parameter::ReadPorts)?,
        writes: number_at(alloc, settings, Parameter::WritePorts)?,
    })
}

#[tactic(auto, unfolding(crate::specs::Settings::values_of))]
pub(crate) fn values_of(alloc: Global, settings: &[Setting]) -> Result<Values, NoMemory>
    ensures { IfOk result (λ values. values ≡ spec.values_of settings.now) }
{
    Ok(Values {
        init: value_at(alloc, settings, Parameter::Init)?,
        clocked_reads: value_at(alloc, settings, Parameter::ReadClockEnable)?,
        rising_reads: value_at(alloc, settings, Parameter::ReadClockPolarity)?,
        sees: value_at(alloc, settings, Parameter::ReadTransparencyMask)?,
        starts: value_at(alloc, settings, Parameter::ReadInitValue)?,
        clocked_writes: value_at(alloc, settings, Parameter::WriteClockEnable)?,
        rising_writes: value_at(alloc, settings, Parameter::WriteClockPolarity)?,
    })
}

/// Whether a bit of a value is 1; those beyond it are 0.
#[tactic(auto, using(crate::proofs::Bits::set_inside, crate::proofs::Bits::set_beyond))]
pub fn is_set(value: &Bits, at: u64) -> bool
    ensures { result ≡ spec.is_set value.now at }
{
    at < value.width() as u64 && value.bit(at as u32)
}
