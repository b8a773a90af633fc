//! How a cell that drives nothing is read.
ghost use Rattle.std.specs.Prelude.{◌≡◌, ◌-◌, ◌^◌, ◌++◌, IfOk, OnOk, min, true};
ghost use Rattle.std.specs.Option.{option_copied};
ghost use Rattle.design_wires.specs.Places.{seen_here};
ghost use Rattle.design_diagnostics.specs.declared.names.Parameter.TheVariants as parameter;
ghost use Rattle.design_diagnostics.specs.Readings as spec;

use crate::names::{Parameter, SilentType};
use circuit::DiagKind;
use design_cells::capped;
use design_wires::{Here, const_text};
use rtlil_signals::const_bits;
use rtlil_tree::Setting;
use sim_base::{Bits, Name, NoMemory};
use std::alloc::Global;

/// How a diagnostic is read.
#[derive(Clone, Copy, Debug, PartialEq, Eq)]
pub struct Reading {
    pub kind: DiagKind,
    /// Whether it has a trigger, which may be looked at or not.
    pub has_trigger: bool,
}

/// What is written for a parameter.
pub(crate) fn setting_at<'s, 't>(
    settings: &'s [Setting<'t>],
    parameter: Parameter,
) -> Option<&'s Setting<'t>>
    ensures { option_copied result ≡ spec.setting_at settings.now parameter }
{
    let name = parameter.name();
    for setting in settings {
        if setting.name.as_bytes() == name {
            return Some(setting);
        }
    }
    None
}

pub(crate) fn value_at(
    alloc: Global,
    settings: &[Setting],
    parameter: Parameter,
) -> Result<Bits, NoMemory>
    ensures { IfOk result (λ value. value ≡ spec.value_at settings.now parameter) }
{
    match setting_at(settings, parameter) {
        Some(setting) => const_bits(alloc, &setting.value),
        None => Bits::zero(alloc, 0),
    }
}

/// A parameter as a number of 64 bits, the greatest one where it is above that.
pub(crate) fn number_at(
    alloc: Global,
    settings: &[Setting],
    parameter: Parameter,
) -> Result<u64, NoMemory>
    ensures { IfOk result (λ number. number ≡ spec.number_at settings.now parameter) }
{
    let value = value_at(alloc, settings, parameter)?;
    Ok(capped(&value))
}

fn flavor_of(text: &[u8]) -> Option<Reading>
    ensures { result ≡ spec.flavor_of text.now }
{
    if text == b"assert".as_slice() {
        Some(Reading {
            kind: DiagKind::Assert,
            has_trigger: true,
        })
    } else if text == b"assume".as_slice() {
        Some(Reading {
            kind: DiagKind::Assume,
            has_trigger: true,
        })
    } else {
        None
    }
}

fn flavor(alloc: Global, settings: &[Setting]) -> Result<Option<Reading>, NoMemory>
    ensures { IfOk result (λ reading. reading ≡ spec.flavor_in (spec.setting_at settings.now parameter.Flavor)) }
{
    let Some(setting) = setting_at(settings, Parameter::Flavor) else {
        return Ok(None);
    };
    match const_text(alloc, &setting.value)? {
        Some(text) => Ok(flavor_of(text.as_bytes())),
        None => Ok(None),
    }
}

/// How a cell of a type is read; one without a reading has no effect.
pub(crate) fn reading_of(
    alloc: Global,
    silent: SilentType,
    settings: &[Setting],
) -> Result<Option<Reading>, NoMemory>
    ensures { IfOk result (λ reading. reading ≡ spec.reading_of silent settings.now) }
{
    match silent {
        SilentType::Assert => Ok(Some(Reading {
            kind: DiagKind::Assert,
            has_trigger: false,
        })),
        SilentType::Assume => Ok(Some(Reading {
            kind: DiagKind::Assume,
            has_trigger: false,
        })),
        SilentType::Check => flavor(alloc, settings),
        SilentType::Cover
        | SilentType::Fair
        | SilentType::Live
        | SilentType::Print
        | SilentType::ScopeInfo => Ok(None),
    }
}

pub(crate) fn has_trigger(reading: Option<Reading>) -> bool
    ensures { result ≡ spec.has_trigger reading }
{
    match reading {
        Some(reading) => reading.has_trigger,
        None => false,
    }
}

// ---- texts

fn put_shown(begins: bool, byte: u8, bytes: &mut Vec<u8>) -> Result<(), NoMemory>
    ensures { OnOk result (bytes.new.items ≡ bytes.old.items ++ spec.shown_byte begins byte) }
{
    if begins && byte == b'\\' {
        return Ok(());
    }
    bytes.push(byte)?;
    Ok(())
}

/// The identifiers of a path, each without the `\` with which it begins.
fn shown_path(alloc: Global, path: &[u8]) -> Result<Name, NoMemory>
    ensures { IfOk result (λ text. text ≡ spec.shown_path true path.now) }
{
    let mut bytes = Vec::new(alloc);
    let mut begins = true;
    for byte in path {
        put_shown(begins, *byte, &mut bytes)?;
        begins = *byte == b' ';
    }
    Ok(Name::new(bytes))
}

/// The text of the cell of a name.
pub(crate) fn cell_text(alloc: Global, here: &Here, name: &[u8]) -> Result<Name, NoMemory>
    ensures { IfOk result (λ text. text ≡ spec.cell_text (seen_here here.now) name.now) }
{
    let mut path = Vec::from_slice(alloc, here.prefix)?;
    path.extend_from_slice(name)?;
    shown_path(alloc, path.as_slice())
}
