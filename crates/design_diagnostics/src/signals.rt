//! The signals of a diagnostic.
ghost use Rattle.std.specs.Prelude.{◌≡◌, ◌<◌, ◌^◌, IfOk, true};
ghost use Rattle.design_cells.specs.Joined.{seen_ports};
ghost use Rattle.design_diagnostics.specs.Readings as readings;
ghost use Rattle.design_diagnostics.specs.declared.names.Parameter.TheVariants as parameter;
ghost use Rattle.design_diagnostics.specs.Diagnostics as spec;

use crate::names::{Parameter, Port};
use crate::reading::{Reading, number_at, value_at};
use circuit::{Piece, Trigger};
use design_cells::{JoinedPort, joined_at, zero_signal};
use design_memory::is_set;
use rtlil_signals::sig_of;
use rtlil_tree::Setting;
use sim_base::{Bits, NoMemory};
use sqlite_items::Items;
use std::alloc::Global;

/// The signal at a port; where nothing is joined, zeros of its width.
pub(crate) fn signal_at(
    alloc: Global,
    ports: &[JoinedPort],
    port: Port,
    width: u32,
) -> Result<Items<Piece>, NoMemory>
    ensures { IfOk result (λ sig. sig ≡ spec.signal_at (seen_ports ports.now) port width) }
{
    let Some(joined) = joined_at(ports, port.name()) else {
        return zero_signal(alloc, width);
    };
    match &joined.spans {
        Some(spans) => sig_of(alloc, spans.as_slice()),
        None => Ok(Items::new(alloc)),
    }
}

/// For each bit of a trigger whether its edge is the rising one.
#[tactic(auto, using(crate::proofs::Steps::map_more))]
fn rising_of(alloc: Global, polarity: &Bits, width: u32) -> Result<Items<bool>, NoMemory>
    ensures { IfOk result (λ rising. rising ≡ spec.rising_of polarity.now width) }
{
    let mut rising = Items::new(alloc);
    for at in 0..width {
        rising.push(is_set(polarity, at as u64))?;
    }
    Ok(rising)
}

fn trigger_of(
    alloc: Global,
    polarity: &Bits,
    width: u32,
    ports: &[JoinedPort],
) -> Result<Trigger, NoMemory>
    ensures { IfOk result (λ trigger. trigger ≡ spec.trigger_of polarity.now width (seen_ports ports.now)) }
{
    Ok(Trigger {
        on: signal_at(alloc, ports, Port::Trigger, width)?,
        rising: rising_of(alloc, polarity, width)?,
    })
}

/// What triggers a diagnostic, where that is enabled.
pub(crate) fn trigger_if(
    alloc: Global,
    reading: &Reading,
    settings: &[Setting],
    ports: &[JoinedPort],
    width: u64,
) -> Result<Option<Trigger>, NoMemory>
    requires width { width ≡ readings.number_at settings.now parameter.TriggerWidth }
    requires narrow { reading.now.has_trigger ≡ true → width < 2 ^ 32 }
    ensures { IfOk result (λ trigger. trigger ≡ spec.trigger_if reading.now settings.now (seen_ports ports.now)) }
{
    if !reading.has_trigger || number_at(alloc, settings, Parameter::TriggerEnable)? == 0 {
        return Ok(None);
    }
    let polarity = value_at(alloc, settings, Parameter::TriggerPolarity)?;
    Ok(Some(trigger_of(alloc, &polarity, width as u32, ports)?))
}
