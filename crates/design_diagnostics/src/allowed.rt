//! The checks of a cell that drives nothing.
ghost use Rattle.std.specs.Prelude.{◌≡◌, ◌≤◌, OnOk, IfOk, true};
ghost use Rattle.circuit.specs.Valid.{widest};
ghost use Rattle.design_parts.specs.Parts.{Passes};
ghost use Rattle.design_wires.specs.Connects.{or_none};
ghost use Rattle.design_wires.specs.Places.{seen_here};
ghost use Rattle.circuit.specs.Signal.{sig_width};
ghost use Rattle.design_cells.specs.Joined.{seen_port, seen_ports};
ghost use Rattle.design_diagnostics.specs.Readings as readings;
ghost use Rattle.design_diagnostics.specs.declared.names.Parameter.TheVariants as parameter;
ghost use Rattle.design_diagnostics.specs.Rules as spec;

use crate::names::{Parameter, Port};
use crate::reading::{Reading, has_trigger, setting_at};
use circuit::DesignKind;
use design_cells::JoinedPort;
use design_parts::{Draft, Refusal, refused_at};
use design_wires::Here;
use rtlil_signals::width_of;
use rtlil_tree::Setting;
use sim_base::Name;
use std::alloc::Global;

/// The most bits of a port.
const WIDEST: u64 = 65536;

fn are_given(settings: &[Setting]) -> bool
    ensures { result ≡ spec.are_given settings.now }
{
    setting_at(settings, Parameter::TriggerEnable).is_some()
        && setting_at(settings, Parameter::TriggerWidth).is_some()
        && setting_at(settings, Parameter::TriggerPolarity).is_some()
}

fn parameters_fit(reading: Option<Reading>, settings: &[Setting], width: u64) -> bool
    requires { width ≡ readings.number_at settings.now parameter.TriggerWidth }
    ensures { result ≡ spec.parameters_fit reading settings.now }
{
    !has_trigger(reading) || are_given(settings) && width < 0x8000_0000
}

fn read_width(reading: &Reading, width: u64, name: &[u8]) -> Option<u64>
    ensures { result ≡ spec.read_width reading.now width name.now }
{
    if name == Port::Value.name() || name == Port::Enable.name() {
        Some(1)
    } else if reading.has_trigger && name == Port::Trigger.name() {
        Some(width)
    } else {
        None
    }
}

fn port_width(reading: Option<Reading>, width: u64, name: &[u8]) -> Option<u64>
    ensures { result ≡ spec.port_width reading width name.now }
{
    match reading {
        Some(reading) => read_width(&reading, width, name),
        None => None,
    }
}

fn has_width(wanted: Option<u64>, width: u128) -> bool
    ensures { result ≡ spec.has_width wanted width }
{
    match wanted {
        Some(wanted) => wanted as u128 == width,
        None => true,
    }
}

fn is_joined(reading: Option<Reading>, width: u64, port: &JoinedPort) -> bool
    ensures { result ≡ spec.is_joined reading width (seen_port port.now) }
{
    match &port.spans {
        Some(spans) => has_width(
            port_width(reading, width, port.port.as_bytes()),
            width_of(spans.as_slice()),
        ),
        None => false,
    }
}

/// Each wire is there.
fn are_known(joined: &[JoinedPort]) -> bool
    ensures { result ≡ spec.are_known (seen_ports joined.now) }
{
    for port in joined {
        if !port.is_named {
            return false;
        }
    }
    true
}

/// Each slice is inside, and each port that is not ignored is joined to as many bits as it has.
fn are_joined(reading: Option<Reading>, width: u64, joined: &[JoinedPort]) -> bool
    ensures { result ≡ spec.are_joined reading width (seen_ports joined.now) }
{
    for port in joined {
        if !is_joined(reading, width, port) {
            return false;
        }
    }
    true
}

fn joined_width(port: &JoinedPort) -> u128
    ensures { result ≡ sig_width (or_none (seen_port port.now).pieces) }
{
    match &port.spans {
        Some(spans) => width_of(spans.as_slice()),
        None => 0,
    }
}

fn are_narrow(joined: &[JoinedPort]) -> bool
    ensures { result ≡ spec.are_narrow (seen_ports joined.now) }
{
    for port in joined {
        if joined_width(port) > WIDEST as u128 {
            return false;
        }
    }
    true
}

fn is_narrow_trigger(reading: Option<Reading>, width: u64) -> bool
    ensures value { result ≡ spec.is_narrow_trigger reading width }
    ensures below { result ≡ true → readings.has_trigger reading ≡ true → width ≤ widest }
{
    !has_trigger(reading) || width <= WIDEST
}

/// What has no effect takes no room.
fn has_room(reading: Option<Reading>, text: &Name, draft: &Draft) -> bool
    ensures { result ≡ spec.has_room reading text.now draft.now }
{
    match reading {
        Some(_) => design_cells::has_room(draft) && text.len() as u128 <= u32::MAX as u128,
        None => true,
    }
}

/// The checks of a cell that drives nothing, in their order.
#[tactic(auto, using(crate::proofs::Steps::says_fails), unfolding(crate::specs::Rules::silent_checks))]
pub(crate) fn allowed(
    alloc: Global,
    here: &Here,
    name: &[u8],
    reading: Option<Reading>,
    settings: &[Setting],
    joined: &[JoinedPort],
    width: u64,
    text: &Name,
    draft: &Draft,
) -> Result<(), Refusal>
    requires width { width ≡ readings.number_at settings.now parameter.TriggerWidth }
    requires text { text.now ≡ readings.cell_text (seen_here here.now) name.now }
    ensures passes { Passes (spec.silent_checks (seen_here here.now) name.now reading settings.now (seen_ports joined.now) draft.now) result }
    ensures narrow { OnOk result (readings.has_trigger reading ≡ true → width ≤ widest) }
{
    if !parameters_fit(reading, settings, width) {
        return Err(refused_at(alloc, DesignKind::BadParameter, here.owner, name));
    }
    if !are_known(joined) {
        return Err(refused_at(alloc, DesignKind::UnknownName, here.owner, name));
    }
    if !are_joined(reading, width, joined) {
        return Err(refused_at(alloc, DesignKind::Width, here.owner, name));
    }
    if !are_narrow(joined) || !is_narrow_trigger(reading, width) {
        return Err(refused_at(alloc, DesignKind::TooWide, here.owner, name));
    }
    if !has_room(reading, text, draft) {
        return Err(refused_at(alloc, DesignKind::TooLarge, here.owner, name));
    }
    Ok(())
}
