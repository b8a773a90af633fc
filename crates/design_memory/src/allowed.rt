//! The checks of a memory.
ghost use Rattle.std.specs.Prelude.{◌≡◌, ◌+◌, ◌*◌, ◌<◌, ◌≤◌, ◌^◌, IfOk, OnOk, length, option_map, sum_by, true};
ghost use Rattle.std.specs.List.{list_all};
ghost use Rattle.std.specs.Option.{is_some};
ghost use Rattle.circuit.specs.Valid.{widest};
ghost use Rattle.design_parts.specs.Parts.{Passes};
ghost use Rattle.design_wires.specs.Connects.{or_none};
ghost use Rattle.design_wires.specs.Places.{seen_here, seen_shown};
ghost use Rattle.design_cells.specs.Joined.{seen_port, seen_ports};
ghost use Rattle.design_memory.specs.Names.{port_named, port_width};
ghost use Rattle.design_memory.specs.Settings.{item_identifier, setting_at, shape_of, values_of};
ghost use Rattle.design_memory.specs.Rules as spec;

use crate::names::{Parameter, Port, needed, port_named, ports};
use crate::resets::stay_zero;
use crate::settings::{Shape, Values, is_set, number_at, setting_at};
use circuit::DesignKind;
use design_cells::JoinedPort;
use design_parts::{Draft, Refusal, refused_at};
use design_wires::{Here, Shown, name_fits};
use rtlil_signals::width_of;
use rtlil_tree::{Connection, Setting};
use sim_base::{Bits, Name, NoMemory};
use std::alloc::Global;

/// The most bits of a port and of a row.
const WIDEST: u64 = 65536;

/// The most rows of all memories.
const MOST_ROWS: u64 = 67_108_864;

/// The most bits of all memories.
const MOST_MEMORY_BITS: u64 = 67_108_864;

// ---- parameters

fn are_given(settings: &[Setting], parameters: &[Parameter]) -> bool
    ensures { result ≡ list_all (λ p. is_some (setting_at settings.now p)) parameters.now }
{
    for parameter in parameters {
        if setting_at(settings, *parameter).is_none() {
            return false;
        }
    }
    true
}

fn sizes_fit(shape: &Shape) -> bool
    ensures { result ≡ spec.sizes_fit shape.now }
{
    shape.offset < 0x8000_0000 && shape.address_width < 0x8000_0000 && shape.width < 0x8000_0000
}

/// So many bits of a value are 1.
#[tactic(auto, using(crate::proofs::Lists::all_more, crate::proofs::Lists::all_fails))]
fn are_set(value: &Bits, count: u64) -> bool
    ensures { result ≡ spec.are_set value.now count }
{
    for at in 0..count {
        if !is_set(value, at) {
            return false;
        }
    }
    true
}

/// No port goes on in another one.
fn are_single(alloc: Global, settings: &[Setting]) -> Result<bool, NoMemory>
    ensures { IfOk result (λ single. single ≡ spec.are_single settings.now) }
{
    if number_at(alloc, settings, Parameter::ReadWideContinuation)? != 0 {
        return Ok(false);
    }
    Ok(number_at(alloc, settings, Parameter::WriteWideContinuation)? == 0)
}

#[tactic(auto, unfolding(crate::specs::Rules::parameters_fit))]
fn parameters_fit(
    alloc: Global,
    settings: &[Setting],
    connections: &[Connection],
    shape: &Shape,
    values: &Values,
) -> Result<bool, NoMemory>
    requires shape { shape.now ≡ shape_of settings.now }
    requires values { values.now ≡ values_of settings.now }
    ensures value { IfOk result (λ fit. fit ≡ spec.parameters_fit settings.now connections.now) }
    ensures sizes { IfOk result (λ fit. fit ≡ true → spec.sizes_fit shape.now ≡ true) }
{
    if !are_given(settings, needed()) || !sizes_fit(shape) {
        return Ok(false);
    }
    if !are_set(&values.clocked_writes, shape.writes) || !are_single(alloc, settings)? {
        return Ok(false);
    }
    stay_zero(alloc, connections)
}

// ---- ports

/// Each port is one of a memory, and each wire at it is there.
#[tactic(auto, unfolding(crate::specs::Rules::are_known))]
fn are_known(joined: &[JoinedPort]) -> bool
    ensures { result ≡ spec.are_known (seen_ports joined.now) }
{
    for port in joined {
        if port_named(port.port.as_bytes()).is_none() || !port.is_named {
            return false;
        }
    }
    true
}

fn fits(shape: &Shape, port: Option<Port>, width: u128) -> bool
    ensures { result ≡ spec.fits shape.now port width }
{
    match port {
        Some(port) => port.width(shape) == width,
        None => true,
    }
}

fn is_joined(shape: &Shape, joined: &JoinedPort) -> bool
    ensures { result ≡ spec.is_joined shape.now (seen_port joined.now) }
{
    match &joined.spans {
        Some(spans) => fits(
            shape,
            port_named(joined.port.as_bytes()),
            width_of(spans.as_slice()),
        ),
        None => false,
    }
}

/// Each slice is inside, and each port is joined to as many bits as it has.
#[tactic(auto, unfolding(crate::specs::Rules::are_joined))]
fn are_joined(shape: &Shape, joined: &[JoinedPort]) -> bool
    ensures { result ≡ spec.are_joined shape.now (seen_ports joined.now) }
{
    for port in joined {
        if !is_joined(shape, port) {
            return false;
        }
    }
    true
}

fn within(shape: &Shape, ports: &[Port]) -> bool
    ensures { result ≡ spec.within shape.now ports.now }
{
    for port in ports {
        if port.width(shape) > WIDEST as u128 {
            return false;
        }
    }
    true
}

/// Each port is within the limit, joined or not, and so is a row.
#[tactic(auto, using(crate::proofs::Limits::narrow_reads, crate::proofs::Limits::narrow_writes), unfolding(crate::specs::Rules::are_narrow))]
fn are_narrow(shape: &Shape) -> bool
    ensures value { result ≡ spec.are_narrow shape.now }
    ensures reads { result ≡ true → shape.now.reads ≤ widest }
    ensures writes { result ≡ true → shape.now.writes ≤ widest }
{
    shape.width <= WIDEST && within(shape, ports())
}

// ---- room

fn identifier_fits(shown: &Option<Shown>, identifier: &Option<Name>) -> bool
    ensures { result ≡ spec.identifier_fits (option_map seen_shown shown.now) identifier.now }
{
    match identifier {
        Some(name) => name_fits(shown, name.as_bytes()),
        None => true,
    }
}

#[tactic(auto, unfolding(crate::specs::Rules::has_room))]
fn has_room(shown: &Option<Shown>, identifier: &Option<Name>, shape: &Shape, draft: &Draft) -> bool
    ensures value { result ≡ spec.has_room (option_map seen_shown shown.now) identifier.now shape.now draft.now }
    ensures count { result ≡ true → length draft.now.mems < 2 ^ 32 }
    ensures rows { result ≡ true → sum_by (λ m. m.size) draft.now.mems + shape.now.size ≤ spec.most_rows }
    ensures bits { result ≡ true → sum_by (λ m. m.size * m.width) draft.now.mems + shape.now.size * shape.now.width ≤ spec.most_memory_bits }
{
    design_cells::has_room(draft)
        && draft.row_count() as u128 + shape.size as u128 <= MOST_ROWS as u128
        && draft.memory_bit_count() as u128 + shape.size as u128 * shape.width as u128
            <= MOST_MEMORY_BITS as u128
        && identifier_fits(shown, identifier)
}

/// The checks of a memory, in their order.
#[tactic(auto, using(crate::proofs::Steps::says_fails), unfolding(crate::specs::Rules::memory_checks))]
pub(crate) fn allowed(
    alloc: Global,
    here: &Here,
    name: &[u8],
    settings: &[Setting],
    connections: &[Connection],
    joined: &[JoinedPort],
    identifier: &Option<Name>,
    shape: &Shape,
    values: &Values,
    draft: &Draft,
) -> Result<(), Refusal>
    requires shape { shape.now ≡ shape_of settings.now }
    requires values { values.now ≡ values_of settings.now }
    requires identifier { identifier.now ≡ item_identifier settings.now }
    ensures passes { Passes (spec.memory_checks (seen_here here.now) name.now settings.now connections.now (seen_ports joined.now) draft.now) result }
    ensures offset { OnOk result (shape.now.offset < 2 ^ 32) }
    ensures address { OnOk result (shape.now.address_width < 2 ^ 32) }
    ensures width { OnOk result (shape.now.width < 2 ^ 32) }
    ensures reads { OnOk result (shape.now.reads < 2 ^ 32) }
    ensures writes { OnOk result (shape.now.writes < 2 ^ 32) }
    ensures count { OnOk result (length draft.now.mems < 2 ^ 32) }
    ensures rows { OnOk result (sum_by (λ m. m.size) draft.now.mems + shape.now.size ≤ spec.most_rows) }
    ensures bits { OnOk result (sum_by (λ m. m.size * m.width) draft.now.mems + shape.now.size * shape.now.width ≤ spec.most_memory_bits) }
{
    if !parameters_fit(alloc, settings, connections, shape, values)? {
        return Err(refused_at(alloc, DesignKind::BadParameter, here.owner, name));
    }
    if !are_known(joined) {
        return Err(refused_at(alloc, DesignKind::UnknownName, here.owner, name));
    }
    if !are_joined(shape, joined) {
        return Err(refused_at(alloc, DesignKind::Width, here.owner, name));
    }
    if !are_narrow(shape) {
        return Err(refused_at(alloc, DesignKind::TooWide, here.owner, name));
    }
    if !has_room(&here.shown, identifier, shape, draft) {
        return Err(refused_at(alloc, DesignKind::TooLarge, here.owner, name));
    }
    Ok(())
}
