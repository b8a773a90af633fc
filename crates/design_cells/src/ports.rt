//! What a cell is written with: numbers for its parameters, signals at its ports.
ghost use Rattle.std.specs.Prelude.{◌≡◌, ◌-◌, ◌^◌, IfOk, IfSome, map, min, option_map};
ghost use Rattle.std.specs.Option.{option_copied};
ghost use Rattle.rtlil_signals.specs.Values.{const_value};
ghost use Rattle.design_cells.specs.Joined as spec;

use cell_library::{Connection, Setting};
use name_table::Table;
use rtlil_lexer::Spelling;
use rtlil_signals::{NamedNet, Span, const_bits, is_named, spans_of, width_of};
use rtlil_tree::{Connection as WrittenPort, Const, Setting as WrittenSetting};
use sim_base::{Bits, NoMemory};
use sqlite_items::Items;
use std::alloc::Global;

/// A port of a cell, and what it is joined to.
#[derive(Drop)]
pub struct JoinedPort<'a, 't> {
    /// The identifier of the port.
    pub port: Spelling<'t>,
    /// Whether each wire of the signal is there.
    pub is_named: bool,
    /// The signal; none where a slice is outside of what stands before it.
    pub spans: Option<Items<Span<'a, 't>>>,
}

/// A value as a number of 64 bits, the greatest one where it is above that.
pub fn capped(value: &Bits) -> u64
    ensures { result ≡ min value.now.number (2 ^ 64 - 1) }
{
    let width = value.width();
    if width <= 64 {
        return value.word();
    }
    for at in 64..width {
        if value.bit(at) {
            return u64::MAX;
        }
    }
    value.field(0, 64)
}

fn capped_const(alloc: Global, constant: &Const) -> Result<u64, NoMemory>
    ensures { IfOk result (λ number. number ≡ min (const_value constant.now).number (2 ^ 64 - 1)) }
{
    let value = const_bits(alloc, constant)?;
    Ok(capped(&value))
}

/// The numbers that a cell gives its parameters.
pub(crate) fn settings_of<'t>(
    alloc: Global,
    written: &[WrittenSetting<'t>],
) -> Result<Items<Setting<'t>>, NoMemory>
    ensures { IfOk result (λ settings. settings ≡ spec.settings_of written.now) }
{
    let mut settings = Items::new(alloc);
    for setting in written {
        settings.push(Setting {
            name: setting.name.copied(),
            value: capped_const(alloc, &setting.value)?,
        })?;
    }
    Ok(settings)
}

fn joined_port<'a, 't>(
    alloc: Global,
    scope: &Table<NamedNet>,
    written: &'a WrittenPort<'t>,
) -> Result<JoinedPort<'a, 't>, NoMemory>
    ensures { IfOk result (λ port. spec.seen_port port ≡ spec.joined_of scope.now written.now) }
{
    Ok(JoinedPort {
        port: written.port.copied(),
        is_named: is_named(scope, &written.sig),
        spans: spans_of(alloc, scope, &written.sig)?,
    })
}

/// The ports of a cell with what they are joined to.
pub fn joined_in<'a, 't>(
    alloc: Global,
    scope: &Table<NamedNet>,
    written: &'a [WrittenPort<'t>],
) -> Result<Items<JoinedPort<'a, 't>>, NoMemory>
    ensures { IfOk result (λ ports. spec.seen_ports ports ≡ spec.joined_in scope.now written.now) }
{
    let mut ports = Items::new(alloc);
    for port in written {
        ports.push(joined_port(alloc, scope, port)?)?;
    }
    Ok(ports)
}

/// How many bits a port is joined to, or 2^64 - 1 where there are more.
fn joined_width(port: &JoinedPort) -> u64
    ensures { result ≡ (spec.connection_of (spec.seen_port port.now)).width }
{
    match &port.spans {
        Some(spans) => width_of(spans.as_slice()).min(u64::MAX as u128) as u64,
        None => 0,
    }
}

/// The ports of a cell by their names and widths.
pub(crate) fn connections_of<'t>(
    alloc: Global,
    ports: &[JoinedPort<'_, 't>],
) -> Result<Items<Connection<'t>>, NoMemory>
    ensures { IfOk result (λ connections. connections ≡ spec.connections_of (spec.seen_ports ports.now)) }
{
    let mut connections = Items::new(alloc);
    for port in ports {
        connections.push(Connection {
            port: port.port.copied(),
            width: joined_width(port),
        })?;
    }
    Ok(connections)
}

/// The port of a name.
pub fn joined_at<'s, 'a, 't>(
    ports: &'s [JoinedPort<'a, 't>],
    name: &[u8],
) -> Option<&'s JoinedPort<'a, 't>>
    ensures { option_map spec.seen_port (option_copied result) ≡ spec.joined_at (spec.seen_ports ports.now) name.now }
{
    for port in ports {
        if port.port.as_bytes() == name {
            return Some(port);
        }
    }
    None
}
