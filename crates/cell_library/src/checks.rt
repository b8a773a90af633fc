//! The checks of a cell.
ghost use Rattle.std.specs.Prelude.{◌≡◌, IfOk, None, Some};
ghost use Rattle.cell_library.specs.Checks.{Passes, cell_checks, first_fault, fits, limit_checks, line_checks, parameter_checks, port_checks, port_named, port_width, slice_checks, width_checks, within};
ghost use Rattle.cell_library.specs.Names.{port_name};
ghost use Rattle.cell_library.specs.Table.{line_of, seen};
ghost use Rattle.circuit.specs.Valid.{widest};
ghost use Rattle.circuit.specs.declared.fault.DesignKind.TheVariants as kind;

use crate::line::{Gives, Line, Parameter, Port, PortName};
use crate::table::line_of;
use crate::values::{in_range, number, span_width};
use crate::written::{Connection, Setting};
use circuit::{DesignKind, Op};

/// The most bits of a port.
pub const WIDEST: u32 = 65536;

/// The most bits of a port of an arithmetic type.
pub const WIDEST_ARITHMETIC: u32 = 128;

/// The line of a cell's type, or what is wrong with the cell, the first of: its type is unknown; a parameter of
/// its type is not given, or has a number that it may not have, or a `$slice` takes bits beyond its operand; a
/// port is joined that its type lacks; a port is joined to another number of bits than it has; a port has more
/// than 65,536 bits; a port of an arithmetic type has more than 128. A port that is not joined is held to its
/// limit too. Other parameters than those of the type are not looked at.
#[tactic(auto, using(crate::proofs::Limits::wide))]
pub fn check_cell(
    name: &[u8],
    settings: &[Setting],
    connections: &[Connection],
) -> Result<&'static Line, DesignKind>
    ensures checked { Passes (cell_checks name.now settings.now connections.now) result }
    ensures found { IfOk result (λ line. line_of name.now ≡ Some (seen line.now)) }
    ensures limited { IfOk result (λ line. first_fault (limit_checks settings.now widest kind.TooWide line.now.ports.now) ≡ None) }
{
    let Some(line) = line_of(name) else {
        return Err(DesignKind::UnknownCell);
    };
    line_passes(line, settings, connections)?;
    Ok(line)
}

#[tactic(auto, using(crate::proofs::Parts::after), unfolding(crate::specs::Checks::line_checks))]
fn line_passes(
    line: &Line,
    settings: &[Setting],
    connections: &[Connection],
) -> Result<(), DesignKind>
    ensures { Passes (line_checks (seen line.now) settings.now connections.now) result }
{
    parameters_pass(settings, line.parameters)?;
    slice_passes(line.gives, settings)?;
    ports_pass(line.ports, connections)?;
    widths_pass(settings, line.ports, connections)?;
    limits_pass(settings, WIDEST, DesignKind::TooWide, line.ports)?;
    if line.arithmetic {
        limits_pass(
            settings,
            WIDEST_ARITHMETIC,
            DesignKind::ArithTooWide,
            line.ports,
        )?;
    }
    Ok(())
}

/// Each parameter of the type is given a number that it may have.
pub fn parameters_pass(settings: &[Setting], parameters: &[Parameter]) -> Result<(), DesignKind>
    ensures { Passes (parameter_checks settings.now parameters.now) result }
{
    for parameter in parameters {
        if !in_range(settings, *parameter) {
            return Err(DesignKind::BadParameter);
        }
    }
    Ok(())
}

/// A slice stays inside its operand.
#[tactic(auto, unfolding(crate::specs::Checks::line_checks))]
pub fn slice_passes(gives: Gives, settings: &[Setting]) -> Result<(), DesignKind>
    ensures { Passes (slice_checks gives settings.now) result }
{
    if gives != Gives::Cell(Op::Slice) {
        return Ok(());
    }
    let end = number(settings, Parameter::Offset) as u128
        + number(settings, Parameter::YWidth) as u128;
    if end > number(settings, Parameter::AWidth) as u128 {
        return Err(DesignKind::BadParameter);
    }
    Ok(())
}

/// The port of a name.
pub fn port_named(ports: &[Port], name: &[u8]) -> Option<Port>
    ensures { result ≡ port_named ports.now name.now }
{
    for port in ports {
        if port.name.name() == name {
            return Some(*port);
        }
    }
    None
}

/// Each port that is joined is one of the type.
pub fn ports_pass(ports: &[Port], connections: &[Connection]) -> Result<(), DesignKind>
    ensures { Passes (port_checks ports.now connections.now) result }
{
    for connection in connections {
        if port_named(ports, connection.port.as_bytes()).is_none() {
            return Err(DesignKind::UnknownName);
        }
    }
    Ok(())
}

fn fits(settings: &[Setting], port: Option<Port>, width: u64) -> bool
    ensures { result ≡ fits settings.now port width }
{
    match port {
        None => true,
        Some(port) => match span_width(settings, port.span) {
            None => false,
            Some(wanted) => wanted == width,
        },
    }
}

/// Each port is joined to as many bits as it has.
pub fn widths_pass(
    settings: &[Setting],
    ports: &[Port],
    connections: &[Connection],
) -> Result<(), DesignKind>
    ensures { Passes (width_checks settings.now ports.now connections.now) result }
{
    for connection in connections {
        let port = port_named(ports, connection.port.as_bytes());
        if !fits(settings, port, connection.width) {
            return Err(DesignKind::Width);
        }
    }
    Ok(())
}

fn within(settings: &[Setting], most: u32, port: Port) -> bool
    ensures { result ≡ within settings.now most port }
{
    match span_width(settings, port.span) {
        None => false,
        Some(width) => width <= most as u64,
    }
}

/// No port has more bits than `most`.
pub fn limits_pass(
    settings: &[Setting],
    most: u32,
    kind: DesignKind,
    ports: &[Port],
) -> Result<(), DesignKind>
    ensures { Passes (limit_checks settings.now most kind ports.now) result }
{
    for port in ports {
        if !within(settings, most, *port) {
            return Err(kind);
        }
    }
    Ok(())
}

/// How many bits a port has by a cell's settings, or 0 where the type lacks it. Its ports have to keep
/// their limit, as those of a cell that passes its checks do.
#[tactic(auto, using(crate::proofs::Limits::named_within))]
pub fn port_width(settings: &[Setting], ports: &[Port], name: PortName) -> u32
    requires { first_fault (limit_checks settings.now widest kind.TooWide ports.now) ≡ None }
    ensures { result ≡ port_width settings.now (port_named ports.now (port_name name)) }
{
    let Some(port) = port_named(ports, name.name()) else {
        return 0;
    };
    match span_width(settings, port.span) {
        None => unreachable!(),
        Some(width) => width as u32,
    }
}
