//! The parameters and ports of a memory.
ghost use Rattle.std.specs.Prelude.{◌≡◌};
ghost use Rattle.design_memory.specs.Names as spec;

use crate::settings::Shape;

/// A parameter of a memory that is read.
#[derive(Clone, Copy, Debug, PartialEq, Eq)]
pub enum Parameter {
    MemId,
    Size,
    Offset,
    AddressWidth,
    Width,
    Init,
    ReadPorts,
    ReadClockEnable,
    ReadClockPolarity,
    ReadTransparencyMask,
    ReadInitValue,
    ReadWideContinuation,
    WritePorts,
    WriteClockEnable,
    WriteClockPolarity,
    WriteWideContinuation,
}

/// A port of a memory: the signals of all read ports, or of all write ports.
#[derive(Clone, Copy, Debug, PartialEq, Eq)]
pub enum Port {
    ReadClock,
    ReadEnable,
    ReadArst,
    ReadSrst,
    ReadAddress,
    ReadData,
    WriteClock,
    WriteEnable,
    WriteAddress,
    WriteData,
}

/// Whether a port is that of the read ports or that of the write ports.
#[derive(Clone, Copy, Debug, PartialEq, Eq)]
pub enum Side {
    Reads,
    Writes,
}

/// What a port has for each of them.
#[derive(Clone, Copy, Debug, PartialEq, Eq)]
pub enum Each {
    Bit,
    Address,
    Row,
}

impl Parameter {
    /// The identifier.
    pub fn name(self) -> &'static [u8]
        ensures { result.now ≡ spec.parameter_name self }
    {
        match self {
            Parameter::MemId => b"\\MEMID",
            Parameter::Size => b"\\SIZE",
            Parameter::Offset => b"\\OFFSET",
            Parameter::AddressWidth => b"\\ABITS",
            Parameter::Width => b"\\WIDTH",
            Parameter::Init => b"\\INIT",
            Parameter::ReadPorts => b"\\RD_PORTS",
            Parameter::ReadClockEnable => b"\\RD_CLK_ENABLE",
            Parameter::ReadClockPolarity => b"\\RD_CLK_POLARITY",
            Parameter::ReadTransparencyMask => b"\\RD_TRANSPARENCY_MASK",
            Parameter::ReadInitValue => b"\\RD_INIT_VALUE",
            Parameter::ReadWideContinuation => b"\\RD_WIDE_CONTINUATION",
            Parameter::WritePorts => b"\\WR_PORTS",
            Parameter::WriteClockEnable => b"\\WR_CLK_ENABLE",
            Parameter::WriteClockPolarity => b"\\WR_CLK_POLARITY",
            Parameter::WriteWideContinuation => b"\\WR_WIDE_CONTINUATION",
        }
    }
}

impl Port {
    /// The identifier.
    pub fn name(self) -> &'static [u8]
        ensures { result.now ≡ spec.port_name self }
    {
        match self {
            Port::ReadClock => b"\\RD_CLK",
            Port::ReadEnable => b"\\RD_EN",
            Port::ReadArst => b"\\RD_ARST",
            Port::ReadSrst => b"\\RD_SRST",
            Port::ReadAddress => b"\\RD_ADDR",
            Port::ReadData => b"\\RD_DATA",
            Port::WriteClock => b"\\WR_CLK",
            Port::WriteEnable => b"\\WR_EN",
            Port::WriteAddress => b"\\WR_ADDR",
            Port::WriteData => b"\\WR_DATA",
        }
    }

    fn side(self) -> Side
        ensures { result ≡ spec.side_of self }
    {
        match self {
            Port::ReadClock
            | Port::ReadEnable
            | Port::ReadArst
            | Port::ReadSrst
            | Port::ReadAddress
            | Port::ReadData => Side::Reads,
            Port::WriteClock | Port::WriteEnable | Port::WriteAddress | Port::WriteData => {
                Side::Writes
            }
        }
    }

    fn each(self) -> Each
        ensures { result ≡ spec.each_of self }
    {
        match self {
            Port::ReadClock
            | Port::ReadEnable
            | Port::ReadArst
            | Port::ReadSrst
            | Port::WriteClock => Each::Bit,
            Port::ReadAddress | Port::WriteAddress => Each::Address,
            Port::ReadData | Port::WriteEnable | Port::WriteData => Each::Row,
        }
    }

    /// How many bits it has.
    pub fn width(self, shape: &Shape) -> u128
        ensures { result ≡ spec.port_width shape.now self }
    {
        let count = match self.side() {
            Side::Reads => shape.reads,
            Side::Writes => shape.writes,
        };
        let width = match self.each() {
            Each::Bit => 1,
            Each::Address => shape.address_width,
            Each::Row => shape.width,
        };
        count as u128 * width as u128
    }
}

/// The parameters that a memory must be given.
static NEEDED: [Parameter; 12] = [
    Parameter::MemId,
    Parameter::Size,
    Parameter::Offset,
    Parameter::AddressWidth,
    Parameter::Width,
    Parameter::Init,
    Parameter::ReadPorts,
    Parameter::ReadClockEnable,
    Parameter::ReadClockPolarity,
    Parameter::WritePorts,
    Parameter::WriteClockEnable,
    Parameter::WriteClockPolarity,
];

#[tactic(auto, unfolding(crate::specs::Names::needed))]
pub(crate) fn needed() -> &'static [Parameter]
    ensures { result.now ≡ spec.needed }
{
    &NEEDED
}

static PORTS: [Port; 10] = [
    Port::ReadClock,
    Port::WriteClock,
    Port::ReadEnable,
    Port::ReadArst,
    Port::ReadSrst,
    Port::ReadAddress,
    Port::ReadData,
    Port::WriteEnable,
    Port::WriteAddress,
    Port::WriteData,
];

#[tactic(auto, unfolding(crate::specs::Names::ports))]
pub(crate) fn ports() -> &'static [Port]
    ensures { result.now ≡ spec.ports }
{
    &PORTS
}

/// The first of some ports with an identifier.
fn port_in(ports: &[Port], name: &[u8]) -> Option<Port>
    ensures { result ≡ spec.port_in ports.now name.now }
{
    for port in ports {
        if port.name() == name {
            return Some(*port);
        }
    }
    None
}

/// The port of an identifier.
pub(crate) fn port_named(name: &[u8]) -> Option<Port>
    ensures { result ≡ spec.port_named name.now }
{
    port_in(ports(), name)
}
