//! The identifiers of parameters and ports, and which values a parameter may have.
ghost use Rattle.std.specs.Prelude.{◌≡◌};
ghost use Rattle.cell_library.specs.Names.{parameter_name, port_name, range_of};

use crate::line::{Parameter, PortName, Range};

impl Parameter {
    /// The identifier.
    pub fn name(self) -> &'static [u8]
        ensures { result.now ≡ parameter_name self }
    {
        match self {
            Parameter::ASigned => b"\\A_SIGNED",
            Parameter::BSigned => b"\\B_SIGNED",
            Parameter::AWidth => b"\\A_WIDTH",
            Parameter::BWidth => b"\\B_WIDTH",
            Parameter::YWidth => b"\\Y_WIDTH",
            Parameter::Width => b"\\WIDTH",
            Parameter::SWidth => b"\\S_WIDTH",
            Parameter::Offset => b"\\OFFSET",
            Parameter::ClkPolarity => b"\\CLK_POLARITY",
            Parameter::EnPolarity => b"\\EN_POLARITY",
            Parameter::ArstPolarity => b"\\ARST_POLARITY",
            Parameter::ArstValue => b"\\ARST_VALUE",
            Parameter::SrstPolarity => b"\\SRST_POLARITY",
            Parameter::SrstValue => b"\\SRST_VALUE",
            Parameter::AloadPolarity => b"\\ALOAD_POLARITY",
            Parameter::SetPolarity => b"\\SET_POLARITY",
            Parameter::ClrPolarity => b"\\CLR_POLARITY",
        }
    }

    /// Which values it may have.
    pub fn range(self) -> Range
        ensures { result ≡ range_of self }
    {
        match self {
            Parameter::AWidth
            | Parameter::BWidth
            | Parameter::YWidth
            | Parameter::Width
            | Parameter::SWidth
            | Parameter::Offset => Range::Size,
            Parameter::ASigned
            | Parameter::BSigned
            | Parameter::ClkPolarity
            | Parameter::EnPolarity
            | Parameter::ArstPolarity
            | Parameter::SrstPolarity
            | Parameter::AloadPolarity
            | Parameter::SetPolarity
            | Parameter::ClrPolarity => Range::Flag,
            Parameter::ArstValue | Parameter::SrstValue => Range::Any,
        }
    }
}

impl PortName {
    /// The identifier.
    pub fn name(self) -> &'static [u8]
        ensures { result.now ≡ port_name self }
    {
        match self {
            PortName::A => b"\\A",
            PortName::B => b"\\B",
            PortName::S => b"\\S",
            PortName::Y => b"\\Y",
            PortName::Clk => b"\\CLK",
            PortName::En => b"\\EN",
            PortName::Arst => b"\\ARST",
            PortName::Srst => b"\\SRST",
            PortName::Aload => b"\\ALOAD",
            PortName::Ad => b"\\AD",
            PortName::Set => b"\\SET",
            PortName::Clr => b"\\CLR",
            PortName::D => b"\\D",
            PortName::Q => b"\\Q",
        }
    }
}
