//! What a line of the table is made of.
use circuit::{Op, RegKind};

/// What a cell of a type becomes.
#[derive(Clone, Copy, Debug, PartialEq, Eq)]
pub enum Gives {
    /// A cell without a state.
    Cell(Op),
    /// A register or a latch.
    Register(RegKind),
}

/// A parameter of a type. A type that has a parameter must be given it, but for `\A_SIGNED` and `\B_SIGNED`, which are
/// not set where they are not given.
#[derive(Clone, Copy, Debug, PartialEq, Eq)]
pub enum Parameter {
    ASigned,
    BSigned,
    AWidth,
    BWidth,
    YWidth,
    Width,
    SWidth,
    Offset,
    ClkPolarity,
    EnPolarity,
    ArstPolarity,
    ArstValue,
    SrstPolarity,
    SrstValue,
    AloadPolarity,
    SetPolarity,
    ClrPolarity,
}

/// Which values a parameter may have.
#[derive(Clone, Copy, Debug, PartialEq, Eq)]
pub enum Range {
    /// A width or an offset: a number below 2^31.
    Size,
    /// Any number, which is set where it is not 0.
    Flag,
    /// Any number.
    Any,
}

/// A port of a type.
#[derive(Clone, Copy, Debug, PartialEq, Eq)]
pub enum PortName {
    A,
    B,
    S,
    Y,
    Clk,
    En,
    Arst,
    Srst,
    Aload,
    Ad,
    Set,
    Clr,
    D,
    Q,
}

/// Whether a cell reads a port or drives it.
#[derive(Clone, Copy, Debug, PartialEq, Eq)]
pub enum Way {
    In,
    Out,
}

/// A width in bits, from the numbers that the parameters are given.
#[derive(Clone, Copy, Debug, PartialEq, Eq)]
pub enum Span {
    /// One bit.
    One,
    Of(Parameter),
    Sum(Parameter, Parameter),
    Product(Parameter, Parameter),
    /// The first, times 2 to the second.
    Scaled(Parameter, Parameter),
}

/// A port, which way it goes, and how wide it is.
#[derive(Clone, Copy, Debug, PartialEq, Eq)]
pub struct Port {
    pub name: PortName,
    pub way: Way,
    pub span: Span,
}

/// A type of cells.
#[derive(Clone, Copy, Debug)]
pub struct Line {
    /// The identifier, as `$add`.
    pub name: &'static [u8],
    pub gives: Gives,
    pub parameters: &'static [Parameter],
    pub ports: &'static [Port],
    /// Whether each port has 128 bits at most.
    pub arithmetic: bool,
}
