//! The cell library of the Yosys manual: each type by a line.
ghost use Rattle.std.specs.Prelude.{◌≡◌, option_copied, option_map, map};
ghost use Rattle.cell_library.specs.Table.{line_in, line_of, seen, table};

use crate::line::Parameter::*;
use crate::line::Span::*;
use crate::line::{Gives, Line, Port, PortName, Way};
use circuit::{Op, RegKind};

macro_rules! input {
    ($name:ident, $span:expr) => {
        Port {
            name: PortName::$name,
            way: Way::In,
            span: $span,
        }
    };
}

macro_rules! output {
    ($name:ident, $span:expr) => {
        Port {
            name: PortName::$name,
            way: Way::Out,
            span: $span,
        }
    };
}

macro_rules! cell {
    ($name:expr, $op:ident, [$($parameter:ident),*], [$($port:expr),*]) => {
        Line {
            name: $name,
            gives: Gives::Cell(Op::$op),
            parameters: &[$($parameter),*],
            ports: &[$($port),*],
            arithmetic: false,
        }
    };
}

macro_rules! arithmetic {
    ($name:expr, $op:ident) => {
        Line {
            name: $name,
            gives: Gives::Cell(Op::$op),
            parameters: &[ASigned, BSigned, AWidth, BWidth, YWidth],
            ports: &[input!(A, Of(AWidth)), input!(B, Of(BWidth)), output!(Y, Of(YWidth))],
            arithmetic: true,
        }
    };
}

macro_rules! register {
    ($name:expr, $kind:ident, [$($parameter:ident),*], [$($port:expr),*]) => {
        Line {
            name: $name,
            gives: Gives::Register(RegKind::$kind),
            parameters: &[$($parameter),*],
            ports: &[$($port),*],
            arithmetic: false,
        }
    };
}

macro_rules! unary {
    ($name:expr, $op:ident) => {
        cell!($name, $op, [ASigned, AWidth, YWidth], [input!(A, Of(AWidth)), output!(Y, Of(YWidth))])
    };
}

macro_rules! binary {
    ($name:expr, $op:ident) => {
        cell!(
            $name,
            $op,
            [ASigned, BSigned, AWidth, BWidth, YWidth],
            [input!(A, Of(AWidth)), input!(B, Of(BWidth)), output!(Y, Of(YWidth))]
        )
    };
}

macro_rules! arithmetic_unary {
    ($name:expr, $op:ident) => {
        Line {
            name: $name,
            gives: Gives::Cell(Op::$op),
            parameters: &[ASigned, AWidth, YWidth],
            ports: &[input!(A, Of(AWidth)), output!(Y, Of(YWidth))],
            arithmetic: true,
        }
    };
}

static TABLE: [Line; 59] = [
    unary!(b"$not", Not),
    unary!(b"$pos", Pos),
    unary!(b"$reduce_and", ReduceAnd),
    unary!(b"$reduce_or", ReduceOr),
    unary!(b"$reduce_bool", ReduceBool),
    unary!(b"$reduce_xor", ReduceXor),
    unary!(b"$reduce_xnor", ReduceXnor),
    unary!(b"$logic_not", LogicNot),
    arithmetic_unary!(b"$neg", Neg),
    binary!(b"$and", And),
    binary!(b"$or", Or),
    binary!(b"$xor", Xor),
    binary!(b"$xnor", Xnor),
    binary!(b"$logic_and", LogicAnd),
    binary!(b"$logic_or", LogicOr),
    binary!(b"$eq", Eq),
    binary!(b"$ne", Ne),
    binary!(b"$eqx", Eqx),
    binary!(b"$nex", Nex),
    binary!(b"$shl", Shl),
    binary!(b"$sshl", Sshl),
    binary!(b"$shr", Shr),
    binary!(b"$sshr", Sshr),
    binary!(b"$shift", Shift),
    binary!(b"$shiftx", Shiftx),
    arithmetic!(b"$add", Add),
    arithmetic!(b"$sub", Sub),
    arithmetic!(b"$mul", Mul),
    arithmetic!(b"$div", Div),
    arithmetic!(b"$mod", Mod),
    arithmetic!(b"$divfloor", DivFloor),
    arithmetic!(b"$modfloor", ModFloor),
    arithmetic!(b"$lt", Lt),
    arithmetic!(b"$le", Le),
    arithmetic!(b"$ge", Ge),
    arithmetic!(b"$gt", Gt),
    cell!(
        b"$mux",
        Mux,
        [Width],
        [
            input!(A, Of(Width)),
            input!(B, Of(Width)),
            input!(S, One),
            output!(Y, Of(Width))
        ]
    ),
    cell!(
        b"$pmux",
        Pmux,
        [Width, SWidth],
        [
            input!(A, Of(Width)),
            input!(B, Product(Width, SWidth)),
            input!(S, Of(SWidth)),
            output!(Y, Of(Width))
        ]
    ),
    cell!(
        b"$bmux",
        Bmux,
        [Width, SWidth],
        [
            input!(A, Scaled(Width, SWidth)),
            input!(S, Of(SWidth)),
            output!(Y, Of(Width))
        ]
    ),
    cell!(
        b"$demux",
        Demux,
        [Width, SWidth],
        [
            input!(A, Of(Width)),
            input!(S, Of(SWidth)),
            output!(Y, Scaled(Width, SWidth))
        ]
    ),
    cell!(
        b"$bwmux",
        Bwmux,
        [Width],
        [
            input!(A, Of(Width)),
            input!(B, Of(Width)),
            input!(S, Of(Width)),
            output!(Y, Of(Width))
        ]
    ),
    cell!(
        b"$bweqx",
        Bweqx,
        [Width],
        [
            input!(A, Of(Width)),
            input!(B, Of(Width)),
            output!(Y, Of(Width))
        ]
    ),
    cell!(
        b"$slice",
        Slice,
        [Offset, AWidth, YWidth],
        [input!(A, Of(AWidth)), output!(Y, Of(YWidth))]
    ),
    cell!(
        b"$concat",
        Concat,
        [AWidth, BWidth],
        [
            input!(A, Of(AWidth)),
            input!(B, Of(BWidth)),
            output!(Y, Sum(AWidth, BWidth))
        ]
    ),
    register!(
        b"$dff",
        Dff,
        [Width, ClkPolarity],
        [
            input!(Clk, One),
            input!(D, Of(Width)),
            output!(Q, Of(Width))
        ]
    ),
    register!(
        b"$dffe",
        Dffe,
        [Width, ClkPolarity, EnPolarity],
        [
            input!(Clk, One),
            input!(En, One),
            input!(D, Of(Width)),
            output!(Q, Of(Width))
        ]
    ),
    register!(
        b"$adff",
        Adff,
        [Width, ClkPolarity, ArstPolarity, ArstValue],
        [
            input!(Clk, One),
            input!(Arst, One),
            input!(D, Of(Width)),
            output!(Q, Of(Width))
        ]
    ),
    register!(
        b"$adffe",
        Adffe,
        [Width, ClkPolarity, EnPolarity, ArstPolarity, ArstValue],
        [
            input!(Clk, One),
            input!(En, One),
            input!(Arst, One),
            input!(D, Of(Width)),
            output!(Q, Of(Width))
        ]
    ),
    register!(
        b"$sdff",
        Sdff,
        [Width, ClkPolarity, SrstPolarity, SrstValue],
        [
            input!(Clk, One),
            input!(Srst, One),
            input!(D, Of(Width)),
            output!(Q, Of(Width))
        ]
    ),
    register!(
        b"$sdffe",
        Sdffe,
        [Width, ClkPolarity, EnPolarity, SrstPolarity, SrstValue],
        [
            input!(Clk, One),
            input!(En, One),
            input!(Srst, One),
            input!(D, Of(Width)),
            output!(Q, Of(Width))
        ]
    ),
    register!(
        b"$sdffce",
        Sdffce,
        [Width, ClkPolarity, EnPolarity, SrstPolarity, SrstValue],
        [
            input!(Clk, One),
            input!(En, One),
            input!(Srst, One),
            input!(D, Of(Width)),
            output!(Q, Of(Width))
        ]
    ),
    register!(
        b"$aldff",
        Aldff,
        [Width, ClkPolarity, AloadPolarity],
        [
            input!(Clk, One),
            input!(Aload, One),
            input!(Ad, Of(Width)),
            input!(D, Of(Width)),
            output!(Q, Of(Width))
        ]
    ),
    register!(
        b"$aldffe",
        Aldffe,
        [Width, ClkPolarity, EnPolarity, AloadPolarity],
        [
            input!(Clk, One),
            input!(En, One),
            input!(Aload, One),
            input!(Ad, Of(Width)),
            input!(D, Of(Width)),
            output!(Q, Of(Width))
        ]
    ),
    register!(
        b"$dffsr",
        Dffsr,
        [Width, ClkPolarity, SetPolarity, ClrPolarity],
        [
            input!(Clk, One),
            input!(Set, Of(Width)),
            input!(Clr, Of(Width)),
            input!(D, Of(Width)),
            output!(Q, Of(Width))
        ]
    ),
    register!(
        b"$dffsre",
        Dffsre,
        [Width, ClkPolarity, EnPolarity, SetPolarity, ClrPolarity],
        [
            input!(Clk, One),
            input!(En, One),
            input!(Set, Of(Width)),
            input!(Clr, Of(Width)),
            input!(D, Of(Width)),
            output!(Q, Of(Width))
        ]
    ),
    register!(
        b"$sr",
        Sr,
        [Width, SetPolarity, ClrPolarity],
        [
            input!(Set, Of(Width)),
            input!(Clr, Of(Width)),
            output!(Q, Of(Width))
        ]
    ),
    register!(
        b"$dlatch",
        Dlatch,
        [Width, EnPolarity],
        [input!(En, One), input!(D, Of(Width)), output!(Q, Of(Width))]
    ),
    register!(
        b"$adlatch",
        Adlatch,
        [Width, EnPolarity, ArstPolarity, ArstValue],
        [
            input!(En, One),
            input!(Arst, One),
            input!(D, Of(Width)),
            output!(Q, Of(Width))
        ]
    ),
    register!(
        b"$dlatchsr",
        Dlatchsr,
        [Width, EnPolarity, SetPolarity, ClrPolarity],
        [
            input!(En, One),
            input!(Set, Of(Width)),
            input!(Clr, Of(Width)),
            input!(D, Of(Width)),
            output!(Q, Of(Width))
        ]
    ),
];

#[tactic(auto, unfolding(crate::specs::Table::table))]
fn lines() -> &'static [Line]
    ensures { map seen result.now ≡ table }
{
    &TABLE
}

/// The first of some lines with a name.
fn line_in(lines: &'static [Line], name: &[u8]) -> Option<&'static Line>
    ensures { option_map seen (option_copied result) ≡ line_in (map seen lines.now) name.now }
{
    for line in lines {
        if line.name == name {
            return Some(line);
        }
    }
    None
}

/// The line of a type by its name, which begins with `$`; none where no type has that name. It looks at the lines in
/// turn.
pub fn line_of(name: &[u8]) -> Option<&'static Line>
    ensures { option_map seen (option_copied result) ≡ line_of name.now }
{
    line_in(lines(), name)
}
