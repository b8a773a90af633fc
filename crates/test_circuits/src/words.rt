//! The names of types of cells and of registers.
use circuit::{Op, RegKind};

const OP_NAMES: &str =
    "not pos neg and or xor xnor reduce_and reduce_or reduce_bool reduce_xor reduce_xnor \
    logic_not logic_and logic_or add sub mul div mod divfloor modfloor lt le eq ne ge gt eqx nex \
    shl sshl shr sshr shift shiftx mux pmux bmux demux bwmux bweqx slice concat";

const OPS: [Op; 44] = [
    Op::Not,
    Op::Pos,
    Op::Neg,
    Op::And,
    Op::Or,
    Op::Xor,
    Op::Xnor,
    Op::ReduceAnd,
    Op::ReduceOr,
    Op::ReduceBool,
    Op::ReduceXor,
    Op::ReduceXnor,
    Op::LogicNot,
    Op::LogicAnd,
    Op::LogicOr,
    Op::Add,
    Op::Sub,
    Op::Mul,
    Op::Div,
    Op::Mod,
    Op::DivFloor,
    Op::ModFloor,
    Op::Lt,
    Op::Le,
    Op::Eq,
    Op::Ne,
    Op::Ge,
    Op::Gt,
    Op::Eqx,
    Op::Nex,
    Op::Shl,
    Op::Sshl,
    Op::Shr,
    Op::Sshr,
    Op::Shift,
    Op::Shiftx,
    Op::Mux,
    Op::Pmux,
    Op::Bmux,
    Op::Demux,
    Op::Bwmux,
    Op::Bweqx,
    Op::Slice,
    Op::Concat,
];

const KIND_NAMES: &str =
    "dff dffe adff adffe sdff sdffe sdffce aldff aldffe dffsr dffsre sr dlatch adlatch dlatchsr";

const KINDS: [RegKind; 15] = [
    RegKind::Dff,
    RegKind::Dffe,
    RegKind::Adff,
    RegKind::Adffe,
    RegKind::Sdff,
    RegKind::Sdffe,
    RegKind::Sdffce,
    RegKind::Aldff,
    RegKind::Aldffe,
    RegKind::Dffsr,
    RegKind::Dffsre,
    RegKind::Sr,
    RegKind::Dlatch,
    RegKind::Adlatch,
    RegKind::Dlatchsr,
];

/// The place of a word among the words of a text.
fn place_of(words: &str, wanted: &str) -> Option<usize> {
    words.split(' ').position(|word| word == wanted)
}

/// The type of cell of this name without `$`.
pub fn op_of(name: &str) -> Option<Op> {
    OPS.get(place_of(OP_NAMES, name)?).copied()
}

/// The kind of register of this name without `$`.
pub fn kind_of(name: &str) -> Option<RegKind> {
    KINDS.get(place_of(KIND_NAMES, name)?).copied()
}
