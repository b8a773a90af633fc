//! Combinational cells.
use crate::netlist::Piece;
use sqlite_items::Items;

/// What a combinational cell computes: the cell library of the Yosys manual. That a zero divisor gives 0, that
/// `$pmux` with several selected parts gives the lowest, and that `$shiftx` fills with 0 is this project's own
/// choice.
#[derive(Clone, Copy, Debug, PartialEq, Eq)]
pub enum Op {
    /// `$not`
    Not,
    /// `$pos`
    Pos,
    /// `$neg`
    Neg,
    /// `$and`
    And,
    /// `$or`
    Or,
    /// `$xor`
    Xor,
    /// `$xnor`
    Xnor,
    /// `$reduce_and`
    ReduceAnd,
    /// `$reduce_or`
    ReduceOr,
    /// `$reduce_bool`
    ReduceBool,
    /// `$reduce_xor`
    ReduceXor,
    /// `$reduce_xnor`
    ReduceXnor,
    /// `$logic_not`
    LogicNot,
    /// `$logic_and`
    LogicAnd,
    /// `$logic_or`
    LogicOr,
    /// `$add`
    Add,
    /// `$sub`
    Sub,
    /// `$mul`
    Mul,
    /// `$div`, which truncates toward zero
    Div,
    /// `$mod`, the remainder of `$div`
    Mod,
    /// `$divfloor`, which rounds down
    DivFloor,
    /// `$modfloor`, the remainder of `$divfloor`
    ModFloor,
    /// `$lt`
    Lt,
    /// `$le`
    Le,
    /// `$eq`
    Eq,
    /// `$ne`
    Ne,
    /// `$ge`
    Ge,
    /// `$gt`
    Gt,
    /// `$eqx`
    Eqx,
    /// `$nex`
    Nex,
    /// `$shl`
    Shl,
    /// `$sshl`
    Sshl,
    /// `$shr`
    Shr,
    /// `$sshr`
    Sshr,
    /// `$shift`
    Shift,
    /// `$shiftx`
    Shiftx,
    /// `$mux`
    Mux,
    /// `$pmux`
    Pmux,
    /// `$bmux`
    Bmux,
    /// `$demux`
    Demux,
    /// `$bwmux`
    Bwmux,
    /// `$bweqx`
    Bweqx,
    /// `$slice`
    Slice,
    /// `$concat`
    Concat,
}

/// A combinational cell. A port that its type lacks is the empty signal.
#[derive(Debug, Drop)]
pub struct Cell {
    pub op: Op,
    pub a: Items<Piece>,
    pub b: Items<Piece>,
    pub s: Items<Piece>,
    pub a_signed: bool,
    pub b_signed: bool,
    /// The width of the output in bits.
    pub width: u32,
    /// The first bit that a `$slice` takes. No other type reads it.
    pub offset: u32,
}
