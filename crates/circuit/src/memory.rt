//! Memories.
use crate::netlist::Piece;
use sim_base::Bits;
use sqlite_items::Items;

/// A memory of rows, `$mem_v2` in the cell library of the Yosys manual. Row r stands for the address r +
/// `offset`; a read outside gives 0, which is this project's own choice.
#[derive(Debug, Drop)]
pub struct Mem {
    /// Of a row, in bits.
    pub width: u32,
    /// The number of rows.
    pub size: u32,
    pub offset: u32,
    /// The rows before the first sample, row 0 lowest.
    pub init: Bits,
    pub reads: Items<ReadPort>,
    pub writes: Items<WritePort>,
}

/// A read port. One without a clock gives its row at once, one with a clock keeps what it read.
#[derive(Debug, Drop)]
pub struct ReadPort {
    pub clocked: bool,
    /// Whether the clock's edge is the rising one.
    pub rising: bool,
    pub clk: Items<Piece>,
    pub en: Items<Piece>,
    pub addr: Items<Piece>,
    /// For each write port, whether this port sees what that one writes at the same edge.
    pub see: Items<bool>,
    /// The value of a port with a clock before the first sample.
    pub init: Bits,
}

/// A write port, which writes at the edge of its clock.
#[derive(Debug, Drop)]
pub struct WritePort {
    /// Whether the clock's edge is the rising one.
    pub rising: bool,
    pub clk: Items<Piece>,
    /// A bit for each bit of a row.
    pub en: Items<Piece>,
    pub addr: Items<Piece>,
    pub word: Items<Piece>,
}
