//! Registers and latches.
use crate::netlist::Piece;
use sim_base::Bits;
use sqlite_items::Items;

/// Which register or latch a cell is: the cell library of the Yosys manual.
#[derive(Clone, Copy, Debug, PartialEq, Eq)]
pub enum RegKind {
    /// `$dff`
    Dff,
    /// `$dffe`
    Dffe,
    /// `$adff`
    Adff,
    /// `$adffe`
    Adffe,
    /// `$sdff`
    Sdff,
    /// `$sdffe`, whose enable does not hold the reset back
    Sdffe,
    /// `$sdffce`, whose enable holds the reset back too
    Sdffce,
    /// `$aldff`
    Aldff,
    /// `$aldffe`
    Aldffe,
    /// `$dffsr`
    Dffsr,
    /// `$dffsre`
    Dffsre,
    /// `$sr`
    Sr,
    /// `$dlatch`
    Dlatch,
    /// `$adlatch`
    Adlatch,
    /// `$dlatchsr`
    Dlatchsr,
}

/// For each port whether it is active when high, or on a rising edge.
#[derive(Clone, Copy, Debug, PartialEq, Eq)]
pub struct Polarity {
    pub clk: bool,
    pub en: bool,
    pub set: bool,
    pub clr: bool,
    pub load: bool,
}

/// A register or a latch. A port that its kind lacks is the empty signal.
#[derive(Debug, Drop)]
pub struct Reg {
    pub kind: RegKind,
    /// In bits.
    pub width: u32,
    pub clk: Items<Piece>,
    pub d: Items<Piece>,
    pub en: Items<Piece>,
    /// A bit for each bit of the register.
    pub set: Items<Piece>,
    /// `CLR`, a bit for each bit of the register, or `ARST` or `SRST`, one bit.
    pub clr: Items<Piece>,
    /// `ALOAD`
    pub load: Items<Piece>,
    /// What `ALOAD` loads.
    pub ad: Items<Piece>,
    pub pol: Polarity,
    /// What `ARST` or `SRST` gives.
    pub value: Bits,
    /// The value before the first sample.
    pub init: Bits,
}
