//! Values and signals, as they are written.
use rtlil_lexer::{Constant, Quoted, Spelling};
use sqlite_items::Items;

/// A value, as it is written.
#[derive(Debug, Drop)]
pub enum Const<'t> {
    /// Digits behind a width.
    Digits(Constant<'t>),
    /// It stands for 32 bits in two's complement.
    Integer(i32),
    /// Its bytes, with escapes resolved. It stands for 8 bits a byte, the first byte the most significant.
    String(Quoted<'t>),
}

/// A choice of bits of a signal, both ends included, counted from its least bit 0: `[high:low]`, and `[low]`
/// for one bit. As written, `high` may be below `low`.
#[derive(Clone, Copy, Debug, PartialEq, Eq)]
pub struct Slice {
    pub high: u32,
    pub low: u32,
}

/// A signal: a part and the slices behind it, each of which chooses from what stands before it.
#[cycle(sig)]
#[derive(Drop)]
pub struct Sig<'t> {
    pub part: SigPart<'t>,
    pub slices: Items<Slice>,
}

/// What a signal is before its slices.
#[cycle(sig)]
#[derive(Drop)]
pub enum SigPart<'t> {
    Const(Const<'t>),
    /// The identifier of a wire, as written.
    Wire(Spelling<'t>),
    /// The most significant one stands first.
    Concatenation(Items<Sig<'t>>),
}
