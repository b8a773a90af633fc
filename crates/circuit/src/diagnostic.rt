//! Assertions and assumptions.
use crate::netlist::Piece;
use sim_base::Name;
use sqlite_items::Items;

/// An assertion or an assumption, which fires where it is enabled and does not hold.
#[derive(Debug, Drop)]
pub struct Diag {
    pub kind: DiagKind,
    /// The identifiers of its cell's path without the `\`, joined by a space.
    pub text: Name,
    /// The text of its `\src`, if it has one.
    pub src: Option<Name>,
    pub a: Items<Piece>,
    pub en: Items<Piece>,
    /// Where it is looked at only when a trigger has its edge.
    pub trigger: Option<Trigger>,
}

#[derive(Clone, Copy, Debug, PartialEq, Eq)]
pub enum DiagKind {
    Assert,
    Assume,
}

/// Bits of which each triggers at its edge.
#[derive(Debug, Drop)]
pub struct Trigger {
    pub on: Items<Piece>,
    /// For each bit whether the edge is the rising one.
    pub rising: Items<bool>,
}
