//! The order in which the parts of a circuit are computed.
use crate::sources::Sources;
use crate::table::Table;
use circuit::Drive;
use driver_check::Node;
use sqlite_items::Items;

/// An order for the nodes of a circuit, and where each bit of its nets comes from.
#[derive(Debug, Drop)]
pub struct Plan {
    /// Each combinational cell and each read port without a clock once, behind all that it depends on.
    pub nodes: Items<Node>,
    /// What gives the bits of the nets, with the wires between left out: no root is driven by a wire, and
    /// no two roots share a bit. A bit of no root has no driver at the end of its wires, and is 0.
    pub roots: Items<Drive>,
    /// For each source the places in `roots` of those that take from it.
    pub sources: Sources,
    /// For each root the places in `nodes` of those that read a bit of it.
    pub readers: Table,
}
