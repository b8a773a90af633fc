//! Nodes that are marked.
ghost use Rattle.std.specs.Prelude.{◌≡◌, ℕ, ◌^◌, ◌<◌, Some, IfOk, length, slice_get};
ghost use Rattle.eval_commit.specs.Marked.{AreMarkedToo, AreReadPlaces};

use dirty_set::DirtySet;
use driver_check::Node;
use sim_base::NoMemory;
use std::alloc::Global;

/// Marks the listed numbers. It takes no memory.
pub(crate) fn mark_all(marks: &mut DirtySet, row: &[u32])
    requires { (j k : ℕ) → slice_get row.now j ≡ Some k → k < marks.old.width }
    ensures { AreMarkedToo row.now (length row.now) marks.old marks.new }
{
    for k in row {
        marks.mark(*k);
    }
}

/// The places of the read ports among the nodes.
pub(crate) fn read_places(alloc: Global, nodes: &[Node]) -> Result<Vec<u32>, NoMemory>
    requires { length nodes.now < 2 ^ 32 }
    ensures { IfOk result (λ places. AreReadPlaces nodes.now places.items) }
{
    let mut places = Vec::new(alloc);
    for (k, node) in nodes.iter().enumerate() {
        if let Node::Read(_, _) = node {
            places.push(k as u32)?;
        }
    }
    Ok(places)
}
