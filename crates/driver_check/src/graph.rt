//! The graph of what needs what: the bits of the nets and the nodes of a circuit.
ghost use Rattle.std.specs.Prelude.{◌≡◌, ◌+◌, ◌<◌, length};
ghost use Rattle.driver_check.specs.Search.{row_of, size_of_graph};

use sqlite_items::Items;

/// Vertices in a row: those from `first` to `first + width - 1`.
#[derive(Clone, Copy, Debug)]
pub struct Span {
    pub first: usize,
    pub width: usize,
}

/// What each vertex needs. The bits come first, each with one span, and then the nodes.
#[derive(Debug, Drop)]
pub struct Graph {
    pub bits: Vec<Span>,
    pub nodes: Vec<Items<Span>>,
}

impl Graph {
    /// The spans of what a vertex needs.
    pub fn row(&self, vertex: usize) -> &[Span]
        requires { vertex < size_of_graph self.now }
        ensures { result.now ≡ row_of self.now vertex }
    {
        let bits = self.bits.len();
        if vertex < bits {
            &self.bits[vertex..vertex + 1]
        } else {
            self.nodes[vertex - bits].as_slice()
        }
    }
}
