//! A depth-first search of a graph with a stack of its own, so that nothing recurses.
ghost use Rattle.std.specs.Prelude.{◌≡◌, ℕ, ◌+◌, ◌<◌, ◌≤◌, ◌++◌, ◌∷◌, ◌⊎◌, [], length, IfOk, OnOk, slice_get, Some, true, false};
ghost use Rattle.driver_check.specs.Invariants.{AreFramesInside, IsNoNewer, IsSearch, WasSeen, turns};
ghost use Rattle.driver_check.specs.Search.{AreInside, Has, IsSorted, Needs, Rows, row_of, size_of_graph};
ghost use Rattle.driver_check.specs.declared.search.Mark.TheVariants as mark;
ghost use Rattle.driver_check.specs.declared.search.Frame.{Frame as TheFrame};
ghost use Rattle.driver_check.specs.declared.graph.Span.{Span as TheSpan};

use crate::graph::{Graph, Span};
use sim_base::NoMemory;
use std::alloc::Global;

/// How far the search is with a vertex.
#[derive(Clone, Copy, Debug, PartialEq, Eq)]
pub enum Mark {
    /// Not met yet.
    New,
    /// On the stack.
    Open,
    /// In the order, behind all that it needs.
    Done,
    /// It needs a vertex that is stuck, and so leads into a cycle.
    Stuck,
}

/// A vertex on the stack, and the first of what it needs that was not looked at.
#[derive(Clone, Copy, Debug)]
pub struct Frame {
    pub vertex: usize,
    /// A place in the row of the vertex.
    pub span: usize,
    pub offset: usize,
}

/// The state of a search. What a vertex on the stack needs and waits for stands above it.
#[derive(Debug, Drop)]
pub struct Search {
    pub marks: Vec<Mark>,
    pub order: Vec<usize>,
    pub stack: Vec<Frame>,
}

fn mark_of(marks: &[Mark], vertex: usize) -> Mark
    requires { vertex < length marks.now }
    ensures { slice_get marks.now vertex ≡ Some result }
{
    marks[vertex]
}

/// Whether a vertex is stuck.
pub fn is_stuck(marks: &[Mark], vertex: usize) -> bool
    requires { vertex < length marks.now }
    ensures yes { result ≡ true → Has marks.now mark.Stuck vertex }
    ensures no { result ≡ false → Has marks.now mark.Stuck vertex → ⊥ }
{
    match mark_of(marks, vertex) {
        Mark::Stuck => true,
        Mark::New => false,
        Mark::Open => false,
        Mark::Done => false,
    }
}

/// Marks the vertices of the stack as stuck.
fn mark_stuck(marks: &mut Vec<Mark>, stack: &[Frame])
    requires { (k : ℕ) (f : TheFrame) → slice_get stack.now k ≡ Some f → f.vertex < length marks.old.items }
    ensures size { length marks.new.items ≡ length marks.old.items }
    ensures all { (k : ℕ) (f : TheFrame) → slice_get stack.now k ≡ Some f → Has marks.new.items mark.Stuck f.vertex }
    ensures others { (v : ℕ) → Has marks.new.items mark.Stuck v ⊎ (slice_get marks.new.items v ≡ slice_get marks.old.items v) }
    ensures only { (v : ℕ) → Has marks.new.items mark.Stuck v → Has marks.old.items mark.Stuck v ⊎ ((k : ℕ) × (f : TheFrame) × (slice_get stack.now k ≡ Some f) × (f.vertex ≡ v)) }
{
    for frame in stack {
        marks[frame.vertex] = Mark::Stuck;
    }
}

impl Search {
    /// All that the vertex of the frame needs is done, and the frame was taken off the stack.
    fn finish(&mut self, frame: Frame) -> Result<(), NoMemory>
        requires { frame.vertex < length self.old.marks.items }
        ensures size { length self.new.marks.items ≡ length self.old.marks.items }
        ensures newer { IsNoNewer self.old.marks.items self.new.marks.items }
        ensures turns { OnOk result ((rows : Rows) → turns rows self.new.marks.items self.new.stack.items < turns rows self.old.marks.items (self.old.stack.items ++ frame ∷ [])) }
        ensures search { OnOk result ((rows : Rows) → IsSearch rows self.old.marks.items self.old.order.items (self.old.stack.items ++ frame ∷ []) → ((w : ℕ) → Needs (rows frame.vertex) w → Has self.old.marks.items mark.Done w) → IsSearch rows self.new.marks.items self.new.order.items self.new.stack.items) }
    {
        self.marks[frame.vertex] = Mark::Done;
        self.order.push(frame.vertex)?;
        Ok(())
    }

    /// The vertex of the frame needs one that is new.
    fn enter(&mut self, frame: Frame, vertex: usize) -> Result<(), NoMemory>
        requires { vertex < length self.old.marks.items }
        ensures size { length self.new.marks.items ≡ length self.old.marks.items }
        ensures newer { IsNoNewer self.old.marks.items self.new.marks.items }
        ensures turns { OnOk result ((rows : Rows) → Has self.old.marks.items mark.New vertex → turns rows self.new.marks.items self.new.stack.items < turns rows self.old.marks.items (self.old.stack.items ++ frame ∷ [])) }
        ensures search { OnOk result ((rows : Rows) → IsSearch rows self.old.marks.items self.old.order.items (self.old.stack.items ++ frame ∷ []) → Needs (rows frame.vertex) vertex → Has self.old.marks.items mark.New vertex → IsSearch rows self.new.marks.items self.new.order.items self.new.stack.items) }
    {
        self.marks[vertex] = Mark::Open;
        self.stack.push(frame)?;
        self.stack.push(Frame {
            vertex,
            span: 0,
            offset: 0,
        })?;
        Ok(())
    }

    /// The vertex of the frame needs one that is stuck, or one that waits for it.
    fn give_up(&mut self, frame: Frame) -> Result<(), NoMemory>
        requires { AreFramesInside self.old.marks.items (self.old.stack.items ++ frame ∷ []) }
        ensures size { length self.new.marks.items ≡ length self.old.marks.items }
        ensures newer { IsNoNewer self.old.marks.items self.new.marks.items }
        ensures turns { OnOk result ((rows : Rows) → turns rows self.new.marks.items self.new.stack.items < turns rows self.old.marks.items (self.old.stack.items ++ frame ∷ [])) }
        ensures search { OnOk result ((rows : Rows) (w : ℕ) → IsSearch rows self.old.marks.items self.old.order.items (self.old.stack.items ++ frame ∷ []) → Needs (rows frame.vertex) w → Has self.old.marks.items mark.Open w ⊎ Has self.old.marks.items mark.Stuck w → IsSearch rows self.new.marks.items self.new.order.items self.new.stack.items) }
    {
        self.stack.push(frame)?;
        mark_stuck(&mut self.marks, &self.stack);
        self.stack.clear();
        Ok(())
    }

    /// Looks at the vertex at the place of the frame.
    fn meet(&mut self, frame: Frame, vertex: usize) -> Result<(), NoMemory>
        requires frames { AreFramesInside self.old.marks.items (self.old.stack.items ++ frame ∷ []) }
        requires vertex { vertex < length self.old.marks.items }
        requires offset { frame.offset ≤ vertex }
        ensures size { length self.new.marks.items ≡ length self.old.marks.items }
        ensures newer { IsNoNewer self.old.marks.items self.new.marks.items }
        ensures turns { OnOk result ((rows : Rows) (s : TheSpan) → slice_get (rows frame.vertex) frame.span ≡ Some s → frame.offset < s.width → turns rows self.new.marks.items self.new.stack.items < turns rows self.old.marks.items (self.old.stack.items ++ frame ∷ [])) }
        ensures search { OnOk result ((rows : Rows) (s : TheSpan) → IsSearch rows self.old.marks.items self.old.order.items (self.old.stack.items ++ frame ∷ []) → slice_get (rows frame.vertex) frame.span ≡ Some s → frame.offset < s.width → vertex ≡ s.first + frame.offset → IsSearch rows self.new.marks.items self.new.order.items self.new.stack.items) }
    {
        match mark_of(&self.marks, vertex) {
            Mark::Done => {
                self.stack.push(Frame {
                    vertex: frame.vertex,
                    span: frame.span,
                    offset: frame.offset + 1,
                })?;
                Ok(())
            }
            Mark::New => self.enter(frame, vertex),
            Mark::Open => self.give_up(frame),
            Mark::Stuck => self.give_up(frame),
        }
    }

    /// Goes on with a frame that was taken off the stack, whose vertex has this row.
    fn advance(&mut self, row: &[Span], frame: Frame) -> Result<(), NoMemory>
        requires frames { AreFramesInside self.old.marks.items (self.old.stack.items ++ frame ∷ []) }
        requires inside { (w : ℕ) → Needs row.now w → w < length self.old.marks.items }
        ensures size { length self.new.marks.items ≡ length self.old.marks.items }
        ensures newer { IsNoNewer self.old.marks.items self.new.marks.items }
        ensures turns { OnOk result ((rows : Rows) → rows frame.vertex ≡ row.now → turns rows self.new.marks.items self.new.stack.items < turns rows self.old.marks.items (self.old.stack.items ++ frame ∷ [])) }
        ensures search { OnOk result ((rows : Rows) → IsSearch rows self.old.marks.items self.old.order.items (self.old.stack.items ++ frame ∷ []) → rows frame.vertex ≡ row.now → IsSearch rows self.new.marks.items self.new.order.items self.new.stack.items) }
    {
        if frame.span >= row.len() {
            return self.finish(frame);
        }
        let span = row[frame.span];
        if frame.offset < span.width {
            return self.meet(frame, span.first + frame.offset);
        }
        self.stack.push(Frame {
            vertex: frame.vertex,
            span: frame.span + 1,
            offset: 0,
        })?;
        Ok(())
    }

    /// Goes on with the frame that stands on top of the stack.
    fn step(&mut self, graph: &Graph) -> Result<(), NoMemory>
        requires graph { AreInside (row_of graph.now) (size_of_graph graph.now) }
        requires size { length self.old.marks.items ≡ size_of_graph graph.now }
        requires search { IsSearch (row_of graph.now) self.old.marks.items self.old.order.items self.old.stack.items }
        ensures size { length self.new.marks.items ≡ length self.old.marks.items }
        ensures newer { IsNoNewer self.old.marks.items self.new.marks.items }
        ensures turns { OnOk result (0 < length self.old.stack.items → turns (row_of graph.now) self.new.marks.items self.new.stack.items < turns (row_of graph.now) self.old.marks.items self.old.stack.items) }
        ensures search { OnOk result (IsSearch (row_of graph.now) self.new.marks.items self.new.order.items self.new.stack.items) }
    {
        match self.stack.pop() {
            Some(frame) => self.advance(graph.row(frame.vertex), frame),
            None => Ok(()),
        }
    }

    /// Searches from a new vertex until nothing is left on the stack. Each turn goes one vertex or one span
    /// further in the row of the top frame, enters a vertex that was new, takes a frame off, or gives up.
    fn visit(&mut self, graph: &Graph, vertex: usize) -> Result<(), NoMemory>
        requires graph { AreInside (row_of graph.now) (size_of_graph graph.now) }
        requires size { length self.old.marks.items ≡ size_of_graph graph.now }
        requires empty { self.old.stack.items ≡ [] }
        requires search { IsSearch (row_of graph.now) self.old.marks.items self.old.order.items [] }
        requires new { Has self.old.marks.items mark.New vertex }
        ensures size { length self.new.marks.items ≡ length self.old.marks.items }
        ensures newer { IsNoNewer self.old.marks.items self.new.marks.items }
        ensures met { Has self.new.marks.items mark.New vertex → ⊥ }
        ensures empty { OnOk result (self.new.stack.items ≡ []) }
        ensures search { OnOk result (IsSearch (row_of graph.now) self.new.marks.items self.new.order.items []) }
    {
        self.marks[vertex] = Mark::Open;
        self.stack.push(Frame {
            vertex,
            span: 0,
            offset: 0,
        })?;
        'turns: while !self.stack.is_empty() {
            self.step(graph)?;
        }
        Ok(())
    }

    /// Searches from a vertex, unless it was met before.
    fn begin(&mut self, graph: &Graph, vertex: usize) -> Result<(), NoMemory>
        requires graph { AreInside (row_of graph.now) (size_of_graph graph.now) }
        requires size { length self.old.marks.items ≡ size_of_graph graph.now }
        requires vertex { vertex < length self.old.marks.items }
        requires empty { self.old.stack.items ≡ [] }
        requires search { IsSearch (row_of graph.now) self.old.marks.items self.old.order.items [] }
        ensures size { length self.new.marks.items ≡ length self.old.marks.items }
        ensures newer { IsNoNewer self.old.marks.items self.new.marks.items }
        ensures met { Has self.new.marks.items mark.New vertex → ⊥ }
        ensures empty { OnOk result (self.new.stack.items ≡ []) }
        ensures search { OnOk result (IsSearch (row_of graph.now) self.new.marks.items self.new.order.items []) }
    {
        match mark_of(&self.marks, vertex) {
            Mark::New => self.visit(graph, vertex),
            Mark::Open => Ok(()),
            Mark::Done => Ok(()),
            Mark::Stuck => Ok(()),
        }
    }
}

/// Searches from each vertex of a graph.
pub fn sort(alloc: Global, graph: &Graph) -> Result<Search, NoMemory>
    requires { AreInside (row_of graph.now) (size_of_graph graph.now) }
    ensures { IfOk result (λ s. IsSorted (row_of graph.now) (size_of_graph graph.now) s.marks.items s.order.items) }
{
    let size = graph.bits.len() + graph.nodes.len();
    let mut search = Search {
        marks: vec![in alloc; Mark::New; size]?,
        order: Vec::new(alloc),
        stack: Vec::new(alloc),
    };
    for vertex in 0..size {
        search.begin(graph, vertex)?;
    }
    Ok(search)
}
