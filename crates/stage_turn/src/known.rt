//! What a seat knows, as clauses and proofs see it. The program makes no value of these types.

use std::collections::LinkedList;

/// The pen or a share, the history that was seen with it, and the clients that were opened with it. The pen makes a
/// part the writer's, and a share above 0 a clerk's; all shares add up to 1,024.
pub struct Part<E> {
    pub pen: bool,
    pub share: u64,
    pub seen: LinkedList<E>,
    pub clients: LinkedList<u64>,
}

/// What a seat owns, whether it holds the turn, the run of its turn, and the last count that it was told, which is 0
/// before the first. The note serves the crate's own proofs: between two calls it is a part with nothing.
pub struct Known<R, E> {
    pub own: Part<E>,
    pub note: Part<E>,
    pub in_turn: bool,
    pub run: Option<R>,
    pub heard: u64,
}
