//! What a packet asks.
use sim_base::{Kinds, Name, Time};
use sqlite_items::Items;

/// What a client asks by one packet.
#[derive(Debug, Drop)]
pub enum Request {
    /// The first packet of a client.
    Greeting {
        version: u64,
    },
    /// All scopes, or one and those below it.
    ListScopes {
        scope: Option<Name>,
    },
    /// All items, or those directly in one scope.
    ListItems {
        scope: Option<Name>,
    },
    /// Sets a reference to items, or deletes it where there are none.
    ReferenceItems {
        reference: Name,
        items: Option<Items<Designation>>,
    },
    /// The samples with a time from `begin` to `end`.
    QueryInterval {
        begin: Time,
        end: Time,
        /// The reference to the items whose values are wanted.
        items: Option<Name>,
        encoding: Option<Name>,
        collapse: bool,
        diagnostics: bool,
    },
    Status,
    /// Runs on to a time or to the end, and stops at diagnostics of these kinds.
    RunSimulation {
        until: Option<Time>,
        kinds: Kinds,
    },
    PauseSimulation,
}

/// One designated item: a node, or rows of a memory from the first to the last, rising or falling.
#[derive(Debug, Drop)]
pub struct Designation {
    pub name: Name,
    pub rows: Option<(u64, u64)>,
}
