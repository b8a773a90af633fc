//! What a history is a list of.

use sim_base::Kinds;

/// One thing that happened. A client is named by its number, counted from 0 in the order of opening.
#[derive(Clone, Copy, Debug, PartialEq, Eq)]
pub enum Entry {
    /// The client is there from now on.
    Open(u64),
    /// A packet of the client, and what it does.
    Packet(u64, Act),
    /// So many samples were recorded. The flag says that a diagnostic of the goal's kinds fires at the last one.
    Record(u64, bool),
    /// The next sample does not settle.
    Unsettled,
    /// The client is gone, and why.
    Close(u64, Why),
    /// Nothing follows.
    End,
}

/// What a packet does.
#[derive(Clone, Copy, Debug, PartialEq, Eq)]
pub enum Act {
    /// Neither of the others.
    Look,
    /// Asks for so many samples in all, and to stop at diagnostics of these kinds.
    Run(u64, Kinds),
    /// Asks to stop.
    Pause,
}

/// Why a client is gone.
#[derive(Clone, Copy, Debug, PartialEq, Eq)]
pub enum Why {
    /// Its bytes ended, and it was answered.
    Ended,
    /// Its link failed.
    Fault,
    /// A packet was too long.
    TooLong,
    /// It took what was sent to it too slowly.
    Slow,
    /// It sent more bytes than are read.
    Limit,
    /// There was no memory for it.
    Memory,
    /// No client is served any more.
    Over,
}

/// How far samples are to be recorded.
#[derive(Clone, Copy, Debug, PartialEq, Eq)]
pub enum Goal {
    /// No further for now.
    Hold,
    /// Up to so many samples in all, or to a diagnostic of these kinds.
    To(u64, Kinds),
    /// Never again.
    Over,
}
