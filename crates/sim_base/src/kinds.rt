//! The kinds of diagnostics at which a run stops.

/// At which kinds of failed statements of a design a run stops: those that assert, those that assume.
#[derive(Clone, Copy, Debug, PartialEq, Eq)]
pub struct Kinds {
    pub asserts: bool,
    pub assumes: bool,
}
