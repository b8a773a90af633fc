//! The list of entries.
ghost use Rattle.std.specs.Prelude.{◌≡◌};
ghost use Rattle.hall_core.specs.Hall.{entries};

use crate::entry::Entry;

/// What happened, in order. A contract sees `entries` of it.
#[derive(Debug, Drop)]
pub struct History {
    pub(crate) list: Vec<Entry>,
}

impl History {
    /// The history of these entries.
    pub fn new(list: Vec<Entry>) -> History
        ensures { entries result ≡ list.items }
    {
        History { list }
    }

    pub fn as_slice(&self) -> &[Entry]
        ensures { result.now ≡ entries self.now }
    {
        self.list.as_slice()
    }

    /// Gives the list back, without a copy.
    pub fn into_list(self) -> Vec<Entry>
        ensures { result.items ≡ entries self }
    {
        self.list
    }
}
