//! What each mode asks for, as a table.
ghost use Rattle.std.specs.Prelude.{◌≡◌};
ghost use Rattle.command_words.specs.Modes.{line_named, meets};

use crate::command::Mode;

/// What a mode says of a word that may be given.
#[derive(Clone, Copy, Debug, PartialEq, Eq)]
pub(crate) enum Need {
    /// It has to be given.
    Needed,
    /// It may be given.
    Allowed,
    /// It may not be given.
    Excluded,
}

impl Need {
    pub(crate) fn meets(self, is_given: bool) -> bool
        ensures { result ≡ meets self is_given }
    {
        match self {
            Need::Needed => is_given,
            Need::Allowed => true,
            Need::Excluded => !is_given,
        }
    }
}

/// A mode, and what it says of each word.
#[derive(Clone, Copy, Debug, PartialEq, Eq)]
pub(crate) struct ModeLine {
    pub(crate) mode: Mode,
    pub(crate) number: Need,
    pub(crate) design: Need,
    pub(crate) stimulus: Need,
    pub(crate) top: Need,
}

const TRACE: ModeLine = ModeLine {
    mode: Mode::Trace,
    number: Need::Excluded,
    design: Need::Needed,
    stimulus: Need::Needed,
    top: Need::Allowed,
};

const SOLO: ModeLine = ModeLine {
    mode: Mode::Solo,
    number: Need::Excluded,
    design: Need::Needed,
    stimulus: Need::Needed,
    top: Need::Allowed,
};

const DEMO: ModeLine = ModeLine {
    mode: Mode::Demo,
    number: Need::Needed,
    design: Need::Excluded,
    stimulus: Need::Excluded,
    top: Need::Excluded,
};

pub(crate) fn line_named(word: &str) -> Option<ModeLine>
    ensures { result ≡ line_named word.now }
{
    match word {
        "trace" => Some(TRACE),
        "solo" => Some(SOLO),
        "demo" => Some(DEMO),
        _ => None,
    }
}
