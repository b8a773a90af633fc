//! Pieces of a text, as they stand in it.
ghost use Rattle.std.specs.Prelude.{◌≡◌, IfOk, IsTrue, ◌↔◌};

use sim_base::{Name, NoMemory};
use std::alloc::Global;
use std::marker::Model;

/// A piece of a text, as it stands there: nothing is copied. A contract sees the list of its bytes.
#[derive(Debug, Drop)]
pub struct Spelling<'a> {
    bytes: &'a [u8],
}

impl<'a> Model for Spelling<'a> {
    ghost use Rattle.std.specs.Prelude.{List, ℕ};

    ghost Value = { List ℕ };

    ghost view = { λ s. s.bytes.now };
}

impl<'a> Spelling<'a> {
    /// The same piece of the text.
    pub fn copied(&self) -> Spelling<'a>
        ensures { result ≡ self.now }
    {
        Spelling { bytes: self.bytes }
    }

    pub fn of(bytes: &'a [u8]) -> Spelling<'a>
        ensures { result ≡ bytes.now }
    {
        Spelling { bytes }
    }

    pub fn as_bytes(&self) -> &'a [u8]
        ensures { result.now ≡ self.now }
    {
        self.bytes
    }

    /// Whether it is this text.
    pub fn is(&self, text: &[u8]) -> bool
        ensures { IsTrue result ↔ (self.now ≡ text.now) }
    {
        self.bytes == text
    }

    /// A name of these bytes.
    pub fn to_name(&self, alloc: Global) -> Result<Name, NoMemory>
        ensures { IfOk result (λ name. name ≡ self.now) }
    {
        Name::copy_of(alloc, self.bytes)
    }
}
