//! Samples of a recording.
ghost use Rattle.std.specs.Prelude.{◌≡◌, ◌+◌, ◌≤◌, ◌==◌, length};
ghost use Rattle.spool_format.specs.Reading.{written_at};

use sim_base::Time;
use std::marker::Model;

/// Words of 32 bits, which a contract sees as their list.
#[derive(Debug, Drop)]
pub struct Words {
    items: Vec<u32>,
}

impl Model for Words {
    ghost use Rattle.std.specs.Prelude.{List, ℕ};

    ghost Value = { List ℕ };

    ghost view = { λ w. w.items.items };
}

impl Words {
    /// Takes the words over.
    pub fn new(items: Vec<u32>) -> Words
        ensures { result ≡ items.items }
    {
        Words { items }
    }

    pub fn as_slice(&self) -> &[u32]
        ensures { result.now ≡ self.now }
    {
        self.items.as_slice()
    }

    /// Takes over the values of as many words.
    pub fn copy_from(&mut self, words: &[u32])
        requires { length words.now ≡ length self.old }
        ensures { self.new ≡ words.now }
    {
        self.items.copy_from_slice(words);
    }

    /// Puts words over those from a place on.
    pub fn write_at(&mut self, place: usize, words: &[u32])
        requires { place + length words.now ≤ length self.old }
        ensures { self.new ≡ written_at self.old place words.now }
    {
        let _len = self.items.len();
        let end = place + words.len();
        self.items[place..end].copy_from_slice(words);
    }

    /// How many words there are.
    pub fn len(&self) -> usize
        ensures { result ≡ length self.now }
    {
        self.items.len()
    }

    pub fn is_empty(&self) -> bool
        ensures { result ≡ (length self.now == 0) }
    {
        self.items.is_empty()
    }

    /// Gives the words back, without a copy.
    pub fn into_vec(self) -> Vec<u32>
        ensures { result.items ≡ self }
    {
        self.items
    }
}

/// What the slots of a recording showed at one time: the words of each slot in turn, the least first. `number` is the
/// sample's place in the run, from 0 on.
#[derive(Debug, Drop)]
pub struct Sample {
    pub number: u64,
    pub time: Time,
    pub words: Words,
}
