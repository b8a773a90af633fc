//! The shape of a recording.
ghost use Rattle.std.specs.Prelude.{◌≡◌, ◌^◌, ◌<◌, ◌==◌, length, slice_index, vec_len};
ghost use Rattle.sim_base.specs.Shape.{words_of_width, words_of_widths};

use std::marker::Model;

/// The widths in bits of the slots of a recording, fewer than 4,294,967,296 of them. A contract sees the
/// list of the widths. A sample has the words of 32 bits of each slot in turn.
#[derive(Debug, Drop)]
pub struct Shape {
    widths: Vec<u32>,
}

impl Model for Shape {
    ghost use Rattle.std.specs.Prelude.{List, ℕ, ◌^◌, ◌<◌, length};

    ghost Value = { List ℕ };

    ghost view = { λ s. s.widths.items };

    ghost invariant = { λ s. length s.widths.items < 2 ^ 32 };
}

impl Shape {
    /// Takes the widths over.
    pub fn new(widths: Vec<u32>) -> Shape
        requires { vec_len widths < 2 ^ 32 }
        ensures { result ≡ widths.items }
    {
        Shape { widths }
    }

    /// How many slots there are.
    pub fn len(&self) -> u32
        ensures value { result ≡ length self.now }
        ensures fits { length self.now < 2 ^ 32 }
    {
        self.widths.len() as u32
    }

    pub fn is_empty(&self) -> bool
        ensures { result ≡ (length self.now == 0) }
    {
        self.widths.is_empty()
    }

    /// The width of a slot in bits.
    pub fn width(&self, slot: u32) -> u32
        requires { slot < length self.now }
        ensures { result ≡ slice_index self.now slot }
    {
        self.widths[slot as usize]
    }

    /// How many words of 32 bits a slot takes in a sample.
    pub fn words_of(&self, slot: u32) -> u32
        requires { slot < length self.now }
        ensures { result ≡ words_of_width (slice_index self.now slot) }
    {
        self.width(slot).div_ceil(32)
    }

    /// How many words of 32 bits a sample takes.
    pub fn words(&self) -> u64
        ensures value { result ≡ words_of_widths self.now }
        ensures fits { words_of_widths self.now < 2 ^ 59 }
    {
        let _slots = self.len();
        let mut words = 0u64;
        for width in &self.widths {
            words += u64::from(width.div_ceil(32));
        }
        words
    }

    /// The width of each slot in bits.
    pub fn widths(&self) -> &[u32]
        ensures { result.now ≡ self.now }
    {
        self.widths.as_slice()
    }

    /// Gives the widths back, without a copy.
    pub fn into_widths(self) -> Vec<u32>
        ensures { result.items ≡ self }
    {
        self.widths
    }
}
