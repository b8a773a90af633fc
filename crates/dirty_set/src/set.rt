//! The set of marked numbers.
ghost use Rattle.std.specs.Prelude.{◌≡◌, ◌^◌, ◌<◌, ◌==◌, IfOk, IfSome, None};
ghost use Rattle.sim_base.specs.BitValue.{zeros};
ghost use Rattle.dirty_set.specs.Marks.{IsWithMark, IsLeastTaken};

use crate::tree::{least_leaf, put_leaf, with_digit};
use sim_base::NoMemory;
use std::alloc::Global;
use std::marker::Model;

/// Numbers below a size, of which each is marked or not. Contracts see a value of bits: its width is the size, and its
/// bit `i` says whether `i` is marked. Only `new` takes memory: between one and about two bits for each number, and a
/// word at least. The marks stand in words of 64 bits below levels of words that say which words below them are not 0:
/// one level up to a size of 64, two up to 4,096, three up to 262,144, and six for any. A call reads a few words a level.
#[derive(Debug, Drop)]
pub struct DirtySet {
    /// The words level by level, from the root to the leaves.
    words: Vec<u64>,
    size: u32,
    /// The place of the first leaf.
    first: usize,
    /// How many levels stand above the leaves.
    depth: u32,
}

impl Model for DirtySet {
    ghost use Rattle.std.specs.Prelude.{drop};
    ghost use Rattle.sim_base.specs.BitValue.{BitValue, bit_value, number_of_words};
    ghost use Rattle.dirty_set.specs.Tree.{IsTree};

    ghost Value = { BitValue };

    ghost view = { λ s. bit_value s.size (number_of_words (drop s.first s.words.items)) };

    ghost invariant = { λ s. IsTree s.size s.first s.depth s.words.items };
}

impl DirtySet {
    /// The numbers below `n`, with none marked.
    pub fn new(alloc: Global, n: u32) -> Result<DirtySet, NoMemory>
        ensures { IfOk result (λ set. set ≡ zeros n) }
    {
        let leaves = (n.saturating_sub(1) / 64) as usize + 1;
        let mut first = 0usize;
        let mut depth = 0u32;
        while 63 * first + 1 < leaves {
            first = 64 * first + 1;
            depth += 1;
        }
        let words = vec![in alloc; 0u64; first + leaves]?;
        Ok(DirtySet {
            words,
            size: n,
            first,
            depth,
        })
    }

    /// How many numbers there are, marked or not.
    pub fn size(&self) -> u32
        ensures value { result ≡ self.now.width }
        ensures below { self.now.number < 2 ^ self.now.width }
    {
        let _ = &self.words;
        self.size
    }

    /// Whether none is marked, by a look at one word.
    #[inline(always)]
    pub fn is_empty(&self) -> bool
        ensures { result ≡ (self.now.number == 0) }
    {
        self.words[0] == 0
    }

    /// Marks `i`. It goes up from the word of `i` only as far as the words were 0 before.
    #[inline(always)]
    pub fn mark(&mut self, i: u32)
        requires { i < self.old.width }
        ensures { IsWithMark i self.old self.new }
    {
        let place = self.first + (i / 64) as usize;
        let word = with_digit(self.words[place], i % 64, true);
        put_leaf(&mut self.words, place, word);
    }

    /// Takes the least marked number, which is then marked no more. It goes from the root down to the number's word, and
    /// up again as far as the words became 0, whatever lies between two marks.
    pub fn take(&mut self) -> Option<u32>
        ensures some { IfSome result (λ i. IsLeastTaken i self.old self.new) }
        ensures none { result ≡ None → self.old.number ≡ 0 }
        ensures same { result ≡ None → self.new ≡ self.old }
    {
        if self.words[0] == 0 {
            return None;
        }
        let place = least_leaf(self.words.as_slice(), self.depth);
        let word = self.words[place];
        let at = word.trailing_zeros();
        put_leaf(&mut self.words, place, with_digit(word, at, false));
        Some(((place - self.first) * 64 + at as usize) as u32)
    }
}
