//! Numbers that are read from the least digit on, at most 64 digits at a time.
ghost use Rattle.std.specs.Prelude.{◌≡◌, ℕ, ◌-◌, ◌<◌, ◌≤◌, ◌^◌};
ghost use Rattle.cell_wide.specs.Words.{Passes};

use signal_words::{PieceReader, SigReader, ones_word};

/// A number that is read from its least digit on. It has no end: a signal goes on with zeros.
pub trait Words: Drop {
    /// For each number of digits the number that so many of the lowest make which are left.
    ghost low: { Self → ℕ → ℕ };

    /// Reads the number of the next `n` digits, at most 64.
    fn next(&mut self, n: u32) -> u64
        requires { n ≤ 64 }
        ensures word { result ≡ low self.old n }
        ensures rest { Passes (low self.old) n result (low self.new) };

    ghost below: { (s : Self) (w : ℕ) → low s w < 2 ^ w };
}

impl<'a> Words for SigReader<'a> {
    ghost use Rattle.cell_wide.specs.Words.{low_of_number};
    ghost use Rattle.cell_wide.specs.Below.{number_below};

    ghost low = { λ s. low_of_number s.number };

    ghost below = { λ s w. number_below s.number w };

    fn next(&mut self, n: u32) -> u64 {
        self.take(n)
    }
}

impl<'a> Words for PieceReader<'a> {
    ghost use Rattle.cell_wide.specs.Words.{low_of_number};
    ghost use Rattle.cell_wide.specs.Below.{number_below};

    ghost low = { λ s. low_of_number s.number };

    ghost below = { λ s w. number_below s.number w };

    #[inline(always)]
    fn next(&mut self, n: u32) -> u64 {
        self.take(n)
    }
}

/// Ones without an end, or zeros.
#[derive(Drop)]
pub struct Fill {
    pub ones: bool,
}

impl Words for Fill {
    ghost use Rattle.cell_wide.specs.Words.{low_of_fill};
    ghost use Rattle.cell_wide.specs.Below.{fill_below};

    ghost low = { λ s. low_of_fill s.ones };

    ghost below = { λ s w. fill_below s.ones w };

    fn next(&mut self, n: u32) -> u64 {
        if self.ones { ones_word(n) } else { 0 }
    }
}

/// The `left` lowest digits of one number below those of another.
#[derive(Drop)]
pub struct Chain<A: Words, B: Words> {
    pub low: A,
    pub left: u32,
    pub high: B,
}

impl<A: Words, B: Words> Words for Chain<A, B> {
    ghost use Rattle.cell_wide.specs.Words.{low_of_chain};
    ghost use Rattle.cell_wide.specs.Below.{chain_below};

    ghost low = { λ s. low_of_chain (A.low s.low) s.left (B.low s.high) };

    ghost below = { λ s w. chain_below (A.low s.low) (B.low s.high) s.left w (A.below s.low) (B.below s.high) };

    fn next(&mut self, n: u32) -> u64 {
        if n <= self.left {
            self.left -= n;
            return self.low.next(n);
        }
        if self.left == 0 {
            return self.high.next(n);
        }
        let under = self.left;
        self.left = 0;
        self.low.next(under) + (self.high.next(n - under) << under)
    }
}

/// Each digit of a number the other way round.
#[derive(Drop)]
pub struct Inverse<A: Words> {
    pub of: A,
}

impl<A: Words> Words for Inverse<A> {
    ghost use Rattle.cell_wide.specs.Words.{low_of_inverse};
    ghost use Rattle.cell_wide.specs.Below.{inverse_below};

    ghost low = { λ s. low_of_inverse (A.low s.of) };

    ghost below = { λ s w. inverse_below (A.low s.of) w };

    #[inline(always)]
    fn next(&mut self, n: u32) -> u64 {
        ones_word(n) - self.of.next(n)
    }
}

/// How two digits make one.
#[derive(Clone, Copy, Debug, PartialEq, Eq)]
pub enum Bitwise {
    And,
    Or,
    Xor,
}

/// Two numbers, combined digit by digit.
#[derive(Drop)]
pub struct Pair<A: Words, B: Words> {
    pub one: A,
    pub other: B,
    pub by: Bitwise,
}

impl<A: Words, B: Words> Words for Pair<A, B> {
    ghost use Rattle.cell_wide.specs.Words.{combined};
    ghost use Rattle.cell_wide.specs.Below.{combined_below};

    ghost low = { λ s w. combined s.by (A.low s.one w) (B.low s.other w) };

    ghost below = { λ s w. combined_below s.by (A.low s.one w) (B.low s.other w) w (A.below s.one w) (B.below s.other w) };

    #[inline(always)]
    fn next(&mut self, n: u32) -> u64 {
        let one = self.one.next(n);
        let other = self.other.next(n);
        match self.by {
            Bitwise::And => one & other,
            Bitwise::Or => one | other,
            Bitwise::Xor => one ^ other,
        }
    }
}
