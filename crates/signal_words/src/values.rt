//! Words of values of 1 to 64 bits.
ghost use Rattle.std.specs.Prelude.{◌≡◌, ◌↔◌, ◌-◌, ◌<◌, ◌≤◌, ◌^◌, IsTrue};

/// The width of a signal in bits, at most 64, and its number.
#[derive(Clone, Copy, Debug)]
pub struct SigWord {
    pub width: u32,
    pub number: u64,
}

/// The word with `n` digits that are all 1.
#[inline(always)]
pub fn ones_word(n: u32) -> u64
    requires { n ≤ 64 }
    ensures { result ≡ 2 ^ n - 1 }
{
    if n == 64 { u64::MAX } else { (1u64 << n) - 1 }
}

/// Whether a value of this width has one word.
#[inline(always)]
pub fn is_one_word(width: u32) -> bool
    ensures { IsTrue result ↔ ((0 < width) × (width ≤ 64)) }
{
    width > 0 && width <= 64
}
