//! Numbers written into values of bits.
ghost use Rattle.std.specs.Prelude.{◌≡◌, ◌%◌, ◌^◌, ◌<◌, ◌≤◌, length};
ghost use Rattle.sim_base.specs.Values.{IsPut, width_at};

use crate::whole::low_ones;
use signal_words::ones_word;
use sim_base::Values;

/// The number modulo 2^64.
pub fn low_word(number: u128) -> u64
    ensures { result ≡ number % 2 ^ 64 }
{
    (number & u128::from(u64::MAX)) as u64
}

/// Gives a value of more than 64 bits another number, and tells whether it changed.
#[inline(never)]
fn put_wide(into: &mut Values, out: u32, number: u128) -> bool
    requires there { out < length into.old }
    requires wide { 64 < width_at into.old out }
    requires narrow { width_at into.old out ≤ 128 }
    requires below { number < 2 ^ width_at into.old out }
    ensures { IsPut out number into.old into.new result }
{
    let width = into.width(out);
    let low = into.put_field(out, 0, 64, low_word(number));
    let high = into.put_field(out, 64, width - 64, (number >> 64) as u64);
    low | high
}

/// Writes as many of the lowest digits of `number` as a value of at most 64 bits has, and tells whether it changed.
#[inline(always)]
pub fn put_low_word(into: &mut Values, out: u32, number: u64) -> bool
    requires there { out < length into.old }
    requires small { width_at into.old out ≤ 64 }
    ensures { IsPut out (number % 2 ^ width_at into.old out) into.old into.new result }
{
    let word = number & ones_word(into.width(out));
    into.put_word(out, word)
}

/// Writes as many of the lowest digits of `number` as a value of at most 128 bits has, and tells whether it changed.
#[inline(always)]
pub fn put_low(into: &mut Values, out: u32, number: u128) -> bool
    requires there { out < length into.old }
    requires small { width_at into.old out ≤ 128 }
    ensures { IsPut out (number % 2 ^ width_at into.old out) into.old into.new result }
{
    let width = into.width(out);
    if width <= 64 {
        let word = low_word(number) & ones_word(width);
        into.put_word(out, word)
    } else {
        put_wide(into, out, number & low_ones(width))
    }
}
