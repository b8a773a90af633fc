//! Times in femtoseconds, and their text.
ghost use Rattle.std.specs.Prelude.{◌≡◌, ◌+◌, ◌-◌, ◌^◌, ◌<◌, ◌≤◌, ◌==◌, Some, length, position, take};
ghost use Rattle.sim_base.specs.TimeText.{largest_time, read_time, time_of, time_text};

use crate::digits::{number_in_digits, write_lowest_digits};
use itoa::Buffer;
use std::marker::Model;

/// Femtoseconds in a second.
const SECOND: u128 = 1_000_000_000_000_000;

/// The largest time: 4294967295.999999999999999 seconds.
const LARGEST: u128 = 4_294_967_295_999_999_999_999_999;

/// How many digits of a second's fraction are written.
const FRACTION_DIGITS: usize = 15;

/// How many digits of seconds are read at most.
const SECOND_DIGITS: usize = 10;

/// A time after the start of a run, seen as its number of femtoseconds, which is at most that of
/// 4294967295.999999999999999 seconds.
#[derive(Clone, Copy, Debug, PartialEq, Eq, PartialOrd, Ord, Hash)]
pub struct Time {
    femtoseconds: u128,
}

impl Model for Time {
    ghost use Rattle.std.specs.Prelude.{ℕ, ◌≤◌};
    ghost use Rattle.sim_base.specs.TimeText.{largest_time};

    ghost Value = { ℕ };

    ghost view = { λ t. t.femtoseconds };

    ghost invariant = { λ t. t.femtoseconds ≤ largest_time };

    ghost inverse = { λ n. record { femtoseconds = n } };
}

impl Time {
    /// The start of a run.
    pub fn zero() -> Time
        ensures { result ≡ 0 }
    {
        Time { femtoseconds: 0 }
    }

    /// The time of so many femtoseconds, or none above the largest time.
    pub fn of(femtoseconds: u128) -> Option<Time>
        ensures { result ≡ time_of femtoseconds }
    {
        if femtoseconds <= LARGEST {
            Some(Time { femtoseconds })
        } else {
            None
        }
    }

    /// Reads 1 to 10 digits of seconds, a dot and 1 to 15 digits of a second's fraction.
    pub fn read(text: &[u8]) -> Option<Time>
        ensures { result ≡ read_time text.now }
    {
        let dot = dot_of(text)?;
        let seconds = number_in_digits(&text[..dot], SECOND_DIGITS)?;
        let fraction = &text[dot + 1..];
        let digits = number_in_digits(fraction, FRACTION_DIGITS)?;
        let missing = FRACTION_DIGITS - fraction.len();
        Time::of(seconds as u128 * SECOND + digits as u128 * 10u128.pow(missing as u32))
    }

    /// The number of femtoseconds after the start of the run.
    pub fn femtoseconds(&self) -> u128
        ensures value { result ≡ self.now }
        ensures most { result ≤ largest_time }
    {
        self.femtoseconds
    }

    /// Writes seconds without leading zeros, a dot and 15 digits, and answers how many bytes these are.
    pub fn write(&self, into: &mut [u8; 26]) -> usize
        ensures within { result ≤ 26 }
        ensures text { take result into.new ≡ time_text self.now }
        ensures read { read_time (take result into.new) ≡ Some self.now }
    {
        let seconds = (self.femtoseconds / SECOND) as u64;
        let fraction = (self.femtoseconds % SECOND) as u64;
        let mut buffer = Buffer::new();
        let text = buffer.format(seconds).as_bytes();
        let dot = text.len();
        into[..dot].copy_from_slice(text);
        into[dot] = b'.';
        let end = dot + 1 + FRACTION_DIGITS;
        write_lowest_digits(&mut into[dot + 1..end], 10, fraction);
        end
    }
}

fn dot_of(text: &[u8]) -> Option<usize>
    ensures { result ≡ position (λ c. c == 46) text.now }
{
    text.iter().position(|byte| *byte == b'.')
}
