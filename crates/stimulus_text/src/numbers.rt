//! Numbers of repeats.
ghost use Rattle.std.specs.Prelude.{◌≡◌};
ghost use Rattle.stimulus_text.specs.Numbers.{repeats_of};

use sim_base::number_in_digits;

/// A block comes at most so often.
const MOST_REPEATS: u64 = 4_294_967_295;

/// How many digits of the number of repeats are read at most.
const REPEATS_DIGITS: usize = 10;

/// How often a block comes.
pub fn read_repeats(word: &[u8]) -> Option<u64>
    ensures { result ≡ repeats_of word.now }
{
    let number = number_in_digits(word, REPEATS_DIGITS)?;
    if number >= 1 && number <= MOST_REPEATS {
        Some(number)
    } else {
        None
    }
}
