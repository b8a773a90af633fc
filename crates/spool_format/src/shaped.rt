//! Whether a sample has the words of slots of some widths.
ghost use Rattle.std.specs.Prelude.{◌≡◌, ◌^◌, ◌<◌, ◌≤◌, nat_lt, true, length, get_or};
ghost use Rattle.sim_base.specs.Shape.{words_of_width, words_of_widths};
ghost use Rattle.sim_base.specs.TimeText.{largest_time};
ghost use Rattle.spool_format.specs.Records.{AreBelow, IsSampleOf, slot_number};

use crate::sample::Sample;
use sim_base::Shape;

/// Whether a sample has the words of all slots, and each slot shows a number below 2 to its width.
pub fn is_sample(shape: &Shape, s: &Sample) -> bool
    ensures yes { result ≡ true → IsSampleOf shape.now s.now }
    ensures no { IsSampleOf shape.now s.now → result ≡ true }
{
    let _slots = shape.len();
    let _femtoseconds = s.time.femtoseconds();
    s.words.len() as u64 == shape.words() && are_below(shape.widths(), s.words.as_slice())
}

/// Whether each slot shows a number below 2 to its width.
fn are_below(widths: &[u32], words: &[u32]) -> bool
    requires { length words.now ≡ words_of_widths widths.now }
    ensures yes { result ≡ true → AreBelow widths.now words.now (length widths.now) }
    ensures no { AreBelow widths.now words.now (length widths.now) → result ≡ true }
{
    let mut place = 0usize;
    for width in widths {
        let end = place + width.div_ceil(32) as usize;
        if !is_below(&words[place..end], *width) {
            return false;
        }
        place = end;
    }
    true
}

/// Whether the words of a slot show a number below 2 to its width.
fn is_below(words: &[u32], width: u32) -> bool
    requires { length words.now ≡ words_of_width width }
    ensures { result ≡ nat_lt (slot_number words.now) (2 ^ width) }
{
    let [word, rest @ ..] = words else {
        return true;
    };
    let word = *word;
    if width < 32 {
        u64::from(word) < 1u64 << width
    } else {
        is_below(rest, width - 32)
    }
}
