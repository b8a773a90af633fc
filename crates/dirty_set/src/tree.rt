//! Words of marks below words that say which of them are not 0.
ghost use Rattle.std.specs.Prelude.{◌≡◌, ◌≢◌, ℕ, ◌+◌, ◌-◌, ◌*◌, ◌^◌, ◌<◌, ◌≤◌, length, drop, slice_index, slice_set};
ghost use Rattle.std.specs.Int.{bit_at};
ghost use Rattle.sim_base.specs.BitValue.{AreWords, digit_after_set, digit_of};
ghost use Rattle.dirty_set.specs.Tree.{IsSummed, IsSummedBut, first_place};

/// The first leaf that is not 0. It reads one word a level, from the root down.
pub(crate) fn least_leaf(words: &[u64], depth: u32) -> usize
    requires some { slice_index words.now 0 ≢ 0 }
    requires few { length words.now < 2 ^ 40 }
    requires summed { IsSummed (first_place depth) words.now }
    ensures leaf { first_place depth ≤ result }
    ensures some { slice_index words.now result ≢ 0 }
    ensures least { (place : ℕ) → first_place depth ≤ place → place < result → slice_index words.now place ≡ 0 }
{
    let mut place = 0usize;
    for _level in 0..depth {
        place = 64 * place + 1 + words[place].trailing_zeros() as usize;
    }
    place
}

/// Gives a leaf another word, and mends the words above it as far as they change.
#[inline(always)]
pub(crate) fn put_leaf(words: &mut Vec<u64>, place: usize, word: u64)
    requires { place < length words.old.items }
    ensures fit { AreWords words.new.items }
    ensures room { length words.new.items ≡ length words.old.items }
    ensures summed { (first : ℕ) → first ≤ place → length words.old.items ≤ 64 * first + 1 → IsSummed first words.old.items → IsSummed first words.new.items }
    ensures leaves { (first : ℕ) → first ≤ place → length words.old.items ≤ 64 * first + 1 → drop first words.new.items ≡ slice_set (drop first words.old.items) (place - first) word }
{
    let old = words[place];
    words[place] = word;
    if (old == 0) != (word == 0) {
        mend(words, place);
    }
}

/// Mends the words above the one at a place, which became 0 or is 0 no more.
fn mend(words: &mut Vec<u64>, changed: usize)
    requires { changed < length words.old.items }
    ensures room { length words.new.items ≡ length words.old.items }
    ensures summed { (first : ℕ) → length words.old.items ≤ 64 * first + 1 → IsSummedBut changed first words.old.items → IsSummed first words.new.items }
    ensures leaves { (first : ℕ) → length words.old.items ≤ 64 * first + 1 → drop first words.new.items ≡ drop first words.old.items }
{
    let mut place = changed;
    while place != 0 {
        place = mend_above(words, place);
    }
}

/// Mends the bit for the word at a place, and answers the place of the word for which a bit is to be mended next: 0
/// where there is none.
fn mend_above(words: &mut Vec<u64>, place: usize) -> usize
    requires inside { place < length words.old.items }
    requires below { 0 < place }
    ensures next { result < place }
    ensures room { length words.new.items ≡ length words.old.items }
    ensures summed { (first : ℕ) → length words.old.items ≤ 64 * first + 1 → IsSummedBut place first words.old.items → IsSummedBut result first words.new.items }
    ensures leaves { (first : ℕ) → length words.old.items ≤ 64 * first + 1 → drop first words.new.items ≡ drop first words.old.items }
{
    let parent = (place - 1) / 64;
    let old = words[parent];
    let word = with_digit(old, ((place - 1) % 64) as u32, words[place] != 0);
    words[parent] = word;
    if (old == 0) == (word == 0) { 0 } else { parent }
}

/// The word with its bit `at` made 1 or 0.
#[inline(always)]
pub(crate) fn with_digit(word: u64, at: u32, v: bool) -> u64
    requires { at < 64 }
    ensures { (j : ℕ) → j < 64 → bit_at result j ≡ digit_after_set at (digit_of v) word j }
{
    let mask = 1u64 << at;
    if v { word | mask } else { word & !mask }
}
