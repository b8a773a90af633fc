//! Reading the fields of a record.
ghost use Rattle.std.specs.Prelude.{◌≡◌, ◌<◌};
ghost use Rattle.spool_format.specs.Fields.{begins_record, changes_at, tag_at, time_at};

use sim_base::Time;

/// The first word of the record that begins at a place: 0 of a whole record, 1 of one of what changed. None where the words
/// end before it, or where it is another.
pub fn tag(words: &[u32], at: usize) -> Option<u32>
    ensures { result ≡ tag_at words.now at }
{
    if begins_record(words, at, 1) {
        Some(words[at])
    } else {
        None
    }
}

/// The time of the record that begins at a place. None where the words end before the time does, where the first word is
/// neither 0 nor 1, and where the number is above the largest time.
pub fn time(words: &[u32], at: usize) -> Option<Time>
    ensures { result ≡ time_at words.now at }
{
    if begins_record(words, at, 4) {
        let [first, second, third] = [words[at + 1], words[at + 2], words[at + 3]];
        Time::of(u128::from(first) + u128::from(second) * (1 << 32) + u128::from(third) * (1 << 64))
    } else {
        None
    }
}

/// How many slots the record of what changed that begins at a place lists. None where the words end before this number, and
/// where the first word is not 1.
pub fn changes(words: &[u32], at: usize) -> Option<u32>
    ensures { result ≡ changes_at words.now at }
{
    if begins_record(words, at, 5) && words[at] == 1 {
        Some(words[at + 4])
    } else {
        None
    }
}

/// Whether the word at a place is 0 or 1, and `n` words, at least one, stand from it on.
fn begins_record(words: &[u32], at: usize, n: usize) -> bool
    requires { 0 < n }
    ensures { result ≡ begins_record words.now at n }
{
    n <= words.len() && at <= words.len() - n && words[at] <= 1
}
