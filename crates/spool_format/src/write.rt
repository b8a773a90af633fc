//! Writing records.
ghost use Rattle.std.specs.Prelude.{◌≡◌, ◌-◌, ◌^◌, ◌≤◌, ◌++◌, ◌∷◌, ◌<◌, true, if◌then◌else◌, IfOk, is_ok, length, take, drop};
ghost use Rattle.std.specs.Str.{bytes_eq};
ghost use Rattle.sim_base.specs.Shape.{words_of_widths};
ghost use Rattle.spool_format.specs.Records.{change_record, changed_among, changed_slots, place_of, slots_with_words, time_words, whole_record};

use crate::sample::Sample;
use sim_base::{NoMemory, Shape, Time};

/// How many values a word has.
const WORD: u128 = 1 << 32;

/// How many values two words have.
const TWO_WORDS: u128 = 1 << 64;

/// How many words are compared at once.
const RUN: usize = 256;

/// How many words are compared at once where those of a run are not all the same.
const PART: usize = 32;

/// How many slots are compared one by one, from the first that differs on.
const BLOCK: usize = 4;

/// Appends the whole record of a sample. Where memory is wanting, the words are as before.
pub fn write_whole(shape: &Shape, s: &Sample, into: &mut Vec<u32>) -> Result<(), NoMemory>
    requires { length s.now.words ≡ words_of_widths shape.now }
    ensures { into.new.items ≡ (if is_ok result then into.old.items ++ whole_record s.now else into.old.items) }
{
    let start = into.len();
    let _ = shape;
    let done = append_whole(s, into);
    if done.is_err() {
        into.truncate(start);
    }
    done
}

/// Appends the record of what changed from one sample to another. Where memory is wanting, the words are as before.
pub fn write_change(
    shape: &Shape,
    old: &Sample,
    s: &Sample,
    into: &mut Vec<u32>,
) -> Result<(), NoMemory>
    requires before { length old.now.words ≡ words_of_widths shape.now }
    requires after { length s.now.words ≡ words_of_widths shape.now }
    ensures { into.new.items ≡ (if is_ok result then into.old.items ++ change_record shape.now old.now s.now else into.old.items) }
{
    let start = into.len();
    let done = append_change(shape, old, s, into);
    if done.is_err() {
        into.truncate(start);
    }
    done
}

fn append_whole(s: &Sample, into: &mut Vec<u32>) -> Result<(), NoMemory>
    ensures ok { is_ok result ≡ true → into.new.items ≡ into.old.items ++ whole_record s.now }
    ensures begins { take (length into.old.items) into.new.items ≡ into.old.items }
{
    let [first, second, third] = time_words(s.time);
    into.extend_from_slice(&[0, first, second, third])?;
    into.extend_from_slice(s.words.as_slice())?;
    Ok(())
}

fn append_change(
    shape: &Shape,
    old: &Sample,
    s: &Sample,
    into: &mut Vec<u32>,
) -> Result<(), NoMemory>
    requires before { length old.now.words ≡ words_of_widths shape.now }
    requires after { length s.now.words ≡ words_of_widths shape.now }
    ensures ok { is_ok result ≡ true → into.new.items ≡ into.old.items ++ change_record shape.now old.now s.now }
    ensures begins { take (length into.old.items) into.new.items ≡ into.old.items }
{
    let [first, second, third] = time_words(s.time);
    into.extend_from_slice(&[1, first, second, third, 0])?;
    let count_at = into.len() - 1;
    let _ = shape.len();
    let widths = shape.widths();
    let count = append_slots(widths, old.words.as_slice(), s.words.as_slice(), into)?;
    into[count_at] = count;
    Ok(())
}

/// The three words of a time.
fn time_words(time: Time) -> [u32; 3]
    ensures { result ≡ time_words time }
{
    let t = time.femtoseconds();
    [
        (t % WORD) as u32,
        (t / WORD % WORD) as u32,
        (t / TWO_WORDS % WORD) as u32,
    ]
}

/// A slot, and the place where its words begin.
#[derive(Clone, Copy)]
struct Reached {
    slot: usize,
    place: usize,
}

/// Appends the slots that differ, each with its words, and answers how many they are. Words are compared first, and slots
/// are looked for where words differ.
fn append_slots(
    widths: &[u32],
    old: &[u32],
    new: &[u32],
    into: &mut Vec<u32>,
) -> Result<u32, NoMemory>
    requires few { length widths.now < 2 ^ 32 }
    requires before { length old.now ≡ words_of_widths widths.now }
    requires after { length new.now ≡ words_of_widths widths.now }
    ensures count { IfOk result (λ n. n ≡ length (changed_slots widths.now old.now new.now)) }
    ensures ok { is_ok result ≡ true → into.new.items ≡ into.old.items ++ slots_with_words widths.now new.now (changed_slots widths.now old.now new.now) }
    ensures begins { take (length into.old.items) into.new.items ≡ into.old.items }
{
    let mut slot = 0usize;
    let mut place = 0usize;
    let mut count = 0u32;
    while slot < widths.len() {
        let reached = pass_same(widths, old, new, slot, place);
        let end = block_end(reached.slot, widths.len(), BLOCK);
        let place_end = reached.place + room_of(&widths[reached.slot..end]);
        count += append_block(widths, reached.slot, end, old, new, reached.place, into)?;
        slot = end;
        place = place_end;
    }
    Ok(count)
}

/// Passes over slots whose words are the same: up to the first that differs, or all.
fn pass_same(widths: &[u32], old: &[u32], new: &[u32], slot: usize, place: usize) -> Reached
    requires before { length old.now ≡ words_of_widths widths.now }
    requires after { length new.now ≡ words_of_widths widths.now }
    requires within { slot ≤ length widths.now }
    requires place { place ≡ place_of widths.now slot }
    ensures order { slot ≤ result.slot }
    ensures within { result.slot ≤ length widths.now }
    ensures place { result.place ≡ place_of widths.now result.slot }
    ensures same { take (result.place - place) (drop place old.now) ≡ take (result.place - place) (drop place new.now) }
{
    let run = same_until(old, new, place, RUN);
    let part = same_until(old, new, run, PART);
    let end = first_difference(old, new, part);
    if end == new.len() {
        return Reached {
            slot: widths.len(),
            place: end,
        };
    }
    reach(widths, slot, place, end)
}

/// Up to where words are the same from a place on, step by step.
fn same_until(old: &[u32], new: &[u32], from: usize, step: usize) -> usize
    requires long { length old.now ≡ length new.now }
    requires some { 0 < step }
    requires within { from ≤ length new.now }
    ensures order { from ≤ result }
    ensures within { result ≤ length new.now }
    ensures same { take (result - from) (drop from old.now) ≡ take (result - from) (drop from new.now) }
{
    let mut at = from;
    while at < new.len() {
        let end = block_end(at, new.len(), step);
        if !same(&old[at..end], &new[at..end]) {
            return at;
        }
        at = end;
    }
    at
}

/// The first place from one on where words differ, or their end.
fn first_difference(old: &[u32], new: &[u32], from: usize) -> usize
    requires long { length old.now ≡ length new.now }
    requires within { from ≤ length new.now }
    ensures order { from ≤ result }
    ensures within { result ≤ length new.now }
    ensures same { take (result - from) (drop from old.now) ≡ take (result - from) (drop from new.now) }
{
    let mut at = from;
    while at < new.len() {
        if old[at] != new[at] {
            return at;
        }
        at += 1;
    }
    at
}

/// Goes on from a slot as long as the words of slots end at or before a place.
fn reach(widths: &[u32], slot: usize, place: usize, end: usize) -> Reached
    requires few { words_of_widths widths.now < 2 ^ 64 }
    requires order { place ≤ end }
    requires end { end ≤ words_of_widths widths.now }
    requires within { slot ≤ length widths.now }
    requires place { place ≡ place_of widths.now slot }
    ensures order { slot ≤ result.slot }
    ensures within { result.slot ≤ length widths.now }
    ensures place { result.place ≡ place_of widths.now result.slot }
    ensures from { place ≤ result.place }
    ensures end { result.place ≤ end }
{
    let words = end - place;
    if words <= widths.len() - slot && is_one_each(&widths[slot..slot + words]) {
        return Reached {
            slot: slot + words,
            place: end,
        };
    }
    walk(widths, slot, place, end)
}

/// The same, slot by slot.
fn walk(widths: &[u32], slot: usize, place: usize, end: usize) -> Reached
    requires few { words_of_widths widths.now < 2 ^ 64 }
    requires order { place ≤ end }
    requires within { slot ≤ length widths.now }
    requires place { place ≡ place_of widths.now slot }
    ensures order { slot ≤ result.slot }
    ensures within { result.slot ≤ length widths.now }
    ensures place { result.place ≡ place_of widths.now result.slot }
    ensures from { place ≤ result.place }
    ensures end { result.place ≤ end }
{
    let mut next = slot;
    let mut start = place;
    while next < widths.len() {
        let behind = start + widths[next].div_ceil(32) as usize;
        if behind > end {
            return Reached {
                slot: next,
                place: start,
            };
        }
        next += 1;
        start = behind;
    }
    Reached {
        slot: next,
        place: start,
    }
}

/// Where a block that begins at a place ends.
fn block_end(at: usize, len: usize, block: usize) -> usize
    requires { at ≤ len }
    ensures order { at ≤ result }
    ensures more { at < len → 0 < block → at < result }
    ensures within { result ≤ len }
{
    if len - at <= block { len } else { at + block }
}

/// How many words slots of these widths take.
fn room_of(widths: &[u32]) -> usize
    requires { words_of_widths widths.now < 2 ^ 64 }
    ensures { result ≡ words_of_widths widths.now }
{
    if is_one_each(widths) {
        return widths.len();
    }
    let mut room = 0usize;
    for width in widths {
        room += width.div_ceil(32) as usize;
    }
    room
}

/// Whether each of the slots takes one word. Most do, and this is told without a division.
fn is_one_each(widths: &[u32]) -> bool
    ensures { result ≡ true → words_of_widths widths.now ≡ length widths.now }
{
    let mut most = 0u32;
    for width in widths {
        most = most.max(width.wrapping_sub(1));
    }
    most < 32
}

/// Whether two runs of words are the same.
fn same(one: &[u32], other: &[u32]) -> bool
    requires { length one.now ≡ length other.now }
    ensures { result ≡ bytes_eq one.now other.now }
{
    one == other
}

/// Whether the words from `place` to `end` are the same. Most slots have one word.
#[inline(always)]
fn is_same_slot(old: &[u32], new: &[u32], place: usize, end: usize) -> bool
    requires long { length old.now ≡ length new.now }
    requires order { place ≤ end }
    requires within { end ≤ length new.now }
    ensures { result ≡ bytes_eq (take (end - place) (drop place old.now)) (take (end - place) (drop place new.now)) }
{
    if end - place == 1 {
        old[place] == new[place]
    } else {
        same(&old[place..end], &new[place..end])
    }
}

/// The same for the slots from `from` to `end`, whose words begin at a place.
fn append_block(
    widths: &[u32],
    from: usize,
    end: usize,
    old: &[u32],
    new: &[u32],
    place: usize,
    into: &mut Vec<u32>,
) -> Result<u32, NoMemory>
    requires few { length widths.now < 2 ^ 32 }
    requires before { length old.now ≡ words_of_widths widths.now }
    requires after { length new.now ≡ words_of_widths widths.now }
    requires order { from ≤ end }
    requires within { end ≤ length widths.now }
    requires place { place ≡ place_of widths.now from }
    ensures count { IfOk result (λ n. n ≡ length (changed_among widths.now old.now new.now from (end - from))) }
    ensures few { IfOk result (λ n. n ≤ end - from) }
    ensures ok { is_ok result ≡ true → into.new.items ≡ into.old.items ++ slots_with_words widths.now new.now (changed_among widths.now old.now new.now from (end - from)) }
    ensures begins { take (length into.old.items) into.new.items ≡ into.old.items }
{
    let mut place = place;
    let mut count = 0u32;
    for slot in from..end {
        let place_end = place + widths[slot].div_ceil(32) as usize;
        if !is_same_slot(old, new, place, place_end) {
            append_slot(slot as u32, &new[place..place_end], into)?;
            count += 1;
        }
        place = place_end;
    }
    Ok(count)
}

/// Appends the number of a slot and its words.
fn append_slot(slot: u32, words: &[u32], into: &mut Vec<u32>) -> Result<(), NoMemory>
    ensures ok { is_ok result ≡ true → into.new.items ≡ into.old.items ++ slot ∷ words.now }
    ensures begins { take (length into.old.items) into.new.items ≡ into.old.items }
{
    into.push(slot)?;
    into.extend_from_slice(words)?;
    Ok(())
}
