//! Recordings that are played: forward, backward, and by seeking.
ghost use Rattle.std.specs.Prelude.{◌≡◌, ◌<◌, length};

use crate::runs::{PERIOD, Run, push_next, start, time_of};
use sim_base::{Steps, Time};
use spool_replay::Player;
use spool_writer::Spool;
use std::alloc::AllocGlobal;
use std::marker::Brand;
use std::process::Abort;
use std::sync::ledger::{Blank, Ledger};

/// In which order samples are looked at.
#[derive(Clone, Copy)]
enum Way {
    Forward,
    Backward,
    Scattered,
}

/// Goes to the next sample on a way, of which `n` samples were looked at, and answers its number.
fn go<L: Ledger, R: Abort>(
    rt: &R,
    player: &mut Player,
    way: Way,
    n: u64,
    steps: &mut Steps<L>,
) -> u64
    ensures { player.new.recording ≡ player.old.recording }
{
    let count = player.count();
    let k = match way {
        Way::Forward => n,
        Way::Backward => (count - 1).saturating_sub(n),
        Way::Scattered => n.wrapping_mul(7919) % count,
    };
    assert!(rt; k < count);
    match way {
        Way::Forward if n > 0 => assert!(rt; player.step()),
        _ => player.seek(k, steps),
    }
    k
}

/// Whether a slot shows what it does at sample `k` of a run.
fn shows(run: Run, k: u64, slot: u32, width: u32, words: &[u32]) -> bool {
    let mut left = width;
    let mut place = 0u32;
    let mut same = words.len() == width.div_ceil(32) as usize;
    for word in words {
        same &= *word == run.word(k, slot, place, left);
        left = left.saturating_sub(32);
        place = place.saturating_add(1);
    }
    same
}

/// Checks that a player shows sample `k` of a run.
fn check<R: Abort>(rt: &R, player: &Player, run: Run, k: u64, slots: u32)
    requires { slots ≡ length player.now.recording.widths }
{
    assert_eq!(rt; player.at(), k);
    assert_eq!(rt; player.time().femtoseconds(), u128::from(k) * PERIOD);
    assert_eq!(rt; run.widths().len() as u64, u64::from(slots));
    let mut slot = 0u32;
    for width in run.widths() {
        assert!(rt; slot < slots);
        assert!(rt; shows(run, k, slot, *width, player.words(slot)));
        slot += 1;
    }
}

/// Checks each sample of a recording, in the order of a way.
fn play<L: Ledger, R: AllocGlobal + Abort>(
    rt: &R,
    spool: &Spool,
    run: Run,
    way: Way,
    steps: &mut Steps<L>,
) {
    let view = spool.view(rt.alloc()).expect(rt, "memory");
    let slots = view.shape().len();
    assert!(rt; view.count() > 0);
    let mut player = Player::new(rt.alloc(), view).expect(rt, "memory");
    for n in 0..spool.count() {
        let k = go(rt, &mut player, way, n, steps);
        check(rt, &player, run, k, slots);
    }
    if let Way::Forward = way {
        assert!(rt; !player.step());
    }
}

fn play_each_view<L: Ledger, R: AllocGlobal + Abort>(rt: &R, blank: Blank)
    requires name { blank.name ≡ L.name }
    requires parts { blank.parts ≡ L.parts }
    requires some { 0 < blank.parts }
{
    let mut steps = Steps::<L>::new(blank);
    let mut spool = start(rt, Run::Widths);
    for _ in 0..600 {
        push_next(rt, Run::Widths, &mut spool);
        for way in [Way::Forward, Way::Backward, Way::Scattered] {
            play(rt, &spool, Run::Widths, way, &mut steps);
        }
    }
}

#[test]
fn each_view_of_a_recording_plays_whole_in_any_order(rt: HostRuntime) {
    play_each_view::<Brand, _>(&rt, Blank::new(1));
}

/// The words of the chunks, by hand: 4 and a word for each slot at the head, then 9 where the clock rises and 7 where it falls.
const CHUNK_WORDS: [usize; 4] = [
    6 + 128 * 9 + 127 * 7,
    6 + 128 * 9 + 127 * 7,
    6 + 128 * 9 + 127 * 7,
    6 + 116 * 9 + 115 * 7,
];

/// The counter's value at 0, 5, 15 and 25 ns.
const COUNTS: [(u128, u32); 4] = [(0, 0), (5_000_000, 1), (15_000_000, 2), (25_000_000, 3)];

fn look_for_each_time<L: Ledger, R: AllocGlobal + Abort>(rt: &R, blank: Blank)
    requires name { blank.name ≡ L.name }
    requires parts { blank.parts ≡ L.parts }
    requires some { 0 < blank.parts }
{
    let mut steps = Steps::<L>::new(blank);
    let mut spool = start(rt, Run::Counter);
    for _ in 0..1000 {
        push_next(rt, Run::Counter, &mut spool);
    }
    let view = spool.view(rt.alloc()).expect(rt, "memory");
    assert!(rt; view.count() == 1000);
    assert!(rt; view.chunks() == 4);
    for (n, words) in CHUNK_WORDS.iter().enumerate() {
        assert!(rt; n < view.chunks());
        assert_eq!(rt; view.chunk(n).len(), *words);
    }
    let player = Player::new(rt.alloc(), view).expect(rt, "memory");
    for k in 0..1001 {
        assert_eq!(rt; player.first_at(time_of(rt, k), &mut steps), k.min(1000));
    }
    for (femtoseconds, count) in COUNTS {
        assert_eq!(rt; counter_at(rt, &spool, femtoseconds, &mut steps), count);
    }
}

/// What the counter shows at a time at which there is a sample.
fn counter_at<L: Ledger, R: AllocGlobal + Abort>(
    rt: &R,
    spool: &Spool,
    femtoseconds: u128,
    steps: &mut Steps<L>,
) -> u32 {
    let view = spool.view(rt.alloc()).expect(rt, "memory");
    assert!(rt; view.shape().len() == 2 && view.count() > 0);
    let mut player = Player::new(rt.alloc(), view).expect(rt, "memory");
    let time = Time::of(femtoseconds).expect(rt, "a time");
    let k = player.first_at(time, steps);
    assert!(rt; k < player.count());
    player.seek(k, steps);
    assert_eq!(rt; player.time().femtoseconds(), femtoseconds);
    let words = player.words(1);
    assert_eq!(rt; words.len(), 1);
    words[0]
}

#[test]
fn a_clock_and_a_counter_have_four_chunks_in_which_times_are_found(rt: HostRuntime) {
    look_for_each_time::<Brand, _>(&rt, Blank::new(1));
}
