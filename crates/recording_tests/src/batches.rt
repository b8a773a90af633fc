//! Samples that are recorded at once.
use crate::runs::{Run, push_many, push_next, sample, samples, start};
use spool_writer::Spool;
use std::alloc::AllocGlobal;
use std::process::Abort;

/// How many samples are recorded at once, one after another: none, one, up to a chunk's end, over it, and over more.
const COUNTS: [u64; 6] = [0, 1, 254, 2, 600, 143];

/// Checks that the views of two recordings have the same samples and the same chunks.
fn check_same<R: AllocGlobal + Abort>(rt: &R, one: &Spool, other: &Spool) {
    let one = one.view(rt.alloc()).expect(rt, "memory");
    let other = other.view(rt.alloc()).expect(rt, "memory");
    assert_eq!(rt; one.count(), other.count());
    for n in 0..one.chunks() {
        assert!(rt; n < other.chunks());
        assert_eq!(rt; one.chunk(n), other.chunk(n));
    }
}

#[test]
fn samples_recorded_at_once_have_the_chunks_of_those_recorded_in_turn(rt: HostRuntime) {
    let mut one = start(&rt, Run::Widths);
    let mut other = start(&rt, Run::Widths);
    for n in COUNTS {
        push_many(&rt, Run::Widths, n, &mut one);
        for _ in 0..n {
            push_next(&rt, Run::Widths, &mut other);
        }
        check_same(&rt, &one, &other);
    }
    assert_eq!(rt; one.count(), 1000);
}

#[test]
fn samples_are_not_next_with_one_left_out_twice_or_with_other_words(rt: HostRuntime) {
    let mut spool = start(&rt, Run::Counter);
    push_many(&rt, Run::Counter, 2, &mut spool);
    let mut several = samples(&rt, Run::Counter, 2, 3);
    assert!(rt; spool.are_next(&several));
    several
        .push(sample(&rt, Run::Counter, 6))
        .expect(&rt, "memory");
    assert!(rt; !spool.are_next(&several));
    assert!(rt; !spool.are_next(&samples(&rt, Run::Counter, 1, 3)));
    let mut twice = samples(&rt, Run::Counter, 2, 1);
    twice
        .push(sample(&rt, Run::Counter, 2))
        .expect(&rt, "memory");
    assert!(rt; !spool.are_next(&twice));
    let mut wide = samples(&rt, Run::Counter, 2, 1);
    wide.push(sample(&rt, Run::Widths, 3)).expect(&rt, "memory");
    assert!(rt; !spool.are_next(&wide));
}
