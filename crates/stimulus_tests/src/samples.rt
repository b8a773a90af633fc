//! The samples of a stimulus.
use crate::circuits::inputs;
use sim_base::{Bits, Time};
use std::alloc::AllocGlobal;
use std::process::Abort;
use stimulus::{Place, Stimulus, read};

/// The stimulus of a text.
fn stimulus<R: AllocGlobal + Abort>(rt: &R, text: &[u8], widths: &[(&[u8], u32)]) -> Stimulus {
    let circuit = inputs(rt, widths);
    assert!(rt; text.len() < 4_294_967_295);
    read(rt.alloc(), text, &circuit).expect(rt, "a stimulus")
}

/// The number of a value in its lowest 64 bits.
fn low(value: &Bits) -> u64 {
    value.field(0, value.width().min(64))
}

/// Whether sample `k` comes at so many femtoseconds, with these inputs, from wherever a reader stands.
fn check<R: AllocGlobal + Abort>(rt: &R, stimulus: &Stimulus, k: u64, time: u128, numbers: &[u64]) {
    assert!(rt; k < stimulus.count());
    let mut room = stimulus.room(rt.alloc()).expect(rt, "memory");
    let at = stimulus.row(k, &mut room);
    assert_eq!(rt; at.femtoseconds(), time);
    assert_eq!(rt; room.len(), numbers.len());
    for (value, number) in room.iter().zip(numbers) {
        assert_eq!(rt; low(value), *number);
    }
    let mut place = Place::first();
    let mut again = stimulus.room(rt.alloc()).expect(rt, "memory");
    assert_eq!(rt;
        stimulus.row_from(&mut place, k, &mut again).femtoseconds(),
        time
    );
    assert_eq!(rt; stimulus.time(k).femtoseconds(), time);
}

const TWO_BLOCKS: &[u8] =
    b"stimulus 0\ninputs clk\nblock 2 0.00000001\n0.0 0\nend\nblock 1 0.00000002\n0.000000005 1\nend\n";

#[test]
fn blocks_follow_one_another(rt: HostRuntime) {
    let two = stimulus(&rt, TWO_BLOCKS, &[(b"clk", 1)]);
    assert_eq!(&rt; two.count(), 3);
    check(&rt, &two, 0, 0, &[0]);
    check(&rt, &two, 1, 10_000_000, &[0]);
    check(&rt, &two, 2, 25_000_000, &[1]);
    let rows: [(u128, u64); 5] = [
        (0, 1),
        (9_999_999, 1),
        (10_000_000, 2),
        (24_999_999, 2),
        (25_000_000, 3),
    ];
    for (femtoseconds, count) in rows {
        let time = Time::of(femtoseconds).expect(&rt, "a time");
        assert_eq!(&rt; two.count_until(time), count);
    }
}

/// The columns are in another order than the inputs, words are parted by blanks, and lines end in two ways.
const COLUMNS: &[u8] =
    b"# made by hand\r\n\r\nstimulus 0\r\n  inputs\tdata clk \r\nblock 1 1.0\n 0.0  0fF 1\n# within\n\n0.5 00000000000000000123 0\nend";

#[test]
fn columns_stand_in_any_order(rt: HostRuntime) {
    let read = stimulus(&rt, COLUMNS, &[(b"clk", 1), (b"data", 65536)]);
    assert_eq!(&rt; read.count(), 2);
    check(&rt, &read, 0, 0, &[1, 0xFF]);
    check(&rt, &read, 1, 500_000_000_000_000, &[0, 0x123]);
}

#[test]
fn a_circuit_may_have_no_inputs(rt: HostRuntime) {
    let text = b"stimulus 0\ninputs\nblock 3 1.0\n0.0\n0.25\nend\n";
    let read = stimulus(&rt, text, &[]);
    assert_eq!(&rt; read.count(), 6);
    check(&rt, &read, 5, 2_250_000_000_000_000, &[]);
}

#[test]
fn a_sample_comes_at_the_last_time(rt: HostRuntime) {
    let text =
        b"stimulus 0\ninputs clk\nblock 1 4294967295.999999999999999\n4294967295.999999999999998 0\nend\n";
    let read = stimulus(&rt, text, &[(b"clk", 1)]);
    check(&rt, &read, 0, 4_294_967_295_999_999_999_999_998, &[0]);
}

#[test]
fn repeats_are_counted_to_the_most_samples(rt: HostRuntime) {
    let text = b"stimulus 0\ninputs clk\nblock 8388608 0.00000001\n0.0 0\n0.000000005 1\nend\n";
    let read = stimulus(&rt, text, &[(b"clk", 1)]);
    check(&rt, &read, 16_777_214, 83_886_070_000_000, &[0]);
    check(&rt, &read, 16_777_215, 83_886_075_000_000, &[1]);
}
