//! What records are written, and the fields that are read of them.
ghost use Rattle.std.specs.Prelude.{◌≡◌, IfOk};

use sim_base::{NoMemory, Time};
use spool_format::{Sample, Shape, Words, changes, tag, time, write_change, write_whole};
use std::alloc::Global;
use std::test::Fail;

/// A sample of these words.
fn sample(alloc: Global, number: u64, femtoseconds: u128, words: &[u32]) -> Result<Sample, NoMemory>
    ensures { IfOk result (λ s. s.words ≡ words.now) }
{
    let words = Words::new(Vec::from_slice(alloc, words)?);
    let time = Time::of(femtoseconds).unwrap_or(Time::zero());
    Ok(Sample {
        number,
        time,
        words,
    })
}

#[test]
fn a_clock_and_a_counter_are_recorded(rt: HostRuntime) -> Result<(), Fail> {
    let alloc = rt.alloc();
    let shape = Shape::new(Vec::from_slice(alloc, &[1u32, 8])?);
    let first = sample(alloc, 0, 0, &[0, 0])?;
    let second = sample(alloc, 1, 5_000_000, &[1, 1])?;
    let third = sample(alloc, 2, 10_000_000, &[0, 1])?;
    let fourth = sample(alloc, 3, 15_000_000, &[1, 2])?;
    let mut words = Vec::new(alloc);
    write_whole(&shape, &first, &mut words)?;
    write_change(&shape, &first, &second, &mut words)?;
    write_change(&shape, &second, &third, &mut words)?;
    write_change(&shape, &third, &fourth, &mut words)?;
    let want = [
        0, 0, 0, 0, 0, 0, 1, 0x4C_4B40, 0, 0, 2, 0, 1, 1, 1, 1, 0x98_9680, 0, 0, 1, 0, 0, 1,
        0xE4_E1C0, 0, 0, 2, 0, 1, 1, 2,
    ];
    assert_eq!(rt; words.as_slice(), want.as_slice());
    Ok(())
}

#[test]
fn slots_of_all_widths_are_compared_with_the_sample_before(rt: HostRuntime) -> Result<(), Fail> {
    let alloc = rt.alloc();
    let shape = Shape::new(Vec::from_slice(alloc, &[33u32, 0, 1, 64, 31, 32, 65])?);
    let time = 0x3_0000_0002_0000_0001;
    let first = sample(alloc, 0, 0, &[5, 1, 0, 7, 8, 9, 10, 11, 12, 1])?;
    let second = sample(alloc, 1, time, &[5, 1, 1, 7, 9, 9, 10, 11, 12, 1])?;
    let third = sample(alloc, 2, time + 1, &[5, 0, 0, 7, 9, 9, 0, 11, 12, 0])?;
    let mut words = Vec::new(alloc);
    words.push(99)?;
    write_change(&shape, &first, &second, &mut words)?;
    write_change(&shape, &second, &third, &mut words)?;
    write_change(&shape, &third, &third, &mut words)?;
    let want = [
        99, 1, 1, 2, 3, 2, 2, 1, 3, 7, 9, 1, 2, 2, 3, 4, 0, 5, 0, 2, 0, 5, 0, 6, 11, 12, 0, 1, 2,
        2, 3, 0,
    ];
    assert_eq!(rt; words.as_slice(), want.as_slice());
    assert_eq!(rt; third.words.into_vec().len(), 10);
    Ok(())
}

#[test]
fn slots_behind_many_that_are_the_same_are_listed(rt: HostRuntime) -> Result<(), Fail> {
    let alloc = rt.alloc();
    let shape = Shape::new(Vec::from_slice(alloc, &[1u32; 70])?);
    let mut last = [0u32; 70];
    last[69] = 1;
    let first = sample(alloc, 0, 0, &[0u32; 70])?;
    let second = sample(alloc, 1, 1, &last)?;
    let mut words = Vec::new(alloc);
    write_change(&shape, &first, &second, &mut words)?;
    assert_eq!(rt; words.as_slice(), [1, 1, 0, 0, 1, 69, 1].as_slice());
    Ok(())
}

#[test]
fn fields_are_read_where_they_stand(rt: HostRuntime) {
    let [low, middle, high] = [0xFFFF_FFFF, 0xA4C6_7FFF, 0x3_8D7E];
    let largest: u128 = 4_294_967_295_999_999_999_999_999;
    let words = [
        0,
        1,
        2,
        3,
        1,
        low,
        middle,
        high,
        9,
        2,
        1,
        0,
        middle + 1,
        high,
    ];
    let cases: [(usize, Option<u32>, Option<u128>, Option<u32>); 8] = [
        (0, Some(0), Some((3 << 64) + (2 << 32) + 1), None),
        (1, Some(1), Some((1 << 64) + (3 << 32) + 2), Some(low)),
        (3, None, None, None),
        (4, Some(1), Some(largest), Some(9)),
        (10, Some(1), None, None),
        (11, Some(0), None, None),
        (14, None, None, None),
        (usize::MAX, None, None, None),
    ];
    for (at, first, femtoseconds, count) in cases {
        assert_eq!(rt; tag(&words, at), first);
        assert_eq!(rt; time(&words, at).map(|t| t.femtoseconds()), femtoseconds);
        assert_eq!(rt; changes(&words, at), count);
    }
}
