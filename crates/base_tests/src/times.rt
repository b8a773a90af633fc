//! Times and their texts.
use sim_base::Time;
use std::alloc::{AllocError, Global};
use std::process::Abort;
use std::test::Fail;

fn femtoseconds(alloc: Global, time: Option<Time>) -> Result<String, AllocError> {
    match time {
        Some(time) => format!(in alloc; "{}", time.femtoseconds()),
        None => format!(in alloc; "none"),
    }
}

/// Each row's text, ` -> ` and how many femtoseconds it stands for.
const READ: &str = "0.0 -> 0
2.5 -> 2500000000000000
0.000000005 -> 5000000
0000000001.0 -> 1000000000000000
4294967295.999999999999999 -> 4294967295999999999999999
4294967296.000000000000000 -> none
00000000001.0 -> none
1.0000000000000000 -> none
1. -> none
.5 -> none
1 -> none
-1.0 -> none
1.0.0 -> none
 -> none";

#[test]
fn times_are_read_up_to_the_largest(rt: HostRuntime) -> Result<(), Fail> {
    for row in READ.lines() {
        let (text, want) = row.split_once(" -> ").unwrap_or((row, ""));
        let got = femtoseconds(rt.alloc(), Time::read(text.as_bytes()))?;
        assert_eq!(rt; got.as_str(), want, "of {text}");
    }
    Ok(())
}

fn check_written(rt: &impl Abort, femtoseconds: u128, want: &str) -> Result<(), Fail> {
    let time = Time::of(femtoseconds).ok_or("no time")?;
    let mut text = [0u8; 26];
    let len = time.write(&mut text);
    assert_eq!(rt; &text[..len], want.as_bytes());
    Ok(())
}

#[test]
fn times_are_written_with_all_digits_of_the_fraction(rt: HostRuntime) -> Result<(), Fail> {
    check_written(&rt, 0, "0.000000000000000")?;
    check_written(&rt, 2_500_000_000_000_000, "2.500000000000000")?;
    let largest = 4_294_967_295_999_999_999_999_999;
    check_written(&rt, largest, "4294967295.999999999999999")?;
    assert_eq!(rt; Time::of(largest + 1), None);
    assert!(rt; Time::zero() < Time::of(1).ok_or("no time")?);
    Ok(())
}
