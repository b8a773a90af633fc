//! Runs of circuits that are read from texts.
use flat_design::elaborate;
use flat_run::FlatRun;
use flat_stimulus::read_stimulus;
use flat_text::{FlatFault, read_module};
use sim_base::Time;
use std::alloc::Global;
use std::process::Abort;
use std::test::Fail;
use test_designs::designs::{COUNTER, RING};
use test_designs::stimuli::{HIGH_FIRST, SIX};

fn run(alloc: Global, design: &str, stimulus: &str) -> Result<FlatRun, FlatFault> {
    let module = read_module(alloc, design.as_bytes())?;
    let circuit = elaborate(alloc, &module)?;
    let stimulus = read_stimulus(alloc, stimulus.as_bytes(), &circuit)?;
    Ok(FlatRun::new(alloc, circuit, stimulus)?)
}

fn number(word: &str) -> u64 {
    word.parse().unwrap_or(u64::MAX)
}

/// Asks the run, in this order, how many of so many first samples settle.
fn settle(
    rt: &impl Abort,
    alloc: Global,
    design: &str,
    stimulus: &str,
    rows: &str,
) -> Result<(), Fail> {
    let mut run = run(alloc, design, stimulus)?;
    for row in rows.split(", ") {
        let (want, settled) = row.split_once(' ').unwrap_or((row, ""));
        let want = number(want);
        assert!(rt; want <= run.count());
        assert_eq!(rt; run.reach(want), number(settled), "of {want}");
    }
    Ok(())
}

#[test]
fn samples_are_followed_as_far_as_they_settle(rt: HostRuntime) -> Result<(), Fail> {
    let alloc = rt.alloc();
    settle(
        &rt,
        alloc,
        COUNTER,
        SIX,
        "0 0, 1 1, 4 4, 6 6, 2 2, 0 0, 6 6",
    )?;
    settle(&rt, alloc, RING, SIX, "0 0, 1 1, 2 1, 6 1, 1 1, 3 1")?;
    settle(&rt, alloc, RING, HIGH_FIRST, "2 0, 0 0, 1 0")?;
    settle(&rt, alloc, COUNTER, HIGH_FIRST, "2 2, 1 1")
}

/// Times, and how many samples there are up to each.
const COUNTS: &str = "0.0 1
0.000000004999999 1
0.000000005 2
0.000000015 4
0.000000024999999 5
0.000000025 6
4294967295.999999999999999 6";

#[test]
fn samples_have_times(rt: HostRuntime) -> Result<(), Fail> {
    let run = run(rt.alloc(), COUNTER, SIX)?;
    assert_eq!(rt; run.count(), 6);
    for k in 0..6 {
        assert_eq!(rt;
            run.time(k).femtoseconds(),
            u128::from(k) * 5_000_000,
            "sample {k}"
        );
    }
    for row in COUNTS.lines() {
        let (time, count) = row.split_once(' ').unwrap_or((row, ""));
        let found = Time::read(time.as_bytes()).map(|time| run.count_until(time));
        assert!(rt; found == Some(number(count)), "{row}");
    }
    Ok(())
}
