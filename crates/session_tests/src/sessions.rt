//! Whole histories of one client, over circuits that are read from texts.
ghost use Rattle.std.specs.Prelude.{◌≡◌, ◌≤◌, [], true, Ok, OnOk, IfOk};
ghost use Rattle.flat_run.specs.Run.{run_of};
ghost use Rattle.hall_core.specs.Replay.{replay};
ghost use Rattle.solo_session.specs.Session.{IsServing};

use flat_design::elaborate;
use flat_run::FlatRun;
use flat_stimulus::read_stimulus;
use flat_text::{FlatFault, read_module};
use frame_zero::{Framer, MAX_PACKET};
use hall_core::{Why, log_text};
use session_core::{
    law_of_entries, law_of_isolation, law_of_more_packets, law_of_openings, law_of_recorded_samples,
};
use sim_base::NoMemory;
use solo_session::{Session, law_of_pace};
use std::alloc::Global;
use std::process::Abort;
use std::test::Fail;
use test_designs::plays::{Play, SHORT, TO_THE_END, UNTIL_15};

#[derive(Drop)]
struct Outcome {
    text: Vec<u8>,
    log: Vec<u8>,
}

fn run(alloc: Global, play: &Play) -> Result<FlatRun, FlatFault> {
    let module = read_module(alloc, play.design.as_bytes())?;
    let circuit = elaborate(alloc, &module)?;
    let stimulus = read_stimulus(alloc, play.stimulus.as_bytes(), &circuit)?;
    Ok(FlatRun::new(alloc, circuit, stimulus)?)
}

fn started(alloc: Global, run: FlatRun) -> Result<Session<FlatRun>, NoMemory>
    ensures new { IfOk result (λ s. s.history ≡ []) }
    ensures some { IfOk result (λ s. 1 ≤ (run_of s.samples).count) }
{
    let _count = run.count();
    Session::new(alloc, run)
}

fn open(session: &mut Session<FlatRun>) -> Result<bool, NoMemory>
    requires new { session.old.history ≡ [] }
    requires some { 1 ≤ (run_of session.old.samples).count }
    ensures { result ≡ Ok true → IsServing (run_of session.new.samples) (replay session.new.history) }
{
    session.open()
}

/// Serves bytes that come in two pieces, and answers whether a part of them is too long.
fn serve(
    alloc: Global,
    session: &mut Session<FlatRun>,
    first: &[u8],
    second: &[u8],
    text: &mut Vec<u8>,
) -> Result<bool, NoMemory>
    requires { IsServing (run_of session.old.samples) (replay session.old.history) }
    ensures { OnOk result (IsServing (run_of session.new.samples) (replay session.new.history)) }
{
    let mut framer = Framer::new(alloc)?;
    framer.feed(first)?;
    session.serve_packets(alloc, &mut framer, text)?;
    framer.feed(second)?;
    let too_long = session.serve_packets(alloc, &mut framer, text)?;
    Ok(too_long)
}

fn run_out(
    alloc: Global,
    session: &mut Session<FlatRun>,
    text: &mut Vec<u8>,
) -> Result<(), NoMemory>
    requires { IsServing (run_of session.old.samples) (replay session.old.history) }
    ensures { OnOk result (IsServing (run_of session.new.samples) (replay session.new.history)) }
{
    session.run_out(alloc, text)?;
    Ok(())
}

fn close(
    alloc: Global,
    session: &mut Session<FlatRun>,
    too_long: bool,
    text: &mut Vec<u8>,
) -> Result<(), NoMemory>
    requires { IsServing (run_of session.old.samples) (replay session.old.history) }
{
    if too_long {
        return session.close(alloc, Why::TooLong, text);
    }
    run_out(alloc, session, text)?;
    session.close(alloc, Why::Ended, text)
}

/// What is said to a client of a play whose bytes come in these two pieces, and the log.
fn played(alloc: Global, play: &Play, first: &[u8], second: &[u8]) -> Result<Outcome, FlatFault> {
    let mut session = started(alloc, run(alloc, play)?)?;
    let mut text = Vec::new(alloc);
    if open(&mut session)? {
        let too_long = serve(alloc, &mut session, first, second, &mut text)?;
        close(alloc, &mut session, too_long, &mut text)?;
    }
    let log = log_text(alloc, session.history())?;
    Ok(Outcome { text, log })
}

/// Sends the bytes of a play in two pieces, cut at each place.
fn cut_everywhere(rt: &impl Abort, alloc: Global, text: &str) -> Result<(), Fail> {
    let play = Play::read(alloc, text)?;
    for cut in 0..=play.sent.len() {
        let (first, second) = play.sent.split_at(cut);
        let got = played(alloc, &play, first, second)?;
        assert!(rt; got.text == play.said, "said, cut at {cut}: {text}");
        assert!(rt; got.log == play.log, "log, cut at {cut}: {text}");
    }
    Ok(())
}

#[test]
fn a_client_is_answered_wherever_its_bytes_are_cut(rt: HostRuntime) -> Result<(), Fail> {
    for text in SHORT.split("\n\n") {
        cut_everywhere(&rt, rt.alloc(), text)?;
    }
    cut_everywhere(&rt, rt.alloc(), UNTIL_15)?;
    cut_everywhere(&rt, rt.alloc(), TO_THE_END)
}

const LONGEST: &str = "counter six 0
< no_json
record 1
open 0
packet 0
close 0 ended
end";

const TOO_LONG: &str = "counter six 0
> greeting
< greeted
< too_long
record 1
open 0
packet 0
close 0 too_long
end";

#[test]
fn a_packet_has_at_most_1048576_bytes(rt: HostRuntime) -> Result<(), Fail> {
    let alloc = rt.alloc();
    let spaces = vec![in alloc; b' '; MAX_PACKET]?;
    let longest = Play::read(alloc, LONGEST)?;
    let whole = played(alloc, &longest, &spaces, b"\0")?;
    assert!(rt; whole.text == longest.said);
    assert!(rt; whole.log == longest.log);
    let mut play = Play::read(alloc, TOO_LONG)?;
    play.sent.extend_from_slice(&spaces)?;
    let long = played(alloc, &play, &play.sent, b" ")?;
    assert!(rt; long.text == play.said);
    assert!(rt; long.log == play.log);
    law_of_entries();
    law_of_isolation();
    law_of_more_packets();
    law_of_openings();
    law_of_pace();
    law_of_recorded_samples();
    Ok(())
}
