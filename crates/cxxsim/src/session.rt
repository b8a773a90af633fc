//! A session with one client, and its log.
ghost use Rattle.std.specs.Prelude.{◌≡◌, [], ◌≤◌, IfOk, OnErr};
ghost use Rattle.flat_run.specs.Run.{run_of};
ghost use Rattle.hall_core.specs.Replay.{replay};
ghost use Rattle.session_core.specs.Refusals.{new_client};
ghost use Rattle.cxxsim.specs.Outside.{HasGot, IsQuiet};
ghost use Rattle.cxxsim.specs.Solo.{IsHeld, IsSentAtMost, IsSessionOf};

use flat_run::FlatRun;
use hall_core::log_text;
use outside::{Sink, Source, put_all};
use sim_base::NoMemory;
use solo_session::{Ending, Session, serve};
use std::alloc::Global;

/// How a session was closed.
#[derive(Clone, Copy, Debug, PartialEq, Eq)]
pub struct Closed {
    pub ending: Ending,
    /// A sample did not settle.
    pub unsettled: bool,
    /// The log has got the whole history.
    pub logged: bool,
}

/// Opens a session and serves its client, where sample 0 settles.
fn hold<I: Source, O: Sink>(
    alloc: Global,
    session: &mut Session<FlatRun>,
    input: &mut I,
    out: &mut O,
) -> Result<Ending, NoMemory>
    requires history { session.old.history ≡ [] }
    requires client { session.old.client ≡ new_client }
    requires some { 1 ≤ (run_of session.old.samples).count }
    ensures held { IfOk result (λ ending. IsHeld session.old.samples (I.seen input.old) (I.seen input.new) (O.seen out.old) (O.seen out.new) session.new.history ending) }
    ensures wanting { OnErr result (IsSentAtMost session.old.samples (I.seen input.old) (I.seen input.new) (O.seen out.old) (O.seen out.new)) }
    ensures input_later { (I.seen input.old).faults ≤ (I.seen input.new).faults }
    ensures out_later { (O.seen out.old).faults ≤ (O.seen out.new).faults }
{
    if session.open()? {
        serve(alloc, session, input, out)
    } else {
        Ok(Ending::Served)
    }
}

/// Serves one client of a run, and writes the history to the log.
pub fn converse<I: Source, O: Sink, G: Sink>(
    alloc: Global,
    run: FlatRun,
    input: &mut I,
    out: &mut O,
    log: &mut G,
) -> Result<Closed, NoMemory>
    ensures session { IfOk result (IsSessionOf run (I.seen input.old) (I.seen input.new) (O.seen out.old) (O.seen out.new) (G.seen log.old) (G.seen log.new)) }
    ensures quiet { OnErr result (IsQuiet (G.seen log.old) (G.seen log.new)) }
    ensures wanting { OnErr result (IsSentAtMost run (I.seen input.old) (I.seen input.new) (O.seen out.old) (O.seen out.new)) }
    ensures input_later { (I.seen input.old).faults ≤ (I.seen input.new).faults }
    ensures out_later { (O.seen out.old).faults ≤ (O.seen out.new).faults }
    ensures log_later { (G.seen log.old).faults ≤ (G.seen log.new).faults }
{
    let _count = run.count();
    let mut session = Session::new(alloc, run)?;
    let ending = hold(alloc, &mut session, input, out)?;
    let text = log_text(alloc, session.history())?;
    let logged = put_log(log, &text);
    Ok(Closed {
        ending,
        unsettled: session.is_unsettled(),
        logged,
    })
}

/// Writes a text to a log, and answers whether the log has got the whole of it.
pub fn put_log<G: Sink>(log: &mut G, text: &[u8]) -> bool
    ensures got { HasGot result (G.seen log.old) (G.seen log.new) text.now }
    ensures later { (G.seen log.old).faults ≤ (G.seen log.new).faults }
{
    match put_all(log, text) {
        Ok(()) => true,
        Err(_) => false,
    }
}
