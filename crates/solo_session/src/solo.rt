//! One client over a source and a sink.
ghost use Rattle.std.specs.Prelude.{◌≡◌, ◌≢◌, ℕ, ◌+◌, ◌-◌, ◌<◌, ◌≤◌, List, [], ◌∷◌, ◌++◌, length, take, Option, None, Some, Ok, IfOk, OnErr, OnOk};
ghost use Rattle.std.specs.Io.KnownBytes.{IsAtEnd, append_known, prepend_known};
ghost use Rattle.frame_zero.specs.Packets.{packets};
ghost use Rattle.hall_core.specs.Replay.{replay};
ghost use Rattle.hall_core.specs.declared.entry.Entry.TheVariants as entries;
ghost use Rattle.outside.specs.Source.{Gives, IsGot, SourceCause};
ghost use Rattle.hall_core.specs.declared.entry.Why.TheVariants as whys;
ghost use Rattle.session_core.specs.Said.{last_words};
ghost use Rattle.solo_session.specs.Pace.{input_limit, piece_limit};
ghost use Rattle.solo_session.specs.Reading.{IsOutputCause, IsReading, IsSentBy, IsTurn};
ghost use Rattle.solo_session.specs.Session.{HasServed, IsServing, conversation};
ghost use Rattle.solo_session.specs.Solo.{IsCause, IsEnded, IsWanting, Outset, outset_of};

use crate::session::Session;
use frame_zero::Framer;
use hall_core::{Followed, Why};
use outside::{Got, Sink, Source, put_all};
use sim_base::NoMemory;
use std::alloc::Global;

/// At most so many bytes of a client are served.
const LIMIT: usize = 16_777_216;

/// At most so many bytes are read at a time.
const PIECE: usize = 65_536;

/// How a session ended.
#[derive(Clone, Copy, Debug, PartialEq, Eq)]
pub enum Ending {
    /// All that the client sent was served: its bytes ended, or a part of them was too long.
    Served,
    /// The client sent more bytes than are read.
    Limit,
    /// The source failed.
    InputFailed,
    /// The sink failed.
    OutputFailed,
}

/// Puts the next bytes of the source at the front of the piece: no more than are read of a client of which
/// so many were read, or one more byte where these are all.
fn read_piece<I: Source>(input: &mut I, piece: &mut [u8], taken: usize) -> Got
    requires some { 0 < length piece.old }
    requires taken { taken ≤ input_limit }
    ensures room { length piece.new ≡ length piece.old }
    ensures within { IsGot result (length piece.old) }
    ensures limit { (count : ℕ) → result ≡ Got.Bytes count → taken < input_limit → taken + count ≤ input_limit }
    ensures one { (count : ℕ) → result ≡ Got.Bytes count → taken ≡ input_limit → count ≤ 1 }
    ensures bytes { Gives (I.seen input.old) (I.seen input.new) result piece.new }
    ensures cause { SourceCause (I.seen input.old) (I.seen input.new) result }
{
    let most = (LIMIT - taken).max(1).min(piece.len());
    input.read(&mut piece[..most])
}

/// Lets the client go, and ends the history, where nothing more is to be sent.
fn leave<F: Followed>(alloc: Global, session: &mut Session<F>, why: Why) -> Result<(), NoMemory>
    requires { IsServing (F.run session.old.samples) (replay session.old.history) }
    ensures { OnOk result (session.new ≡ record session.old { history = session.old.history ++ entries.Close 0 why ∷ entries.End ∷ [] }) }
{
    let mut text = Vec::new(alloc);
    session.close(alloc, why, &mut text)
}

/// Lets the client go for a fault, and ends the history.
fn break_off<F: Followed>(alloc: Global, session: &mut Session<F>) -> Result<Ending, NoMemory>
    requires { IsServing (F.run session.old.samples) (replay session.old.history) }
    ensures session { OnOk result (session.new ≡ record session.old { history = session.old.history ++ entries.Close 0 whys.Fault ∷ entries.End ∷ [] }) }
    ensures ending { IfOk result (λ ending. ending ≡ Ending.OutputFailed) }
{
    leave(alloc, session, Why::Fault)?;
    Ok(Ending::OutputFailed)
}

/// Ends the session at a part that is too long, and sends the text with the error behind it.
fn refuse<F: Followed, O: Sink>(
    alloc: Global,
    session: &mut Session<F>,
    text: &mut Vec<u8>,
    out: &mut O,
) -> Result<Ending, NoMemory>
    requires { IsServing (F.run session.old.samples) (replay session.old.history) }
    ensures session { OnOk result (session.new ≡ record session.old { history = session.old.history ++ entries.Close 0 whys.TooLong ∷ entries.End ∷ [] }) }
    ensures sent { IfOk result (λ ending. IsSentBy ending (O.seen out.old).held (O.seen out.new).held (text.old.items ++ last_words whys.TooLong)) }
    ensures wanting { OnErr result ((O.seen out.new).held ≡ (O.seen out.old).held) }
    ensures cause { IfOk result (λ ending. IsOutputCause (Some ending) (O.seen out.old) (O.seen out.new)) }
    ensures later { (O.seen out.old).faults ≤ (O.seen out.new).faults }
{
    session.close(alloc, Why::TooLong, text)?;
    match put_all(out, text) {
        Ok(()) => Ok(Ending::Served),
        Err(_) => Ok(Ending::OutputFailed),
    }
}

/// Serves the packets that end in the next piece that was read, and sends all that they are answered. Says how the
/// session ended, where it does not go on: nothing more is to be read then.
pub fn answer_piece<F: Followed, O: Sink>(
    alloc: Global,
    session: &mut Session<F>,
    framer: &mut Framer,
    piece: &[u8],
    out: &mut O,
) -> Result<Option<Ending>, NoMemory>
    requires serving { IsServing (F.run session.old.samples) (replay session.old.history) }
    requires few { length piece.now ≤ piece_limit }
    // Where all that was due for what was read before was sent, all that is due is sent, this piece read too.
    ensures turn { IfOk result (λ turn. (outset : Outset) (left : Option (List ℕ)) (taken : ℕ) → IsReading outset (prepend_known piece.now left) (O.seen out.old).held (conversation F.run session.old) framer.old taken → taken + length piece.now ≤ input_limit
        → IsTurn outset left (O.seen out.new).held (conversation F.run session.new) framer.new (taken + length piece.now) turn) }
    ensures wanting { OnErr result ((outset : Outset) (left : Option (List ℕ)) (taken : ℕ) → IsReading outset (prepend_known piece.now left) (O.seen out.old).held (conversation F.run session.old) framer.old taken → taken + length piece.now ≤ input_limit
        → IsWanting outset (O.seen out.new).held) }
    ensures run { OnOk result (session.new.samples ≡ session.old.samples) }
    ensures cause { IfOk result (λ turn. IsOutputCause turn (O.seen out.old) (O.seen out.new)) }
    ensures later { (O.seen out.old).faults ≤ (O.seen out.new).faults }
{
    framer.feed(piece)?;
    let mut text = Vec::new(alloc);
    if session.serve_packets(alloc, framer, &mut text)? {
        let ending = refuse(alloc, session, &mut text, out)?;
        return Ok(Some(ending));
    }
    match put_all(out, &text) {
        Ok(()) => Ok(None),
        Err(_) => {
            let broken = break_off(alloc, session)?;
            Ok(Some(broken))
        }
    }
}

/// Ends the session at the end of the client's bytes: what is asked for is recorded, and all is sent.
fn finish<F: Followed, O: Sink>(
    alloc: Global,
    session: &mut Session<F>,
    out: &mut O,
) -> Result<Ending, NoMemory>
    requires { IsServing (F.run session.old.samples) (replay session.old.history) }
    ensures ended { IfOk result (λ ending. (outset : Outset) (left : Option (List ℕ)) (rest : List ℕ) (taken : ℕ) → IsReading outset left (O.seen out.old).held (conversation F.run session.old) rest taken → IsAtEnd left
        → IsEnded outset left (O.seen out.new).held session.new.history ending) }
    ensures wanting { OnErr result ((outset : Outset) (left : Option (List ℕ)) (rest : List ℕ) (taken : ℕ) → IsReading outset left (O.seen out.old).held (conversation F.run session.old) rest taken → IsAtEnd left
        → IsWanting outset (O.seen out.new).held) }
    ensures run { OnOk result (session.new.samples ≡ session.old.samples) }
    ensures cause { IfOk result (λ ending. IsOutputCause (Some ending) (O.seen out.old) (O.seen out.new)) }
    ensures later { (O.seen out.old).faults ≤ (O.seen out.new).faults }
{
    let mut text = Vec::new(alloc);
    session.run_out(alloc, &mut text)?;
    match put_all(out, &text) {
        Ok(()) => {
            leave(alloc, session, Why::Ended)?;
            Ok(Ending::Served)
        }
        Err(_) => {
            let ending = break_off(alloc, session)?;
            Ok(ending)
        }
    }
}

/// Serves a client that was just opened: reads its bytes from the source, up to the limit of how many are
/// read, and sends what its packets are answered to the sink. The history and what is sent do not depend on
/// how reads and writes were cut.
pub fn serve<F: Followed, I: Source, O: Sink>(
    alloc: Global,
    session: &mut Session<F>,
    input: &mut I,
    out: &mut O,
) -> Result<Ending, NoMemory>
    requires { HasServed [] (conversation F.run session.old) [] }
    ensures ended { IfOk result (λ ending. IsEnded (outset_of (F.run session.old.samples) (I.seen input.old) (O.seen out.old)) (I.seen input.new).left (O.seen out.new).held session.new.history ending) }
    ensures wanting { OnErr result (IsWanting (outset_of (F.run session.old.samples) (I.seen input.old) (O.seen out.old)) (O.seen out.new).held) }
    ensures run { OnOk result (session.new.samples ≡ session.old.samples) }
    ensures cause { IfOk result (λ ending. IsCause ending (I.seen input.old) (I.seen input.new) (O.seen out.old) (O.seen out.new)) }
    ensures later_input { (I.seen input.old).faults ≤ (I.seen input.new).faults }
    ensures later_output { (O.seen out.old).faults ≤ (O.seen out.new).faults }
{
    let mut framer = Framer::new(alloc)?;
    let mut piece = vec![in alloc; 0u8; PIECE]?;
    let mut taken = 0;
    loop {
        match read_piece(input, &mut piece, taken) {
            Got::Bytes(_) if taken == LIMIT => {
                leave(alloc, session, Why::Limit)?;
                return Ok(Ending::Limit);
            }
            Got::Bytes(count) => {
                taken += count;
                let given = &piece[..count];
                if let Some(ending) = answer_piece(alloc, session, &mut framer, given, out)? {
                    return Ok(ending);
                }
            }
            Got::End => {
                let ending = finish(alloc, session, out)?;
                return Ok(ending);
            }
            Got::Failed => {
                leave(alloc, session, Why::Fault)?;
                return Ok(Ending::InputFailed);
            }
        }
    }
}
