//! The text of an answer.
ghost use Rattle.std.specs.Prelude.{◌≡◌, ◌++◌, IfOk, OnOk};
ghost use Rattle.sim_base.specs.TimeText.{time_text};
ghost use Rattle.proto_replies.specs.declared.answer.Answer.TheVariants as answers;
ghost use Rattle.proto_replies.specs.Data.{AreTimes, answer_data, packet_text};
ghost use Rattle.proto_replies.specs.Text.{answer_text, cause_word, error_message, error_word, next_text, state_word};

use crate::answer::{Answer, Cause, ErrorKind, RunState};
use sim_base::{NoMemory, Time};
use std::alloc::Global;

/// The text of a time has so many bytes at most.
const TIME_BYTES: usize = 26;

/// The packet of an answer: its JSON text, with no blanks and sorted keys, and a zero byte. Times are in
/// seconds with 15 digits behind the dot.
#[tactic(auto, using(crate::proofs::Plain::packet_json))]
pub fn reply(alloc: Global, answer: &Answer) -> Result<Vec<u8>, NoMemory>
    ensures { IfOk result (λ text. text.items ≡ packet_text (answer_data answer.now)) }
{
    know_times(answer);
    let mut text = Vec::new(alloc);
    push_answer(&mut text, answer)?;
    text.push(0)?;
    Ok(text)
}

/// Tells the proof that each time of an answer is one that a `Time` can be. It does nothing.
fn know_times(answer: &Answer)
    ensures { AreTimes answer.now }
{
    match answer {
        Answer::Status { latest, next, .. } => {
            let _ = latest.femtoseconds();
            if let Some(later) = next {
                let _ = later.femtoseconds();
            }
        }
        Answer::PauseSimulation { time }
        | Answer::Paused { time, .. }
        | Answer::Finished { time } => {
            let _ = time.femtoseconds();
        }
        Answer::Greeting | Answer::ReferenceItems | Answer::RunSimulation | Answer::Error(_) => {}
    }
}

fn push_answer(text: &mut Vec<u8>, answer: &Answer) -> Result<(), NoMemory>
    ensures { OnOk result (text.new.items ≡ text.old.items ++ answer_text answer.now) }
{
    match answer {
        Answer::Greeting => push_greeting(text),
        Answer::ReferenceItems => push(text, br#"{"command":"reference_items","type":"response"}"#),
        Answer::RunSimulation => push(text, br#"{"command":"run_simulation","type":"response"}"#),
        Answer::PauseSimulation { time } => push_pause(text, *time),
        Answer::Status {
            latest,
            state,
            next,
        } => push_status(text, *latest, *state, *next),
        Answer::Paused { cause, time } => push_paused(text, *cause, *time),
        Answer::Finished { time } => push_finished(text, *time),
        Answer::Error(kind) => push_error(text, *kind),
    }
}

/// Puts bytes behind the text.
fn push(text: &mut Vec<u8>, bytes: &[u8]) -> Result<(), NoMemory>
    ensures { OnOk result (text.new.items ≡ text.old.items ++ bytes.now) }
{
    text.extend_from_slice(bytes)?;
    Ok(())
}

fn push_time(text: &mut Vec<u8>, time: Time) -> Result<(), NoMemory>
    ensures { OnOk result (text.new.items ≡ text.old.items ++ time_text time) }
{
    let mut buffer = [0u8; TIME_BYTES];
    let count = time.write(&mut buffer);
    push(text, &buffer[..count])
}

fn push_greeting(text: &mut Vec<u8>) -> Result<(), NoMemory>
    ensures { OnOk result (text.new.items ≡ text.old.items ++ answer_text answers.Greeting) }
{
    push(
        text,
        br#"{"commands":["list_scopes","list_items","reference_items","query_interval","get_simulation_status","run_simulation","pause_simulation"],"events":["simulation_paused","simulation_finished"],"features":{"item_values_encoding":["base64(u32)"]},"type":"greeting","version":0}"#,
    )
}

fn push_pause(text: &mut Vec<u8>, time: Time) -> Result<(), NoMemory>
    ensures { OnOk result (text.new.items ≡ text.old.items ++ answer_text (answers.PauseSimulation time)) }
{
    push(text, br#"{"command":"pause_simulation","time":""#)?;
    push_time(text, time)?;
    push(text, br#"","type":"response"}"#)
}

fn push_status(
    text: &mut Vec<u8>,
    latest: Time,
    state: RunState,
    next: Option<Time>,
) -> Result<(), NoMemory>
    ensures { OnOk result (text.new.items ≡ text.old.items ++ answer_text (answers.Status latest state next)) }
{
    push(
        text,
        br#"{"command":"get_simulation_status","latest_time":""#,
    )?;
    push_time(text, latest)?;
    push(text, br#"""#)?;
    push_next(text, next)?;
    push(text, br#","status":""#)?;
    push(text, word_of_state(state))?;
    push(text, br#"","type":"response"}"#)
}

fn push_next(text: &mut Vec<u8>, next: Option<Time>) -> Result<(), NoMemory>
    ensures { OnOk result (text.new.items ≡ text.old.items ++ next_text next) }
{
    if let Some(time) = next {
        push(text, br#","next_sample_time":""#)?;
        push_time(text, time)?;
        push(text, br#"""#)?;
    }
    Ok(())
}

fn push_paused(text: &mut Vec<u8>, cause: Cause, time: Time) -> Result<(), NoMemory>
    ensures { OnOk result (text.new.items ≡ text.old.items ++ answer_text (answers.Paused cause time)) }
{
    push(text, br#"{"cause":""#)?;
    push(text, word_of_cause(cause))?;
    push(text, br#"","event":"simulation_paused","time":""#)?;
    push_time(text, time)?;
    push(text, br#"","type":"event"}"#)
}

fn push_finished(text: &mut Vec<u8>, time: Time) -> Result<(), NoMemory>
    ensures { OnOk result (text.new.items ≡ text.old.items ++ answer_text (answers.Finished time)) }
{
    push(text, br#"{"event":"simulation_finished","time":""#)?;
    push_time(text, time)?;
    push(text, br#"","type":"event"}"#)
}

fn push_error(text: &mut Vec<u8>, kind: ErrorKind) -> Result<(), NoMemory>
    ensures { OnOk result (text.new.items ≡ text.old.items ++ answer_text (answers.Error kind)) }
{
    push(text, br#"{"error":""#)?;
    push(text, word_of_error(kind))?;
    push(text, br#"","message":""#)?;
    push(text, message_of(kind))?;
    push(text, br#"","type":"error"}"#)
}

fn word_of_state(state: RunState) -> &'static [u8]
    ensures { result.now ≡ state_word state }
{
    match state {
        RunState::Running => b"running",
        RunState::Paused => b"paused",
        RunState::Finished => b"finished",
    }
}

fn word_of_cause(cause: Cause) -> &'static [u8]
    ensures { result.now ≡ cause_word cause }
{
    match cause {
        Cause::UntilTime => b"until_time",
        Cause::UntilDiagnostics => b"until_diagnostics",
    }
}

fn word_of_error(kind: ErrorKind) -> &'static [u8]
    ensures { result.now ≡ error_word kind }
{
    match kind {
        ErrorKind::InvalidJson => b"invalid_json",
        ErrorKind::InvalidPacket => b"invalid_packet",
        ErrorKind::InvalidCommand => b"invalid_command",
        ErrorKind::InvalidArgument => b"invalid_argument",
        ErrorKind::NotGreeted => b"not_greeted",
        ErrorKind::AlreadyGreeted => b"already_greeted",
        ErrorKind::InvalidVersion => b"invalid_version",
        ErrorKind::InvalidScope => b"invalid_scope",
        ErrorKind::InvalidItem => b"invalid_item",
        ErrorKind::InvalidReference => b"invalid_reference",
        ErrorKind::InvalidInterval => b"invalid_interval",
        ErrorKind::InvalidEncoding => b"invalid_encoding",
        ErrorKind::PacketTooLong => b"packet_too_long",
    }
}

fn message_of(kind: ErrorKind) -> &'static [u8]
    ensures { result.now ≡ error_message kind }
{
    match kind {
        ErrorKind::InvalidJson => b"the packet is not JSON",
        ErrorKind::InvalidPacket => b"the packet is not a greeting or a command",
        ErrorKind::InvalidCommand => b"the command is unknown",
        ErrorKind::InvalidArgument => b"an argument is missing or malformed",
        ErrorKind::NotGreeted => b"no greeting was received",
        ErrorKind::AlreadyGreeted => b"the greeting was already received",
        ErrorKind::InvalidVersion => b"the version is not 0",
        ErrorKind::InvalidScope => b"the scope is unknown",
        ErrorKind::InvalidItem => b"an item is unknown or malformed",
        ErrorKind::InvalidReference => b"the reference is unknown or one too many",
        ErrorKind::InvalidInterval => b"the interval ends before it begins",
        ErrorKind::InvalidEncoding => b"the encoding is unknown",
        ErrorKind::PacketTooLong => b"the packet is too long",
    }
}
