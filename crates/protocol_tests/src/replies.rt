//! The exact text of each answer.
use proto_replies::{Answer, Cause, ErrorKind, RunState, reply};
use sim_base::Time;
use std::test::Fail;

/// The text of a packet, without the zero byte that ends it.
fn text_of(packet: &[u8]) -> Option<&[u8]> {
    match packet {
        [text @ .., 0] => Some(text),
        _ => None,
    }
}

/// The time of the words, if they begin with one, or 0.
fn at(words: &str) -> Time {
    match words.split(' ').next() {
        Some(word) => Time::read(word.as_bytes()).unwrap_or(Time::zero()),
        None => Time::zero(),
    }
}

/// The time behind the words' first one, if there is one.
fn next_of(words: &str) -> Option<Time> {
    let (_, next) = words.split_once(' ')?;
    Time::read(next.as_bytes())
}

fn status(state: RunState, words: &str) -> Answer {
    Answer::Status {
        latest: at(words),
        state,
        next: next_of(words),
    }
}

fn paused(cause: Cause, words: &str) -> Answer {
    Answer::Paused {
        cause,
        time: at(words),
    }
}

fn error_of(word: &str) -> Option<ErrorKind> {
    match word {
        "InvalidJson" => Some(ErrorKind::InvalidJson),
        "InvalidPacket" => Some(ErrorKind::InvalidPacket),
        "InvalidCommand" => Some(ErrorKind::InvalidCommand),
        "InvalidArgument" => Some(ErrorKind::InvalidArgument),
        "NotGreeted" => Some(ErrorKind::NotGreeted),
        "AlreadyGreeted" => Some(ErrorKind::AlreadyGreeted),
        "InvalidVersion" => Some(ErrorKind::InvalidVersion),
        "InvalidScope" => Some(ErrorKind::InvalidScope),
        "InvalidItem" => Some(ErrorKind::InvalidItem),
        "InvalidReference" => Some(ErrorKind::InvalidReference),
        "InvalidInterval" => Some(ErrorKind::InvalidInterval),
        "InvalidEncoding" => Some(ErrorKind::InvalidEncoding),
        "PacketTooLong" => Some(ErrorKind::PacketTooLong),
        _ => None,
    }
}

/// The answer that these words stand for.
fn answer_of(line: &str) -> Option<Answer> {
    let (word, words) = line.split_once(' ').unwrap_or((line, ""));
    match word {
        "greeting" => Some(Answer::Greeting),
        "reference" => Some(Answer::ReferenceItems),
        "run" => Some(Answer::RunSimulation),
        "pause" => Some(Answer::PauseSimulation { time: at(words) }),
        "running" => Some(status(RunState::Running, words)),
        "paused" => Some(status(RunState::Paused, words)),
        "finished" => Some(status(RunState::Finished, words)),
        "at_time" => Some(paused(Cause::UntilTime, words)),
        "at_hit" => Some(paused(Cause::UntilDiagnostics, words)),
        "end" => Some(Answer::Finished { time: at(words) }),
        "error" => Some(Answer::Error(error_of(words)?)),
        _ => None,
    }
}

const ROWS: &str =
    r#"greeting -> {"commands":["list_scopes","list_items","reference_items","query_interval","get_simulation_status","run_simulation","pause_simulation"],"events":["simulation_paused","simulation_finished"],"features":{"item_values_encoding":["base64(u32)"]},"type":"greeting","version":0}
reference -> {"command":"reference_items","type":"response"}
run -> {"command":"run_simulation","type":"response"}
pause 0.000000015 -> {"command":"pause_simulation","time":"0.000000015000000","type":"response"}
running 0.00000128 0.000001285 -> {"command":"get_simulation_status","latest_time":"0.000001280000000","next_sample_time":"0.000001285000000","status":"running","type":"response"}
paused 0.000000015 0.000000020 -> {"command":"get_simulation_status","latest_time":"0.000000015000000","next_sample_time":"0.000000020000000","status":"paused","type":"response"}
finished 0.000002555 -> {"command":"get_simulation_status","latest_time":"0.000002555000000","status":"finished","type":"response"}
at_time 0.000000015 -> {"cause":"until_time","event":"simulation_paused","time":"0.000000015000000","type":"event"}
at_hit 0.0 -> {"cause":"until_diagnostics","event":"simulation_paused","time":"0.000000000000000","type":"event"}
at_time 4294967295.999999999999999 -> {"cause":"until_time","event":"simulation_paused","time":"4294967295.999999999999999","type":"event"}
end 0.000002555 -> {"event":"simulation_finished","time":"0.000002555000000","type":"event"}
end 0.0 -> {"event":"simulation_finished","time":"0.000000000000000","type":"event"}
error InvalidJson -> {"error":"invalid_json","message":"the packet is not JSON","type":"error"}
error InvalidPacket -> {"error":"invalid_packet","message":"the packet is not a greeting or a command","type":"error"}
error InvalidCommand -> {"error":"invalid_command","message":"the command is unknown","type":"error"}
error InvalidArgument -> {"error":"invalid_argument","message":"an argument is missing or malformed","type":"error"}
error NotGreeted -> {"error":"not_greeted","message":"no greeting was received","type":"error"}
error AlreadyGreeted -> {"error":"already_greeted","message":"the greeting was already received","type":"error"}
error InvalidVersion -> {"error":"invalid_version","message":"the version is not 0","type":"error"}
error InvalidScope -> {"error":"invalid_scope","message":"the scope is unknown","type":"error"}
error InvalidItem -> {"error":"invalid_item","message":"an item is unknown or malformed","type":"error"}
error InvalidReference -> {"error":"invalid_reference","message":"the reference is unknown or one too many","type":"error"}
error InvalidInterval -> {"error":"invalid_interval","message":"the interval ends before it begins","type":"error"}
error InvalidEncoding -> {"error":"invalid_encoding","message":"the encoding is unknown","type":"error"}
error PacketTooLong -> {"error":"packet_too_long","message":"the packet is too long","type":"error"}"#;

#[test]
fn each_answer_has_its_text(rt: HostRuntime) -> Result<(), Fail> {
    for row in ROWS.lines() {
        let (line, want) = row.split_once(" -> ").unwrap_or((row, ""));
        if let Some(answer) = answer_of(line) {
            let packet = reply(rt.alloc(), &answer)?;
            assert!(rt; text_of(&packet) == Some(want.as_bytes()), "{line}");
        } else {
            assert!(rt; false, "{line}");
        }
    }
    Ok(())
}
