use proto_packets::{Designation, PacketFault, Request, read_packet};
use sim_base::Name;
use sqlite_items::Items;
use std::alloc::{AllocError, Global};
use std::process::Abort;
use std::test::Fail;

fn text(name: &Name) -> &str {
    str::from_utf8(name.as_bytes()).unwrap_or("no UTF-8")
}

fn name_or_none(name: &Option<Name>) -> &str {
    match name {
        Some(name) => text(name),
        None => "none",
    }
}

fn designated(alloc: Global, items: &Option<Items<Designation>>) -> Result<String, AllocError> {
    let Some(items) = items else {
        return String::from_str(alloc, " none");
    };
    let mut shown = String::new(alloc);
    for item in items.as_slice() {
        shown.push_str(" ")?;
        shown.push_str(text(&item.name))?;
        if let Some((first, last)) = item.rows {
            let rows = format!(in alloc; "[{first}..{last}]")?;
            shown.push_str(&rows)?;
        }
    }
    Ok(shown)
}

fn shown(alloc: Global, request: &Request) -> Result<String, AllocError> {
    match request {
        Request::Greeting { version } => format!(in alloc; "greeting {version}"),
        Request::ListScopes { scope } => format!(in alloc; "scopes {}", name_or_none(scope)),
        Request::ListItems { scope } => format!(in alloc; "items {}", name_or_none(scope)),
        Request::ReferenceItems { reference, items } => {
            let items = designated(alloc, items)?;
            format!(in alloc; "reference {}:{}", text(reference), items.as_str())
        }
        Request::QueryInterval {
            begin,
            end,
            items,
            encoding,
            collapse,
            diagnostics,
        } => format!(in alloc;
            "query {} to {} of {} in {}, {collapse}, {diagnostics}",
            begin.femtoseconds(),
            end.femtoseconds(),
            name_or_none(items),
            name_or_none(encoding)
        ),
        Request::Status => format!(in alloc; "status"),
        Request::RunSimulation { until, kinds } => {
            let until = until.map_or(0, |time| time.femtoseconds());
            format!(in alloc; "run {until}, {}, {}", kinds.asserts, kinds.assumes)
        }
        Request::PauseSimulation => format!(in alloc; "pause"),
    }
}

fn answer(alloc: Global, packet: &[u8]) -> Result<String, AllocError> {
    match read_packet(alloc, packet) {
        Ok(request) => shown(alloc, &request),
        Err(fault) => format!(in alloc; "{fault:?}"),
    }
}

/// Each row's packet, ` -> ` and what it asks.
fn check(rt: &impl Abort, alloc: Global, rows: &str) -> Result<(), Fail> {
    for row in rows.lines() {
        let (packet, want) = row.split_once(" -> ").unwrap_or((row, ""));
        let got = answer(alloc, packet.as_bytes())?;
        assert_eq!(rt; got.as_str(), want, "at {packet}");
    }
    Ok(())
}

const GREETINGS: &str = r#"{"type":"greeting","version":0} -> greeting 0
{"type":"greeting","version":1} -> greeting 1
{"type":"greeting","version":18446744073709551615} -> greeting 18446744073709551615
{"type":"greeting","version":18446744073709551616} -> Packet
{"type":"greeting","version":0.0} -> Packet
{"type":"greeting","version":1e0} -> Packet
{"type":"greeting","version":-1} -> Packet
{"type":"greeting","version":-0} -> Packet
{"type":"greeting","version":null} -> Packet
{"type":"greeting","version":"0"} -> Packet"#;

const FAULTS: &str = r#" -> Json
{ -> Json
{"type":"command","command":"\ud83d"} -> Json
{"type":"greeting","version":0,"x":1e400} -> Json
[] -> Packet
null -> Packet
{"type":"event"} -> Packet
{"type":"command"} -> Packet
{"type":"command","command":1} -> Packet
{"type":"command","command":null} -> Packet
{"type":"command","command":"x","scope":1} -> Command
{"type":"command","command":"Pause_simulation"} -> Command
{"type":"command","command":""} -> Command
{"type":"command","command":"list_scopes","scope":1} -> Argument
{"type":"command","version":1,"x":[],"version":2,"type":"greeting"} -> greeting 2"#;

#[test]
fn a_greeting_has_a_whole_version_and_the_first_fault_is_told(rt: HostRuntime) -> Result<(), Fail> {
    let alloc = rt.alloc();
    check(&rt, alloc, GREETINGS)?;
    check(&rt, alloc, FAULTS)?;
    let no_text = answer(alloc, b"{\"type\":\"\xff\"}")?;
    assert_eq!(rt; no_text.as_str(), "Json");
    let marked = answer(alloc, b"\xef\xbb\xbf{\"type\":\"greeting\",\"version\":0}")?;
    assert_eq!(rt; marked.as_str(), "Json");
    let blank = answer(alloc, b" {\"version\" : 0 ,\n\"type\" : \"greeting\" }\r\n")?;
    assert_eq!(rt; blank.as_str(), "greeting 0");
    Ok(())
}

/// A value for each kind, and values that look like what a key wants.
const VALUES: &str =
    r#"absent null true 0 -1 0.5 "x" "0.5" [] ["x"] ["0.0","1.0"] ["0.0",1] [["x"]] [["x",2,1]] {}"#;

/// A command with its other arguments, a key, and the values that fit it.
const KEYS: &str = r#""list_scopes" scope absent null "x" "0.5"
"list_items" scope absent null "x" "0.5"
"reference_items","items":[] reference "x" "0.5"
"reference_items","reference":"r" items null [] [["x"]] [["x",2,1]]
"query_interval" interval ["0.0","1.0"]
"query_interval","interval":["0.0","1.0"] items absent null "x" "0.5"
"query_interval","interval":["0.0","1.0"] item_values_encoding absent null "x" "0.5"
"query_interval","interval":["0.0","1.0"] collapse absent null true
"query_interval","interval":["0.0","1.0"] diagnostics absent null true
"run_simulation" until_time absent null "0.5"
"run_simulation" sample_item_values absent null true
"run_simulation" until_diagnostics absent null [] ["x"] ["0.0","1.0"]"#;

fn packet_with(alloc: Global, command: &str, key: &str, value: &str) -> Result<String, AllocError> {
    if value == "absent" {
        return format!(in alloc; r#"{{"type":"command","command":{command}}}"#);
    }
    format!(in alloc; r#"{{"type":"command","command":{command},"{key}":{value}}}"#)
}

fn is_read(alloc: Global, packet: &str) -> Result<bool, PacketFault> {
    match read_packet(alloc, packet.as_bytes()) {
        Ok(_) => Ok(true),
        Err(PacketFault::Argument) => Ok(false),
        Err(fault) => Err(fault),
    }
}

/// Whether a text has this word.
fn has_word(text: &str, word: &str) -> bool {
    for other in text.split(' ') {
        if other == word {
            return true;
        }
    }
    false
}

fn check_key(rt: &impl Abort, alloc: Global, row: &str) -> Result<(), Fail> {
    let (command, rest) = row.split_once(' ').unwrap_or((row, ""));
    let (key, fitting) = rest.split_once(' ').unwrap_or((rest, ""));
    for value in VALUES.split(' ') {
        let packet = packet_with(alloc, command, key, value)?;
        let read = is_read(alloc, &packet)?;
        assert_eq!(rt; read, has_word(fitting, value), "{packet}");
    }
    Ok(())
}

#[test]
fn each_key_has_its_kinds(rt: HostRuntime) -> Result<(), Fail> {
    for row in KEYS.lines() {
        check_key(&rt, rt.alloc(), row)?;
    }
    Ok(())
}

const COMMANDS: &str = r#"{"type":"command","command":"list_scopes"} -> scopes none
{"type":"command","command":"list_scopes","scope":null} -> scopes none
{"type":"command","command":"list_scopes","scope":"top a"} -> scopes top a
{"type":"command","command":"list_items","scope":""} -> items 
{"type":"command","command":"reference_items","reference":"r","items":null} -> reference r: none
{"type":"command","command":"reference_items","reference":"r","items":[]} -> reference r:
{"type":"command","command":"reference_items","reference":"r","items":[["q"],["m",3,0]]} -> reference r: q m[3..0]
{"type":"command","command":"reference_items","reference":"r","items":[["m",1]]} -> Argument
{"type":"command","command":"reference_items","reference":"r","items":[["m",0,1,2]]} -> Argument
{"type":"command","command":"reference_items","reference":"r","items":[["q"],[]]} -> Argument
{"type":"command","command":"reference_items","reference":"r","items":[["m",null,null]]} -> Argument
{"type":"command","command":"reference_items","reference":"r","items":[["m",0,1.0]]} -> Argument
{"type":"command","command":"query_interval","interval":["2.0","1.5"]} -> query 2000000000000000 to 1500000000000000 of none in none, false, false
{"type":"command","command":"query_interval","interval":["0.0","0.000000000000001"],"items":"r","item_values_encoding":"e","collapse":true} -> query 0 to 1 of r in e, true, false
{"type":"command","command":"query_interval","interval":["0.0","1.0"],"collapse":null,"diagnostics":true} -> query 0 to 1000000000000000 of none in none, false, true
{"type":"command","command":"query_interval","interval":["0.0","4294967296.0"]} -> Argument
{"type":"command","command":"query_interval","interval":["0.0"]} -> Argument
{"type":"command","command":"query_interval","interval":["0.0","1.0","2.0"]} -> Argument
{"type":"command","command":"get_simulation_status","scope":1} -> status
{"type":"command","command":"run_simulation"} -> run 0, false, false
{"type":"command","command":"run_simulation","until_time":"0.000000005","until_diagnostics":["assume"]} -> run 5000000, false, true
{"type":"command","command":"run_simulation","until_diagnostics":["x","assert","asserts"]} -> run 0, true, false
{"type":"command","command":"run_simulation","until_diagnostics":["assert",1]} -> Argument
{"type":"command","command":"pause_simulation"} -> pause"#;

#[test]
fn a_command_has_its_arguments(rt: HostRuntime) -> Result<(), Fail> {
    check(&rt, rt.alloc(), COMMANDS)?;
    let packet =
        br#"{"type":"command","command":"list_items","scope":"\u0041\t\ud83d\ude00\u0000"}"#;
    let escaped = answer(rt.alloc(), packet)?;
    assert_eq!(rt; escaped.as_str(), "items A\t\u{1f600}\0");
    Ok(())
}

#[test]
fn lists_nest_up_to_127_deep(rt: HostRuntime) -> Result<(), Fail> {
    for (depth, want) in [(127, "Packet"), (128, "Json")] {
        let mut packet = vec![in rt.alloc(); b'['; depth]?;
        packet.extend_from_slice(&vec![in rt.alloc(); b']'; depth]?)?;
        let got = answer(rt.alloc(), &packet)?;
        assert_eq!(rt; got.as_str(), want, "at {depth}");
    }
    let spaces = vec![in rt.alloc(); b' '; 1_048_576]?;
    assert_eq!(rt; answer(rt.alloc(), &spaces)?.as_str(), "Json");
    Ok(())
}

fn asked(alloc: Global, packet: &[u8]) -> Result<Request, PacketFault> {
    match read_packet(alloc, packet) {
        Err(PacketFault::NoMemory) => read_packet(alloc, packet),
        answered => answered,
    }
}

fn told(alloc: Global, asked: &Result<Request, PacketFault>) -> Result<String, AllocError> {
    match asked {
        Ok(request) => shown(alloc, request),
        Err(fault) => format!(in alloc; "{fault:?}"),
    }
}

/// Packets of each kind, for a run in which one allocation is refused.
const REFUSED: &str = r#"{"type":"greeting","version":3} -> greeting 3
{"type":"command","command":"list_items","scope":"top a"} -> items top a
{"type":"command","command":"reference_items","reference":"r","items":[["q"],["m",3,0],["p"],["s"],["t"]]} -> reference r: q m[3..0] p s t
{"type":"command","command":"query_interval","interval":["0.0","1.0"],"items":"r","item_values_encoding":"e"} -> query 0 to 1000000000000000 of r in e, false, false
{"type":"command","command":"reference_items","reference":"r","items":[["q"],["m",3]]} -> Argument
{"type":"command","command":"\u0041"} -> Command
[["a",{"b":"\u0041"}],1,2,3,4] -> Packet
{"a":["b","c"],"d": -> Json"#;

// Where one allocation is refused, no other answer comes in its place, and asking again gives the answer.
#[test]
fn a_refused_allocation_is_told_as_no_memory(rt: HostRuntime) -> Result<(), Fail> {
    for row in REFUSED.lines() {
        let (packet, want) = row.split_once(" -> ").unwrap_or((row, ""));
        let request = asked(rt.alloc(), packet.as_bytes());
        let got = match told(rt.alloc(), &request) {
            Ok(text) => text,
            Err(_) => told(rt.alloc(), &request)?,
        };
        assert_eq!(rt; got.as_str(), want, "at {packet}");
    }
    Ok(())
}
