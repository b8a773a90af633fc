//! The requests that a client's packets are.
#![tactic(auto)]

ghost use Rattle.std.specs.Prelude.{◌≡◌, option_map, codes};
ghost use Rattle.serde_json.specs.View.{view};
ghost use Rattle.serde_json.specs.Find.{get, as_str};
ghost use Rattle.proto_packets.specs.Answers.{Answers, Reads};
ghost use Rattle.proto_packets.specs.Asked.{asked, asked_in, reading, command, greeting};
ghost use Rattle.proto_packets.specs.Kind.{must_be};

mod arguments;
mod command;
mod fault;
mod kind;
mod request;

use arguments::arguments;
use command::Command;
pub use fault::PacketFault;
pub use request::{Designation, Request};
use serde_json::Value;
use std::alloc::Global;

/// Reads one packet, without its zero byte. Unknown keys are ignored, and of equal keys the last counts.
/// The first of the faults `Json`, `Packet`, `Command`, `Argument` is answered; want of memory may come
/// in the place of any answer.
pub fn read_packet(alloc: Global, bytes: &[u8]) -> Result<Request, PacketFault>
    ensures { Answers result (asked bytes.now) }
{
    let packet = json(alloc, bytes)?;
    request_in(alloc, &packet)
}

fn json(alloc: Global, bytes: &[u8]) -> Result<Value, PacketFault>
    ensures { Reads result (reading bytes.now) }
{
    match Value::from_slice(alloc, bytes) {
        Ok(packet) => Ok(packet),
        Err(error) => {
            if error.is_memory() {
                return Err(PacketFault::NoMemory);
            }
            Err(PacketFault::Json)
        }
    }
}

fn request_in(alloc: Global, packet: &Value) -> Result<Request, PacketFault>
    ensures { Answers result (asked_in (view packet.now)) }
{
    match text(packet, "type") {
        Some("greeting") => greeting_in(packet),
        Some("command") => command_in(alloc, packet),
        _ => Err(PacketFault::Packet),
    }
}

fn greeting_in(packet: &Value) -> Result<Request, PacketFault>
    ensures { Answers result (greeting (view packet.now)) }
{
    let version = packet.get("version").and_then(Value::as_u64);
    let version = version.ok_or(PacketFault::Packet)?;
    Ok(Request::Greeting { version })
}

fn command_in(alloc: Global, packet: &Value) -> Result<Request, PacketFault>
    ensures { Answers result (command (view packet.now) (must_be as_str (get (codes "command") (view packet.now)))) }
{
    let name = text(packet, "command").ok_or(PacketFault::Packet)?;
    let command = Command::named(name).ok_or(PacketFault::Command)?;
    arguments(alloc, command, packet)
}

fn text<'v>(packet: &'v Value, key: &str) -> Option<&'v str>
    ensures { option_map (λ t. t.now) result ≡ must_be as_str (get key.now (view packet.now)) }
{
    packet.get(key).and_then(Value::as_str)
}
