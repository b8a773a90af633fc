//! The keys of each command.
ghost use Rattle.std.specs.Prelude.{◌≡◌};
ghost use Rattle.serde_json.specs.Find.{get, as_str, as_bool};
ghost use Rattle.serde_json.specs.View.{view};
ghost use Rattle.proto_packets.specs.Answers.{Finds, Gives};
ghost use Rattle.proto_packets.specs.Asked.{arguments, truth, stops};
ghost use Rattle.proto_packets.specs.Kind.{may_be, must_be, time};
ghost use Rattle.proto_packets.specs.declared.command.Command.TheVariants as command;

use crate::command::Command;
use crate::fault::PacketFault;
use crate::kind;
use crate::request::Request;
use serde_json::Value;
use sim_base::{Kinds, Name, Time};
use std::alloc::Global;

/// The request of a command by its keys.
pub fn arguments(alloc: Global, command: Command, packet: &Value) -> Result<Request, PacketFault>
    ensures { Gives result (arguments command (view packet.now)) }
{
    match command {
        Command::ListScopes => Ok(Request::ListScopes {
            scope: name_if_given(alloc, packet, "scope")?,
        }),
        Command::ListItems => Ok(Request::ListItems {
            scope: name_if_given(alloc, packet, "scope")?,
        }),
        Command::ReferenceItems => reference_items(alloc, packet),
        Command::QueryInterval => query_interval(alloc, packet),
        Command::GetSimulationStatus => Ok(Request::Status),
        Command::RunSimulation => run_simulation(packet),
        Command::PauseSimulation => Ok(Request::PauseSimulation),
    }
}

fn reference_items(alloc: Global, packet: &Value) -> Result<Request, PacketFault>
    ensures { Gives result (arguments command.ReferenceItems (view packet.now)) }
{
    let reference = kind::text(alloc, required(packet, "reference")?)?;
    let items = match required(packet, "items")? {
        Value::Null => None,
        list => Some(kind::designations(alloc, list)?),
    };
    Ok(Request::ReferenceItems { reference, items })
}

fn query_interval(alloc: Global, packet: &Value) -> Result<Request, PacketFault>
    ensures { Gives result (arguments command.QueryInterval (view packet.now)) }
{
    let (begin, end) = kind::interval(required(packet, "interval")?)?;
    Ok(Request::QueryInterval {
        begin,
        end,
        items: name_if_given(alloc, packet, "items")?,
        encoding: name_if_given(alloc, packet, "item_values_encoding")?,
        collapse: truth(packet, "collapse")?,
        diagnostics: truth(packet, "diagnostics")?,
    })
}

fn run_simulation(packet: &Value) -> Result<Request, PacketFault>
    ensures { Gives result (arguments command.RunSimulation (view packet.now)) }
{
    let until = time_if_given(packet, "until_time")?;
    let kinds = stops(packet, "until_diagnostics")?;
    // Everything is sampled, whatever it says.
    truth(packet, "sample_item_values")?;
    Ok(Request::RunSimulation { until, kinds })
}

fn required<'v>(packet: &'v Value, key: &str) -> Result<&'v Value, PacketFault>
    ensures { Finds result (get key.now (view packet.now)) }
{
    packet.get(key).ok_or(PacketFault::Argument)
}

fn name_if_given(alloc: Global, packet: &Value, key: &str) -> Result<Option<Name>, PacketFault>
    ensures { Gives result (may_be as_str (get key.now (view packet.now))) }
{
    match kind::given(packet, key) {
        Some(value) => Ok(Some(kind::text(alloc, value)?)),
        None => Ok(None),
    }
}

fn time_if_given(packet: &Value, key: &str) -> Result<Option<Time>, PacketFault>
    ensures { Gives result (may_be time (get key.now (view packet.now))) }
{
    match kind::given(packet, key) {
        Some(value) => Ok(Some(kind::time(value)?)),
        None => Ok(None),
    }
}

/// A truth value that is false where it is absent.
fn truth(packet: &Value, key: &str) -> Result<bool, PacketFault>
    ensures { Gives result (truth (get key.now (view packet.now))) }
{
    match kind::given(packet, key) {
        Some(value) => kind::truth(value),
        None => Ok(false),
    }
}

/// The kinds of diagnostics at which a run stops, none where they are absent.
fn stops(packet: &Value, key: &str) -> Result<Kinds, PacketFault>
    ensures { Gives result (stops (get key.now (view packet.now))) }
{
    match kind::given(packet, key) {
        Some(value) => kind::kinds(value),
        None => Ok(Kinds {
            asserts: false,
            assumes: false,
        }),
    }
}
