//! The kinds of values that the keys of a packet have.
ghost use Rattle.std.specs.Prelude.{◌≡◌, option_map, option_and_then};
ghost use Rattle.serde_json.specs.Find.{get, as_bool, as_str};
ghost use Rattle.serde_json.specs.View.{view, items_view};
ghost use Rattle.proto_packets.specs.Answers.{Gives};
ghost use Rattle.proto_packets.specs.Kind.{given, whole, time, interval, two_times, kinds_named, each_text, kinds, designation_of, designation, each_designation, designations};

use crate::fault::PacketFault;
use crate::request::Designation;
use serde_json::Value;
use sim_base::{Kinds, Name, Time};
use sqlite_items::Items;
use std::alloc::Global;

/// The value at a key, unless it is null.
pub fn given<'v>(packet: &'v Value, key: &str) -> Option<&'v Value>
    ensures { option_map (λ v. view v.now) result ≡ given (get key.now (view packet.now)) }
{
    match packet.get(key) {
        Some(Value::Null) => None,
        found => found,
    }
}

pub fn text(alloc: Global, value: &Value) -> Result<Name, PacketFault>
    ensures { Gives result (as_str (view value.now)) }
{
    let text = value.as_str().ok_or(PacketFault::Argument)?;
    Ok(Name::copy_of(alloc, text.as_bytes())?)
}

pub fn truth(value: &Value) -> Result<bool, PacketFault>
    ensures { Gives result (as_bool (view value.now)) }
{
    value.as_bool().ok_or(PacketFault::Argument)
}

/// A number without a sign, a point or an exponent, below 2 to the 64.
pub fn whole(value: &Value) -> Result<u64, PacketFault>
    ensures { Gives result (whole (view value.now)) }
{
    value.as_u64().ok_or(PacketFault::Argument)
}

pub fn time(value: &Value) -> Result<Time, PacketFault>
    ensures { Gives result (time (view value.now)) }
{
    let text = value.as_str().ok_or(PacketFault::Argument)?;
    Time::read(text.as_bytes()).ok_or(PacketFault::Argument)
}

/// A list of two times.
pub fn interval(value: &Value) -> Result<(Time, Time), PacketFault>
    ensures { Gives result (interval (view value.now)) }
{
    let times = value.as_array().ok_or(PacketFault::Argument)?;
    two_times(times)
}

#[tactic(auto, using(crate::proofs::Parts::no_two_times))]
fn two_times(times: &[Value]) -> Result<(Time, Time), PacketFault>
    ensures { Gives result (two_times (items_view times.now)) }
{
    match times {
        [begin, end] => Ok((time(begin)?, time(end)?)),
        _ => Err(PacketFault::Argument),
    }
}

/// A list of texts, of which `assert` and `assume` name kinds.
pub fn kinds(value: &Value) -> Result<Kinds, PacketFault>
    ensures { Gives result (kinds (view value.now)) }
{
    let texts = value.as_array().ok_or(PacketFault::Argument)?;
    kinds_in(texts)
}

fn kinds_in(texts: &[Value]) -> Result<Kinds, PacketFault>
    ensures { Gives result (option_map kinds_named (each_text (items_view texts.now))) }
{
    let mut kinds = Kinds {
        asserts: false,
        assumes: false,
    };
    for value in texts {
        let Some(text) = value.as_str() else {
            return Err(PacketFault::Argument);
        };
        kinds.asserts |= text == "assert";
        kinds.assumes |= text == "assume";
    }
    Ok(kinds)
}

/// `[name]`, or `[name, first, last]` with whole numbers of rows.
fn designation(alloc: Global, value: &Value) -> Result<Designation, PacketFault>
    ensures { Gives result (designation (view value.now)) }
{
    let parts = value.as_array().ok_or(PacketFault::Argument)?;
    designation_of(alloc, parts)
}

#[tactic(auto, using(crate::proofs::Parts::no_designation))]
fn designation_of(alloc: Global, parts: &[Value]) -> Result<Designation, PacketFault>
    ensures { Gives result (designation_of (items_view parts.now)) }
{
    match parts {
        [name] => Ok(Designation {
            name: text(alloc, name)?,
            rows: None,
        }),
        [name, first, last] => Ok(Designation {
            name: text(alloc, name)?,
            rows: Some((whole(first)?, whole(last)?)),
        }),
        _ => Err(PacketFault::Argument),
    }
}

/// A list of designations.
pub fn designations(alloc: Global, value: &Value) -> Result<Items<Designation>, PacketFault>
    ensures { Gives result (designations (view value.now)) }
{
    let list = value.as_array().ok_or(PacketFault::Argument)?;
    designations_in(alloc, list)
}

fn designations_in(alloc: Global, list: &[Value]) -> Result<Items<Designation>, PacketFault>
    ensures { Gives result (each_designation (items_view list.now)) }
{
    let mut found = Items::new(alloc);
    for value in list {
        found.push(designation(alloc, value)?)?;
    }
    Ok(found)
}
