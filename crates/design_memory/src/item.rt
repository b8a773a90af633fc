//! The item of a memory.
ghost use Rattle.std.specs.Prelude.{◌≡◌, ◌++◌, IfOk, OnOk, option_map, true};
ghost use Rattle.std.specs.List.{list_all};
ghost use Rattle.design_wires.specs.Places.{seen_shown};
ghost use Rattle.design_wires.specs.Wires.{is_public};
ghost use Rattle.design_memory.specs.Memories.{memory_item, memory_items};
ghost use Rattle.design_memory.specs.Settings as spec;

use crate::names::Parameter;
use crate::settings::setting_at;
use circuit::{Item, ItemKind};
use design_parts::Draft;
use design_wires::{Shown, const_text, shown_name, source_text};
use rtlil_tree::{Attribute, Setting};
use sim_base::{Name, NoMemory};
use std::alloc::Global;

fn is_name_byte(byte: u8) -> bool
    ensures { result ≡ spec.is_name_byte byte }
{
    !(byte == 0 || byte == b'\t' || byte == b'\n' || byte == b'\r' || byte == b' ')
}

fn are_name_bytes(bytes: &[u8]) -> bool
    ensures { result ≡ list_all spec.is_name_byte bytes.now }
{
    for byte in bytes {
        if !is_name_byte(*byte) {
            return false;
        }
    }
    true
}

/// An identifier that begins with `\`.
fn is_shown_identifier(name: &[u8]) -> bool
    ensures { result ≡ spec.is_shown_identifier name.now }
{
    design_wires::is_public(name) && name.len() > 1 && are_name_bytes(name)
}

fn if_identifier(name: Name) -> Option<Name>
    ensures { result ≡ spec.if_identifier name }
{
    if is_shown_identifier(name.as_bytes()) {
        Some(name)
    } else {
        None
    }
}

/// The identifier of the item that a memory has, if it has one: its MEMID, where that is UTF-8 and an identifier
/// that begins with `\`.
pub fn item_identifier(alloc: Global, settings: &[Setting]) -> Result<Option<Name>, NoMemory>
    ensures { IfOk result (λ found. found ≡ spec.item_identifier settings.now) }
{
    let Some(setting) = setting_at(settings, Parameter::MemId) else {
        return Ok(None);
    };
    match const_text(alloc, &setting.value)? {
        Some(name) => Ok(if_identifier(name)),
        None => Ok(None),
    }
}

fn memory_item(
    alloc: Global,
    shown: &Shown,
    memory: u32,
    identifier: &Name,
    attributes: &[Attribute],
) -> Result<Item, NoMemory>
    requires { is_public identifier.now ≡ true }
    ensures { IfOk result (λ item. item ≡ memory_item (seen_shown shown.now) memory identifier.now attributes.now) }
{
    let name = shown_name(alloc, shown, identifier.as_bytes())?;
    let src = source_text(alloc, attributes)?;
    Ok(Item {
        name,
        scope: shown.scope,
        kind: ItemKind::Memory { mem: memory },
        src,
        first_slot: 0,
    })
}

/// Appends the item of a memory, if it has one and is shown.
pub(crate) fn show(
    alloc: Global,
    shown: &Option<Shown>,
    memory: u32,
    identifier: &Option<Name>,
    attributes: &[Attribute],
    draft: &mut Draft,
) -> Result<(), NoMemory>
    ensures { OnOk result (draft.new ≡ (record draft.old { items = draft.old.items ++ memory_items (option_map seen_shown shown.now) memory identifier.now attributes.now })) }
{
    let Some(shown) = shown else {
        return Ok(());
    };
    let Some(name) = identifier else {
        return Ok(());
    };
    if !design_wires::is_public(name.as_bytes()) {
        return Ok(());
    }
    draft.push_item(memory_item(alloc, shown, memory, name, attributes)?)
}
