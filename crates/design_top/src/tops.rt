//! Which module of a file is the top.
ghost use Rattle.std.specs.Prelude.{◌≡◌, ◌<◌, ◌++◌, ◌∷◌, [], IfOk, OnOk, Some, if◌then◌else◌, length};
ghost use Rattle.std.specs.Option.{option_copied};
ghost use Rattle.design_parts.specs.Parts.{Passes, Says};
ghost use Rattle.design_top.specs.Tops as spec;

use circuit::{DesignFault, DesignKind};
use design_cells::capped;
use design_parts::Refusal;
use rtlil_signals::const_bits;
use rtlil_tree::{Const, Module, attribute_value};
use sim_base::{Name, NoMemory};
use sqlite_items::Items;
use std::alloc::Global;

/// A refusal that stands at no place.
fn nowhere(alloc: Global, kind: DesignKind) -> Refusal
    ensures { Says result (spec.nowhere kind) }
{
    Refusal::At(DesignFault {
        kind,
        place: Name::new(Vec::new(alloc)),
        bits: Items::new(alloc),
        drives: Items::new(alloc),
    })
}

#[tactic(auto, using(crate::proofs::Steps::capped_nonzero))]
fn is_nonzero(alloc: Global, constant: &Const) -> Result<bool, NoMemory>
    ensures { IfOk result (λ nonzero. nonzero ≡ spec.is_nonzero constant.now) }
{
    let value = const_bits(alloc, constant)?;
    Ok(capped(&value) != 0)
}

/// Whether a module says that it is a top.
fn is_marked(alloc: Global, unit: &Module) -> Result<bool, NoMemory>
    ensures { IfOk result (λ marked. marked ≡ spec.is_marked unit.now) }
{
    match attribute_value(unit.attributes.as_slice(), b"\\top") {
        Some(constant) => is_nonzero(alloc, constant),
        None => Ok(false),
    }
}

fn has_name(unit: &Module, name: &[u8]) -> bool
    ensures { result ≡ spec.has_name name.now unit.now }
{
    unit.name.as_bytes() == name
}

fn push_where(holds: bool, number: usize, found: &mut Items<usize>) -> Result<(), NoMemory>
    ensures { OnOk result (found.new ≡ (if holds then found.old ++ number ∷ [] else found.old)) }
{
    if holds {
        found.push(number)?;
    }
    Ok(())
}

fn marked(alloc: Global, modules: &[Module]) -> Result<Items<usize>, NoMemory>
    ensures { IfOk result (λ found. found ≡ spec.numbers_of spec.is_marked 0 modules.now) }
{
    let mut found = Items::new(alloc);
    for number in 0..modules.len() {
        let holds = is_marked(alloc, &modules[number])?;
        push_where(holds, number, &mut found)?;
    }
    Ok(found)
}

fn named(alloc: Global, modules: &[Module], name: &[u8]) -> Result<Items<usize>, NoMemory>
    ensures { IfOk result (λ found. found ≡ spec.numbers_of (spec.has_name name.now) 0 modules.now) }
{
    let mut found = Items::new(alloc);
    for number in 0..modules.len() {
        let holds = has_name(&modules[number], name);
        push_where(holds, number, &mut found)?;
    }
    Ok(found)
}

fn marked_or_only(
    alloc: Global,
    marked: Items<usize>,
    count: usize,
) -> Result<Items<usize>, NoMemory>
    ensures { IfOk result (λ found. found ≡ spec.marked_or_only marked count) }
{
    if !marked.is_empty() || count != 1 {
        return Ok(marked);
    }
    let mut only = Items::new(alloc);
    only.push(0)?;
    Ok(only)
}

/// The numbers of the modules that may be the top.
fn candidates(
    alloc: Global,
    modules: &[Module],
    name: Option<&[u8]>,
) -> Result<Items<usize>, NoMemory>
    ensures { IfOk result (λ found. found ≡ spec.candidates modules.now (option_copied name.entry)) }
{
    match name {
        Some(name) => named(alloc, modules, name),
        None => marked_or_only(alloc, marked(alloc, modules)?, modules.len()),
    }
}

/// Whether the candidates leave no choice.
fn is_one(name: Option<&[u8]>, found: &Items<usize>) -> bool
    ensures { result ≡ spec.is_one (option_copied name.entry) found.now }
{
    match name {
        Some(_) => true,
        None => found.len() <= 1,
    }
}

/// The number of the module that is the top: the first one with the identifier, where one is given, else the one
/// of which the attribute `\top` is not zero, or the only one of the file. `NoTop` comes where there is none,
/// `ManyTops` where no identifier is given and several say that they are; neither has a place.
#[tactic(auto, using(crate::proofs::Parts::says_fails, crate::proofs::Steps::candidate_within, crate::proofs::Steps::top_none, crate::proofs::Steps::top_many, crate::proofs::Steps::top_one))]
pub fn top_of(alloc: Global, modules: &[Module], name: Option<&[u8]>) -> Result<usize, Refusal>
    ensures passes { Passes (spec.top_checks modules.now (option_copied name.entry)) result }
    ensures found { IfOk result (λ number. spec.top_number modules.now (option_copied name.entry) ≡ Some number) }
    ensures within { IfOk result (λ number. number < length modules.now) }
{
    let found = candidates(alloc, modules, name)?;
    let Some(first) = found.get(0) else {
        return Err(nowhere(alloc, DesignKind::NoTop));
    };
    if !is_one(name, &found) {
        return Err(nowhere(alloc, DesignKind::ManyTops));
    }
    Ok(*first)
}
