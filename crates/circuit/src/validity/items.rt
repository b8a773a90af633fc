//! Items, scopes and inputs.
ghost use Rattle.std.specs.Prelude.{◌≡◌, ◌==◌, ◌&&◌, length, nat_lt, bytes_eq, min, sum_by};
ghost use Rattle.std.specs.List.{list_all, list_any, count_by};
ghost use Rattle.std.specs.Str.{is_utf8};
ghost use Rattle.circuit.specs.Shown.{slots_of};
ghost use Rattle.circuit.specs.Valid.{kind_fits, text_fits, item_fits, slots_run, names_rise, stands_before, scope_fits, names_differ, is_node_of, is_shown_once, numbers_differ, inputs_fit};

use crate::item::{Item, ItemKind, Scope};
use crate::memory::Mem;
use crate::netlist::{Circuit, Net};
use crate::validity::counts::is_countable;
use sim_base::Name;
use std::str::from_utf8;

#[tactic(auto, using(crate::proofs::Texts::is_text, crate::proofs::Texts::is_no_text))]
pub fn is_utf8(text: &Name) -> bool
    ensures { result ≡ is_utf8 text.now }
{
    from_utf8(text.as_bytes()).is_ok()
}

pub fn text_fits(text: &Option<Name>) -> bool
    ensures { result ≡ text_fits text.now }
{
    match text {
        Some(text) => is_utf8(text),
        None => true,
    }
}

fn kind_fits(nets: &[Net], mems: &[Mem], kind: ItemKind) -> bool
    ensures { result ≡ kind_fits nets.now mems.now kind }
{
    match kind {
        ItemKind::Node { net, .. } => (net as usize) < nets.len(),
        ItemKind::Memory { mem } => (mem as usize) < mems.len(),
    }
}

/// Whether the scope of an item and what it shows are there, and its texts are UTF-8.
pub fn item_fits(circuit: &Circuit, item: &Item) -> bool
    ensures { result ≡ item_fits circuit.now.nets circuit.now.mems circuit.now.scopes item.now }
{
    let nets = circuit.nets.as_slice();
    let mems = circuit.mems.as_slice();
    (item.scope as usize) < circuit.scopes.len()
        && (kind_fits(nets, mems, item.kind)
            && (is_countable(item.name.len()) && (is_utf8(&item.name) && text_fits(&item.src))))
}

/// How many slots an item takes.
pub fn slots_of(mems: &[Mem], kind: ItemKind) -> u32
    ensures { result ≡ slots_of mems.now kind }
{
    match kind {
        ItemKind::Node { .. } => 1,
        ItemKind::Memory { mem } => match mems.get(mem as usize) {
            Some(mem) => mem.size,
            None => 0,
        },
    }
}

/// Whether the first slot of each item is the number of slots before it.
pub fn slots_run(mems: &[Mem], items: &[Item]) -> bool
    ensures { result ≡ slots_run mems.now 0 items.now }
{
    let mut before = 0u64;
    for item in items {
        if u64::from(item.first_slot) != before {
            return false;
        }
        before += u64::from(slots_of(mems, item.kind));
    }
    true
}

fn stands_before(item: &Item, rest: &[Item]) -> bool
    ensures { result ≡ stands_before item.now rest.now }
{
    match rest {
        [] => true,
        [next, ..] => item.name < next.name,
    }
}

/// Whether the names of the items stand in the byte order, and none twice.
pub fn names_rise(items: &[Item]) -> bool
    ensures { result ≡ names_rise items.now }
{
    for i in 0..items.len() {
        if !stands_before(&items[i], &items[i + 1..]) {
            return false;
        }
    }
    true
}

/// Whether the texts of a scope are UTF-8.
pub fn scope_fits(scope: &Scope) -> bool
    ensures { result ≡ scope_fits scope.now }
{
    is_utf8(&scope.name)
        && (is_utf8(&scope.module) && (text_fits(&scope.module_src) && text_fits(&scope.cell_src)))
}

fn has_name(scopes: &[Scope], name: &Name) -> bool
    ensures { result ≡ list_any (λ other. bytes_eq name.now other.name) scopes.now }
{
    scopes.iter().any(|other| *name == other.name)
}

/// Whether no name of a scope stands twice.
pub fn names_differ(scopes: &[Scope]) -> bool
    ensures { result ≡ names_differ scopes.now }
{
    for i in 0..scopes.len() {
        if has_name(&scopes[i + 1..], &scopes[i].name) {
            return false;
        }
    }
    true
}

/// Whether one of the scopes has the empty name.
pub fn some_top(scopes: &[Scope]) -> bool
    ensures { result ≡ list_any (λ s. length s.name == 0) scopes.now }
{
    scopes.iter().any(|s| s.name.is_empty())
}

fn is_node_of(net: u32, kind: ItemKind) -> bool
    ensures { result ≡ is_node_of net kind }
{
    match kind {
        ItemKind::Node { net: own, .. } => own == net,
        ItemKind::Memory { .. } => false,
    }
}

fn is_shown_once(items: &[Item], net: u32) -> bool
    ensures { result ≡ is_shown_once items.now net }
{
    items.iter().filter(|i| is_node_of(net, i.kind)).count() == 1
}

fn has_number(numbers: &[u32], number: u32) -> bool
    ensures { result ≡ list_any (λ other. other == number) numbers.now }
{
    numbers.iter().any(|other| *other == number)
}

fn numbers_differ(numbers: &[u32]) -> bool
    ensures { result ≡ numbers_differ numbers.now }
{
    for i in 0..numbers.len() {
        if has_number(&numbers[i + 1..], numbers[i]) {
            return false;
        }
    }
    true
}

fn inputs_shown(circuit: &Circuit) -> bool
    ensures { result ≡ list_all (λ net. nat_lt net (length circuit.now.nets) && is_shown_once circuit.now.items net) circuit.now.inputs }
{
    let items = circuit.items.as_slice();
    let inputs = circuit.inputs.as_slice();
    inputs.iter().all(|net| (*net as usize) < circuit.nets.len() && is_shown_once(items, *net))
}

/// Whether each input is a net that is shown once, and none stands twice.
pub fn inputs_fit(circuit: &Circuit) -> bool
    ensures { result ≡ inputs_fit circuit.now.nets circuit.now.items circuit.now.inputs }
{
    inputs_shown(circuit) && numbers_differ(circuit.inputs.as_slice())
}
