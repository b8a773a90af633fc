//! The wires of an instance.
ghost use Rattle.std.specs.Prelude.{◌≡◌, ◌+◌, ◌<◌, ◌≤◌, ◌++◌, ◌∷◌, [], IfOk, None, OnOk, length, option_map, sum_by, true};
ghost use Rattle.design_parts.specs.Parts.{Passes, Runs};
ghost use Rattle.rtlil_signals.specs.Signals.{net_named};
ghost use Rattle.rtlil_tree.specs.declared.module.Statement.TheVariants as statement;
ghost use Rattle.design_wires.specs.Places.{seen_here, seen_shown};
ghost use Rattle.design_wires.specs.Wires as spec;

use crate::here::{Here, Shown};
use crate::text::{init_of, source_text};
use circuit::{DesignKind, Item, ItemKind, Net};
use design_parts::{Draft, Refusal, refused_at};
use name_table::Table;
use rtlil_signals::NamedNet;
use rtlil_tree::{Statement, Wire, WireOptions};
use sim_base::{Name, NoMemory};
use std::alloc::Global;

/// The most bits of a wire.
const WIDEST: u32 = 65536;

/// The most nets of a design.
const MOST_NETS: usize = 1_000_000;

/// The most bits of all nets of a design.
const MOST_NET_BITS: u64 = 16_777_216;

/// An identifier that is shown begins with `\`.
pub fn is_public(name: &[u8]) -> bool
    ensures { result ≡ spec.is_public name.now }
{
    match name.first() {
        Some(first) => *first == b'\\',
        None => false,
    }
}

/// What a name that begins with `\` is shown as.
pub fn shown_name(alloc: Global, shown: &Shown, name: &[u8]) -> Result<Name, NoMemory>
    requires { spec.is_public name.now ≡ true }
    ensures { IfOk result (λ n. n ≡ spec.shown_name (seen_shown shown.now) name.now) }
{
    let mut bytes = Vec::from_slice(alloc, shown.prefix)?;
    bytes.extend_from_slice(&name[1..])?;
    Ok(Name::new(bytes))
}

/// Whether the name that an identifier is shown as is within the limit, where it is shown.
pub fn name_fits(shown: &Option<Shown>, name: &[u8]) -> bool
    ensures { result ≡ spec.name_fits (option_map seen_shown shown.now) name.now }
{
    let Some(shown) = shown else {
        return true;
    };
    !is_public(name) || shown.prefix.len() as u128 + (name.len() - 1) as u128 <= u32::MAX as u128
}

fn has_one_direction(options: &WireOptions) -> bool
    ensures { result ≡ spec.has_one_direction options.now }
{
    !(options.inout.is_some() || (options.input.is_some() && options.output.is_some()))
}

fn has_room(shown: &Option<Shown>, wire: &Wire, draft: &Draft) -> bool
    ensures { result ≡ spec.has_room (option_map seen_shown shown.now) wire.now draft.now }
{
    draft.net_count() < MOST_NETS
        && draft.bit_count() as u128 + wire.options.width as u128 <= MOST_NET_BITS as u128
        && name_fits(shown, wire.name.as_bytes())
}

#[tactic(auto, using(crate::proofs::Parts::says_fails), unfolding(crate::specs::Wires::wire_checks))]
fn wire_allowed(
    alloc: Global,
    here: &Here,
    scope: &Table<NamedNet>,
    wire: &Wire,
    draft: &Draft,
) -> Result<(), Refusal>
    ensures passes { Passes (spec.wire_checks (seen_here here.now) scope.now wire.now draft.now) result }
    ensures new { OnOk result (net_named scope.now wire.now.name ≡ None) }
    ensures room { OnOk result (length draft.now.nets < spec.most_nets) }
    ensures bits { OnOk result (sum_by (λ n. n.width) draft.now.nets + wire.now.options.width ≤ spec.most_net_bits) }
{
    let name = wire.name.as_bytes();
    if scope.get(name).is_some() {
        return Err(refused_at(alloc, DesignKind::DuplicateName, here.owner, name));
    }
    if !has_one_direction(&wire.options) {
        return Err(refused_at(alloc, DesignKind::Inout, here.owner, name));
    }
    if wire.options.width > WIDEST {
        return Err(refused_at(alloc, DesignKind::TooWide, here.owner, name));
    }
    if !has_room(&here.shown, wire, draft) {
        return Err(refused_at(alloc, DesignKind::TooLarge, here.owner, name));
    }
    Ok(())
}

fn wire_net(alloc: Global, here: &Here, wire: &Wire) -> Result<Net, NoMemory>
    ensures { IfOk result (λ net. net ≡ spec.wire_net (seen_here here.now) wire.now) }
{
    let mut path = Vec::from_slice(alloc, here.prefix)?;
    path.extend_from_slice(wire.name.as_bytes())?;
    Ok(Net {
        path: Name::new(path),
        width: wire.options.width,
    })
}

fn node_item(alloc: Global, shown: &Shown, net: u32, wire: &Wire) -> Result<Item, NoMemory>
    requires { spec.is_public wire.now.name ≡ true }
    ensures { IfOk result (λ item. item ≡ spec.node_item (seen_shown shown.now) net wire.now) }
{
    let name = shown_name(alloc, shown, wire.name.as_bytes())?;
    let src = source_text(alloc, wire.attributes.as_slice())?;
    Ok(Item {
        name,
        scope: shown.scope,
        kind: ItemKind::Node {
            net,
            lsb_at: wire.options.offset,
            input: wire.options.input.is_some(),
            output: wire.options.output.is_some(),
        },
        src,
        first_slot: 0,
    })
}

/// Appends the item of a wire, if it is shown.
fn show(
    alloc: Global,
    shown: &Option<Shown>,
    net: u32,
    wire: &Wire,
    draft: &mut Draft,
) -> Result<(), NoMemory>
    ensures { OnOk result (draft.new ≡ (record draft.old { items = draft.old.items ++ spec.wire_items (option_map seen_shown shown.now) net wire.now })) }
{
    let Some(shown) = shown else {
        return Ok(());
    };
    if !is_public(wire.name.as_bytes()) {
        return Ok(());
    }
    draft.push_item(node_item(alloc, shown, net, wire)?)
}

fn wire<'t>(
    alloc: Global,
    here: &Here,
    wire: &Wire<'t>,
    scope: &mut Table<'t, NamedNet>,
    draft: &mut Draft<'t>,
) -> Result<(), Refusal>
    ensures runs { Runs (spec.wire (seen_here here.now) scope.old wire.now) draft.old result draft.new }
    ensures scope { OnOk result (scope.new ≡ scope.old ++ spec.named (length draft.old.nets) (statement.Wire wire.now)) }
    ensures counted { OnOk result (length draft.new.nets ≡ length draft.old.nets + 1) }
{
    wire_allowed(alloc, here, scope, wire, draft)?;
    let net = draft.net_count() as u32;
    draft.push_net(wire_net(alloc, here, wire)?, init_of(wire))?;
    show(alloc, &here.shown, net, wire, draft)?;
    let named = NamedNet {
        net,
        width: wire.options.width,
    };
    scope.add(wire.name.as_bytes(), named)?;
    Ok(())
}

#[tactic(auto, using(crate::proofs::Parts::nothing_ok), unfolding(crate::specs::Wires::wire_in))]
fn take_wire<'t>(
    alloc: Global,
    here: &Here,
    statement: &Statement<'t>,
    scope: &mut Table<'t, NamedNet>,
    draft: &mut Draft<'t>,
) -> Result<(), Refusal>
    ensures runs { Runs (spec.wire_in (seen_here here.now) scope.old statement.now) draft.old result draft.new }
    ensures scope { OnOk result (scope.new ≡ scope.old ++ spec.named (length draft.old.nets) statement.now) }
    ensures counted { OnOk result (length draft.new.nets ≡ length draft.old.nets + length (spec.named (length draft.old.nets) statement.now)) }
{
    match statement {
        Statement::Wire(found) => wire(alloc, here, found, scope, draft),
        Statement::Parameter(_)
        | Statement::Memory(_)
        | Statement::Cell(_)
        | Statement::Connect(_)
        | Statement::Process(_) => Ok(()),
    }
}

/// Takes the wires of an instance, and answers what their names stand for. Each is checked in this order: no
/// earlier wire has its name; it is not `inout`, nor both input and output; it has at most 65,536 bits; with it
/// there are at most 1,000,000 nets of 16,777,216 bits, and the name under which it is shown has at most
/// 4,294,967,295 bytes.
pub fn wires<'t>(
    alloc: Global,
    here: &Here,
    statements: &[Statement<'t>],
    draft: &mut Draft<'t>,
) -> Result<Table<'t, NamedNet>, Refusal>
    ensures runs { Runs (spec.wires (seen_here here.now) [] statements.now) draft.old result draft.new }
    ensures scope { IfOk result (λ scope. scope ≡ spec.scope_of (length draft.old.nets) statements.now) }
{
    let mut scope = Table::new(alloc);
    for statement in statements {
        take_wire(alloc, here, statement, &mut scope, draft)?;
    }
    Ok(scope)
}
