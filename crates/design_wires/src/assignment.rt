//! The connections of a module.
ghost use Rattle.std.specs.Prelude.{◌≡◌, IfOk, IfSome};
ghost use Rattle.std.specs.Option.{is_some};
ghost use Rattle.design_parts.specs.Parts.{Passes, Runs};
ghost use Rattle.rtlil_signals.specs.Signals.{sig_pieces};
ghost use Rattle.rtlil_signals.specs.Spans.{pieces_of};
ghost use Rattle.design_wires.specs.Connects as spec;

use circuit::DesignKind;
use design_parts::{Draft, Refusal, refused_at};
use name_table::Table;
use rtlil_signals::{NamedNet, Span, is_named, spans_of, width_of};
use rtlil_tree::Assignment;
use sim_base::NoMemory;
use sqlite_items::Items;
use std::alloc::Global;

/// The word that names a connection where it is refused.
const CONNECT: &[u8] = b"connect";

fn has_no_constant(spans: &[Span]) -> bool
    ensures { result ≡ spec.has_no_constant (pieces_of spans.now) }
{
    for span in spans {
        match span {
            Span::Const {
                of: _,
                from: _,
                to: _,
            } => return false,
            Span::Net {
                net: _,
                from: _,
                to: _,
            } => {}
        }
    }
    true
}

/// The two signals of a connection.
#[derive(Drop)]
struct Ends<'a, 't> {
    left: Items<Span<'a, 't>>,
    right: Items<Span<'a, 't>>,
}

/// The two signals, if their slices are inside and they have one width.
fn drawn_ends<'a, 't>(
    alloc: Global,
    scope: &Table<NamedNet>,
    assignment: &'a Assignment<'t>,
) -> Result<Option<Ends<'a, 't>>, NoMemory>
    ensures found { IfOk result (λ found. is_some found ≡ spec.have_one_width (sig_pieces scope.now assignment.now.left) (sig_pieces scope.now assignment.now.right)) }
    ensures left { IfOk result (λ found. IfSome found (λ ends. pieces_of ends.left ≡ spec.or_none (sig_pieces scope.now assignment.now.left))) }
    ensures right { IfOk result (λ found. IfSome found (λ ends. pieces_of ends.right ≡ spec.or_none (sig_pieces scope.now assignment.now.right))) }
{
    let Some(left) = spans_of(alloc, scope, &assignment.left)? else {
        return Ok(None);
    };
    let Some(right) = spans_of(alloc, scope, &assignment.right)? else {
        return Ok(None);
    };
    if width_of(left.as_slice()) != width_of(right.as_slice()) {
        return Ok(None);
    }
    Ok(Some(Ends { left, right }))
}

#[tactic(auto, using(crate::proofs::Parts::says_fails), unfolding(crate::specs::Connects::connect_checks))]
fn ends_allowed<'a, 't>(
    alloc: Global,
    owner: &[u8],
    scope: &Table<NamedNet>,
    assignment: &'a Assignment<'t>,
) -> Result<Ends<'a, 't>, Refusal>
    ensures passes { Passes (spec.connect_checks owner.now scope.now assignment.now) result }
    ensures left { IfOk result (λ ends. pieces_of ends.left ≡ spec.or_none (sig_pieces scope.now assignment.now.left)) }
    ensures right { IfOk result (λ ends. pieces_of ends.right ≡ spec.or_none (sig_pieces scope.now assignment.now.right)) }
{
    if !is_named(scope, &assignment.left) || !is_named(scope, &assignment.right) {
        return Err(refused_at(alloc, DesignKind::UnknownName, owner, CONNECT));
    }
    let Some(ends) = drawn_ends(alloc, scope, assignment)? else {
        return Err(refused_at(alloc, DesignKind::Width, owner, CONNECT));
    };
    if !has_no_constant(ends.left.as_slice()) {
        return Err(refused_at(alloc, DesignKind::ConstTarget, owner, CONNECT));
    }
    Ok(ends)
}

/// Takes a connection: each bit of its left signal is driven by that of its right one. It is checked in this order:
/// each wire is there; each slice is inside, and both signals have one width; the left one holds no constant.
pub fn connect(
    alloc: Global,
    owner: &[u8],
    scope: &Table<NamedNet>,
    assignment: &Assignment,
    draft: &mut Draft,
) -> Result<(), Refusal>
    ensures { Runs (spec.connect owner.now scope.now assignment.now) draft.old result draft.new }
{
    let ends = ends_allowed(alloc, owner, scope, assignment)?;
    draft.connect(alloc, ends.left.as_slice(), ends.right.as_slice())?;
    Ok(())
}
