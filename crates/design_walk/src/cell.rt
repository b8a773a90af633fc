//! The cells of an instance by their types.
ghost use Rattle.design_wires.specs.Places.{seen_here};
ghost use Rattle.design_parts.specs.Parts.{Passes};
ghost use Rattle.design_walk.specs.Cells as spec;

use cell_library::line_of;
use circuit::DesignKind;
use design_cells::library_cell;
use design_diagnostics::{silent_cell, type_named};
use design_memory::memory;
use design_parts::{Draft, Refusal, refused_at};
use design_wires::Here;
use name_table::Table;
use rtlil_signals::NamedNet;
use rtlil_tree::Cell;
use std::alloc::Global;

/// Refuses a cell that has a name which stands for something else already. It is the first check of a cell.
#[tactic(auto, using(crate::proofs::Steps::says_fails))]
pub fn clash_allowed(alloc: Global, owner: &[u8], clash: bool, cell: &Cell) -> Result<(), Refusal>
    ensures { Passes (spec.clash_checks owner.now clash cell.now) result }
{
    if clash {
        return Err(refused_at(
            alloc,
            DesignKind::DuplicateName,
            owner,
            cell.name.as_bytes(),
        ));
    }
    Ok(())
}

/// Takes a cell whose type is one of the library, `$mem_v2`, or one of those that drive nothing, whatever modules the
/// file has. It answers whether the type is one of these, and does nothing where it is not.
#[tactic(auto, unfolding(crate::specs::Cells::typed_cell))]
pub fn typed_cell(
    alloc: Global,
    here: &Here,
    scope: &Table<NamedNet>,
    cell: &Cell,
    draft: &mut Draft,
) -> Result<bool, Refusal>
    ensures { spec.RunsIf (spec.typed_cell (seen_here here.now) scope.now cell.now) draft.old result draft.new }
{
    let kind = cell.kind.as_bytes();
    if let Some(line) = line_of(kind) {
        library_cell(alloc, here.owner, scope, line, cell, draft)?;
        return Ok(true);
    }
    if kind == b"$mem_v2".as_slice() {
        memory(alloc, here, scope, cell, draft)?;
        return Ok(true);
    }
    if let Some(silent) = type_named(kind) {
        silent_cell(alloc, here, scope, silent, cell, draft)?;
        return Ok(true);
    }
    Ok(false)
}
