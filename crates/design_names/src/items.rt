//! Names of the items of memories.
ghost use Rattle.std.specs.Prelude.{◌≡◌, [], IfOk, OnOk};
ghost use Rattle.design_names.specs.Clashes as spec;

use crate::names::is_again;
use design_memory::item_identifier;
use name_table::Table;
use rtlil_signals::NamedNet;
use rtlil_tree::{Cell, Statement};
use sim_base::{Name, NoMemory};
use sqlite_items::Items;
use std::alloc::Global;

fn cell_item(alloc: Global, cell: &Cell) -> Result<Option<Name>, NoMemory>
    ensures { IfOk result (λ item. item ≡ spec.cell_item cell.now) }
{
    if cell.kind.as_bytes() != b"$mem_v2".as_slice() {
        return Ok(None);
    }
    item_identifier(alloc, cell.settings.as_slice())
}

/// The identifier of the item that a statement gives, if it is a memory with one.
fn item_of(alloc: Global, statement: &Statement) -> Result<Option<Name>, NoMemory>
    ensures { IfOk result (λ item. item ≡ spec.item_of statement.now) }
{
    match statement {
        Statement::Cell(cell) => cell_item(alloc, cell),
        Statement::Parameter(_)
        | Statement::Wire(_)
        | Statement::Memory(_)
        | Statement::Connect(_)
        | Statement::Process(_) => Ok(None),
    }
}

pub(crate) fn items_of(
    alloc: Global,
    statements: &[Statement],
) -> Result<Items<Option<Name>>, NoMemory>
    ensures { IfOk result (λ items. items ≡ spec.items_of statements.now) }
{
    let mut items = Items::new(alloc);
    for statement in statements {
        items.push(item_of(alloc, statement)?)?;
    }
    Ok(items)
}

/// Whether the item of a memory behind earlier ones has the name of a wire or of one of them.
fn item_clashes<'n>(
    wires: &Table<NamedNet>,
    item: &'n Option<Name>,
    earlier: &mut Table<'n, ()>,
) -> Result<bool, NoMemory>
    ensures value { IfOk result (λ clash. clash ≡ spec.item_clashes wires.now earlier.old item.now) }
    ensures names { OnOk result (earlier.new ≡ spec.with_item earlier.old item.now) }
{
    match item {
        Some(name) => {
            let again = is_again(earlier, name.as_bytes())?;
            Ok(wires.get(name.as_bytes()).is_some() || again)
        }
        None => Ok(false),
    }
}

/// One by one whether an item clashes.
pub(crate) fn items_clash(
    alloc: Global,
    wires: &Table<NamedNet>,
    items: &[Option<Name>],
) -> Result<Items<bool>, NoMemory>
    ensures { IfOk result (λ clashes. clashes ≡ spec.items_clash wires.now [] items.now) }
{
    let mut clashes = Items::new(alloc);
    let mut earlier = Table::new(alloc);
    for item in items {
        clashes.push(item_clashes(wires, item, &mut earlier)?)?;
    }
    Ok(clashes)
}
