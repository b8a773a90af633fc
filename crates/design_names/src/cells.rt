//! Names of cells and of what they are given.
ghost use Rattle.std.specs.Prelude.{◌≡◌, [], IfOk, OnOk, map};
ghost use Rattle.design_names.specs.Names.{any_again};
ghost use Rattle.design_names.specs.Clashes as spec;

use crate::names::is_again;
use name_table::Table;
use rtlil_tree::{Cell, Connection, Setting, Statement};
use sim_base::NoMemory;
use sqlite_items::Items;
use std::alloc::Global;

fn settings_repeat(alloc: Global, settings: &[Setting]) -> Result<bool, NoMemory>
    ensures { IfOk result (λ again. again ≡ any_again [] (map spec.setting_name settings.now)) }
{
    let mut names = Table::new(alloc);
    for setting in settings {
        if is_again(&mut names, setting.name.as_bytes())? {
            return Ok(true);
        }
    }
    Ok(false)
}

fn ports_repeat(alloc: Global, connections: &[Connection]) -> Result<bool, NoMemory>
    ensures { IfOk result (λ again. again ≡ any_again [] (map spec.port_name connections.now)) }
{
    let mut names = Table::new(alloc);
    for connection in connections {
        if is_again(&mut names, connection.port.as_bytes())? {
            return Ok(true);
        }
    }
    Ok(false)
}

/// A parameter or a port is given twice.
fn repeats(alloc: Global, cell: &Cell) -> Result<bool, NoMemory>
    ensures { IfOk result (λ again. again ≡ spec.repeats cell.now) }
{
    if settings_repeat(alloc, cell.settings.as_slice())? {
        return Ok(true);
    }
    ports_repeat(alloc, cell.connections.as_slice())
}

/// Whether a cell behind earlier ones has the name of one of them, or is given something twice.
fn cell_clashes<'t>(
    alloc: Global,
    statement: &Statement<'t>,
    earlier: &mut Table<'t, ()>,
) -> Result<bool, NoMemory>
    ensures value { IfOk result (λ clash. clash ≡ spec.cell_clashes earlier.old statement.now) }
    ensures names { OnOk result (earlier.new ≡ spec.with_cell earlier.old statement.now) }
{
    match statement {
        Statement::Cell(cell) => {
            let again = is_again(earlier, cell.name.as_bytes())?;
            Ok(again || repeats(alloc, cell)?)
        }
        Statement::Parameter(_)
        | Statement::Wire(_)
        | Statement::Memory(_)
        | Statement::Connect(_)
        | Statement::Process(_) => Ok(false),
    }
}

/// Statement by statement whether its cell clashes.
pub(crate) fn cells_clash(alloc: Global, statements: &[Statement]) -> Result<Items<bool>, NoMemory>
    ensures { IfOk result (λ clashes. clashes ≡ spec.cells_clash [] statements.now) }
{
    let mut clashes = Items::new(alloc);
    let mut earlier = Table::new(alloc);
    for statement in statements {
        clashes.push(cell_clashes(alloc, statement, &mut earlier)?)?;
    }
    Ok(clashes)
}
