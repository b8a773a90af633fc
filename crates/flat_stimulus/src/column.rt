//! The columns of a stimulus' text.
ghost use Rattle.std.specs.Prelude.{◌≡◌, ◌++◌, [], ◌∷◌, ◌<◌, ◌==◌, Err, None, Some, IfOk, length, position, slice_get};
ghost use Rattle.flat_design.specs.Flat.{IsFlat, IsNodeOf, width_of};
ghost use Rattle.flat_stimulus.specs.Text.{columns_among, columns_of, inputs_line, numbers_of_columns};

use circuit::{Circuit, Item, ItemKind};
use flat_text::FlatFault;
use sim_base::{Name, NoMemory};
use std::alloc::Global;

/// A column has the values of an item that is an input.
#[derive(Debug, Drop)]
pub struct Column {
    pub name: Name,
    pub net: u32,
    /// In bits.
    pub width: u32,
}

/// The columns of the items that are inputs, in their order.
pub fn columns_of(alloc: Global, circuit: &Circuit) -> Result<Vec<Column>, FlatFault>
    requires { IsFlat circuit.now }
    ensures ok { IfOk result (λ v. v.items ≡ columns_of circuit.now) }
    ensures err { result ≡ Err FlatFault.NotBuilt → ⊥ }
{
    let mut columns = Vec::new(alloc);
    for item in circuit.items.as_slice() {
        push_column(alloc, &mut columns, circuit, item)?;
    }
    Ok(columns)
}

/// The width of a net in bits.
fn width_of(circuit: &Circuit, net: u32) -> u32
    requires { net < length circuit.now.nets }
    ensures { result ≡ width_of (slice_get circuit.now.nets net) }
{
    circuit.nets.as_slice()[net as usize].width
}

/// The column of a net, under this name.
fn column_of(alloc: Global, circuit: &Circuit, name: &Name, net: u32) -> Result<Column, NoMemory>
    requires { net < length circuit.now.nets }
    ensures { IfOk result (λ x. x ≡ record { name = name.now; net = net; width = width_of (slice_get circuit.now.nets net) }) }
{
    let name = Name::copy_of(alloc, name.as_bytes())?;
    let width = width_of(circuit, net);
    Ok(Column { name, net, width })
}

/// Puts the column of an item behind the others, if it is an input.
fn push_column(
    alloc: Global,
    columns: &mut Vec<Column>,
    circuit: &Circuit,
    item: &Item,
) -> Result<(), NoMemory>
    requires { IsNodeOf circuit.now item.now.kind }
    ensures { IfOk result (λ _. columns.new.items ≡ columns.old.items ++ columns_among circuit.now (item.now ∷ [])) }
{
    let ItemKind::Node { net, input, .. } = item.kind else {
        return Ok(());
    };
    if input {
        columns.push(column_of(alloc, circuit, &item.name, net)?)?;
    }
    Ok(())
}

/// The number of the column of a net.
fn number_of(columns: &[Column], net: u32) -> Option<usize>
    ensures { result ≡ position (λ column. column.net == net) columns.now }
{
    columns.iter().position(|column| column.net == net)
}

/// The numbers of the columns of the nets, where each has one.
pub fn numbers_of(alloc: Global, columns: &[Column], nets: &[u32]) -> Result<Vec<usize>, FlatFault>
    ensures ok { IfOk result (λ v. numbers_of_columns columns.now nets.now ≡ Some v.items) }
    ensures not_built { result ≡ Err FlatFault.NotBuilt → numbers_of_columns columns.now nets.now ≡ None }
{
    let mut numbers = Vec::new(alloc);
    for net in nets {
        match number_of(columns, *net) {
            Some(number) => numbers.push(number)?,
            None => return Err(FlatFault::NotBuilt),
        }
    }
    Ok(numbers)
}

/// The line that names the columns.
pub fn line_of(alloc: Global, columns: &[Column]) -> Result<Vec<u8>, NoMemory>
    ensures { IfOk result (λ v. v.items ≡ inputs_line columns.now) }
{
    let mut line = Vec::from_slice(alloc, b"inputs")?;
    for column in columns {
        line.push(b' ')?;
        line.extend_from_slice(column.name.as_bytes())?;
    }
    Ok(line)
}
