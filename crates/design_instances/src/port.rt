//! The wires of a module as its instances are joined to them.
ghost use Rattle.std.specs.Prelude.{◌≡◌, [], IfOk, OnErr, OnOk};
ghost use Rattle.design_instances.specs.Ports as spec;

use name_table::Table;
use rtlil_tree::{Statement, Wire};
use sim_base::NoMemory;
use std::alloc::Global;

/// A wire of a module, as an instance is joined to it.
#[derive(Clone, Copy, Debug, PartialEq, Eq)]
pub struct PortWire {
    /// In bits.
    pub width: u32,
    pub is_input: bool,
    pub is_output: bool,
}

fn port_wire(wire: &Wire) -> PortWire
    ensures { result ≡ spec.port_wire wire.now }
{
    PortWire {
        width: wire.options.width,
        is_input: wire.options.input.is_some(),
        is_output: wire.options.output.is_some(),
    }
}

fn add_statement<'t>(
    statement: &Statement<'t>,
    ports: &mut Table<'t, PortWire>,
) -> Result<(), NoMemory>
    ensures { OnOk result (ports.new ≡ spec.with_statement ports.old statement.now) }
{
    match statement {
        Statement::Wire(wire) => {
            ports.add(wire.name.as_bytes(), port_wire(wire))?;
            Ok(())
        }
        Statement::Parameter(_)
        | Statement::Memory(_)
        | Statement::Cell(_)
        | Statement::Connect(_)
        | Statement::Process(_) => Ok(()),
    }
}

/// The wires among the statements of a module by their names, in their order; of equal names the first.
pub fn ports_of<'t>(
    alloc: Global,
    statements: &[Statement<'t>],
) -> Result<Table<'t, PortWire>, NoMemory>
    ensures { IfOk result (λ ports. ports ≡ spec.ports_of statements.now) }
{
    let mut ports = Table::new(alloc);
    for statement in statements {
        add_statement(statement, &mut ports)?;
    }
    Ok(ports)
}
