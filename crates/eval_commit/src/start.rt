//! What stands before the first sample.
ghost use Rattle.std.specs.Prelude.{◌≡◌, List, IfOk, map, true};
ghost use Rattle.sim_base.specs.BitValue.{zeros};
ghost use Rattle.circuit.specs.Rounds.{start_state};
ghost use Rattle.circuit.specs.Store.{start_store};
ghost use Rattle.circuit.specs.Valid.{is_valid};
ghost use Rattle.circuit.specs.declared.netlist.Circuit.{Circuit as TheCircuit};
ghost use Rattle.circuit.specs.declared.netlist.Drive.{Drive as TheDrive};
ghost use Rattle.memory_cells.specs.Rows.{start_rows};
ghost use Rattle.sim_base.specs.Values.{widths};
ghost use Rattle.eval_commit.specs.Computed.{AreAllRows};
ghost use Rattle.eval_commit.specs.Evaluation.{AreInputsOf, Holds, IsBlank, input_width};

use circuit::{Circuit, Listing};
use memory_cells::{Rows, law_of_memories};
use sim_base::{Bits, NoMemory};
use std::alloc::Global;

/// The rows of each memory before the first sample.
pub(crate) fn start_rows(alloc: Global, circuit: &Circuit) -> Result<Listing<Rows>, NoMemory>
    requires { is_valid circuit.now ≡ true }
    ensures { IfOk result (λ rows. rows ≡ map start_rows circuit.now.mems) }
{
    law_of_memories();
    let mut rows = Listing::new(alloc);
    for mem in circuit.mems.as_slice() {
        rows.push(Rows::new(alloc, mem)?)?;
    }
    Ok(rows)
}

/// For each memory room for one of its rows.
pub(crate) fn rooms_of(alloc: Global, circuit: &Circuit) -> Result<Vec<Bits>, NoMemory>
    ensures { IfOk result (λ rooms. widths rooms.items ≡ map (λ m. m.width) circuit.now.mems) }
{
    let mut rooms = Vec::new(alloc);
    for mem in circuit.mems.as_slice() {
        rooms.push(Bits::zero(alloc, mem.width)?)?;
    }
    Ok(rooms)
}

/// The width of an input, which is a net.
fn input_width(circuit: &Circuit, net: u32) -> u32
    ensures { result ≡ input_width circuit.now net }
{
    match circuit.nets.get(net as usize) {
        Some(net) => net.width,
        None => 0,
    }
}

/// Inputs that are all 0, one for each of the circuit's, of the width of its net. A caller gives them other
/// numbers and hands them to `Machine::settle`.
pub fn zero_inputs(alloc: Global, circuit: &Circuit) -> Result<Listing<Bits>, NoMemory>
    ensures inputs { IfOk result (λ inputs. AreInputsOf circuit.now inputs) }
    ensures zero { IfOk result (λ inputs. inputs ≡ map (λ net. zeros (input_width circuit.now net)) circuit.now.inputs) }
{
    let mut inputs = Listing::new(alloc);
    for net in circuit.inputs.as_slice() {
        inputs.push(Bits::zero(alloc, input_width(circuit, *net))?)?;
    }
    Ok(inputs)
}

/// Before the first sample the store and the rows hold the start state, and all nets are 0.
pub(crate) fn law_of_first_state()
    ensures holds { (c : TheCircuit) → Holds c (map start_rows c.mems) (start_store c) (start_state c) }
    ensures rows { (c : TheCircuit) → AreAllRows c (map start_rows c.mems) }
    ensures blank { (c : TheCircuit) (roots : List TheDrive) → IsBlank roots (start_store c).nets }
{
    law_of_memories();
}
