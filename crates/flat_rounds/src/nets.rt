//! The number of each net in a round.
ghost use Rattle.std.specs.Prelude.{◌≡◌, ℕ, List, [], length, slice_index};
ghost use Rattle.circuit.specs.Valuation.{valuation};
ghost use Rattle.flat_design.specs.Flat.{IsFlat};
ghost use Rattle.flat_rounds.specs.Fits.{AreInputs};
ghost use Rattle.flat_rounds.specs.Pass.{AreGiven, AreNetNumbers, AreRegNumbers, IsEvaluated, IsSourced};

use crate::word::cell_word;
use circuit::{By, Circuit, one_valuation};

/// Writes the nets that inputs and registers drive.
fn put_sources(circuit: &Circuit, inputs: &[u64], regs: &[u64], nets: &mut Vec<u64>)
    requires flat { IsFlat circuit.now }
    requires inputs { AreInputs circuit.now inputs.now }
    requires regs { AreRegNumbers circuit.now regs.now }
    requires nets { AreNetNumbers circuit.now nets.old.items }
    requires blank { (n : ℕ) → slice_index nets.old.items n ≡ 0 }
    ensures nets { AreNetNumbers circuit.now nets.new.items }
    ensures right { (numbers : List ℕ) (n : ℕ) → AreGiven circuit.now regs.now inputs.now numbers → IsSourced circuit.now (length circuit.now.drives) n
        → slice_index nets.new.items n ≡ slice_index numbers n }
{
    for drive in circuit.drives.as_slice() {
        match &drive.by {
            By::Input(n, _) => nets[drive.net as usize] = inputs[*n as usize],
            By::Reg(n, _) => nets[drive.net as usize] = regs[*n as usize],
            _ => {}
        }
    }
}

/// Writes the nets that cells drive, in the order of the cells.
fn put_cells(circuit: &Circuit, nets: &mut Vec<u64>)
    requires flat { IsFlat circuit.now }
    requires nets { AreNetNumbers circuit.now nets.old.items }
    ensures nets { AreNetNumbers circuit.now nets.new.items }
    ensures right { (regs inputs numbers : List ℕ) → AreGiven circuit.now regs inputs numbers
        → ((n : ℕ) → IsEvaluated circuit.now 0 n → slice_index nets.old.items n ≡ slice_index numbers n)
        → (n : ℕ) → IsEvaluated circuit.now (length circuit.now.drives) n → slice_index nets.new.items n ≡ slice_index numbers n }
{
    let cells = circuit.cells.as_slice();
    for drive in circuit.drives.as_slice() {
        if let By::Cell(n, _) = &drive.by {
            let word = cell_word(&cells[*n as usize], nets);
            nets[drive.net as usize] = word;
        }
    }
}

/// Makes `nets` the numbers of the nets under these inputs and registers.
pub fn evaluate(circuit: &Circuit, inputs: &[u64], regs: &[u64], nets: &mut Vec<u64>)
    requires flat { IsFlat circuit.now }
    requires inputs { AreInputs circuit.now inputs.now }
    requires regs { AreRegNumbers circuit.now regs.now }
    requires long { length nets.old.items ≡ length circuit.now.nets }
    ensures nets { AreNetNumbers circuit.now nets.new.items }
    ensures valuation { nets.new.items ≡ valuation circuit.now (record { regs = regs.now; mems = [] }) inputs.now }
{
    one_valuation(circuit);
    nets.fill(0);
    put_sources(circuit, inputs, regs, nets);
    put_cells(circuit, nets);
}
