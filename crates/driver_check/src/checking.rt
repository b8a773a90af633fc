//! The drivers of a circuit, checked.
ghost use Rattle.std.specs.Prelude.{◌≡◌, IfOk, MatchResult, true};
ghost use Rattle.circuit.specs.Acyclic.{IsInOrder};
ghost use Rattle.circuit.specs.Valid.{is_valid};
ghost use Rattle.driver_check.specs.Faults.{SaysFault};
ghost use Rattle.driver_check.specs.Sorting.{IsSorting};

use crate::sorting::{Sorting, sort_circuit};
use crate::walk::comb_loop;
use circuit::{Circuit, DesignFault};
use sim_base::NoMemory;
use std::alloc::Global;

/// Sorts the bits and the nodes of a circuit in which each bit has one driver at most and none depends on
/// itself, or says why it is none.
pub fn check_drivers(
    alloc: Global,
    circuit: &Circuit,
) -> Result<Result<Sorting, DesignFault>, NoMemory>
    requires { is_valid circuit.now ≡ true }
    ensures { IfOk result (λ r. MatchResult r (λ s. IsSorting circuit.now s × IsInOrder circuit.now) (λ f. SaysFault circuit.now f)) }
{
    match sort_circuit(alloc, circuit)? {
        Ok(sorting) => without_loop(alloc, circuit, sorting),
        Err(fault) => Ok(Err(fault)),
    }
}

/// The sorting, unless some bit depends on itself.
fn without_loop(
    alloc: Global,
    circuit: &Circuit,
    sorting: Sorting,
) -> Result<Result<Sorting, DesignFault>, NoMemory>
    requires valid { is_valid circuit.now ≡ true }
    requires sorting { IsSorting circuit.now sorting }
    ensures { IfOk result (λ r. MatchResult r (λ s. IsSorting circuit.now s × IsInOrder circuit.now) (λ f. SaysFault circuit.now f)) }
{
    let first = sorting.first_stuck(circuit);
    if first < sorting.numbering.bits {
        let fault = comb_loop(alloc, circuit, &sorting, first)?;
        return Ok(Err(fault));
    }
    Ok(Ok(sorting))
}
