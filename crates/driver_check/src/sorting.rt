//! A circuit's bits and nodes, sorted by what they need.
ghost use Rattle.std.specs.Prelude.{◌≡◌, ◌≤◌, IfOk, MatchResult, true};
ghost use Rattle.circuit.specs.Valid.{is_valid};
ghost use Rattle.driver_check.specs.Faults.{SaysTwoDrivers};
ghost use Rattle.driver_check.specs.Invariants.{IsFirstMarked};
ghost use Rattle.driver_check.specs.Sorting.{IsSorting};

use crate::drivers::{least_shared, owners};
use crate::faults::two_drivers;
use crate::graph::Graph;
use crate::numbering::{Numbering, number_bits};
use crate::parts::{Parts, parts_of};
use crate::rows::graph_of;
use crate::search::{Search, is_stuck, sort};
use circuit::{Circuit, DesignFault};
use sim_base::NoMemory;
use std::alloc::Global;

/// What was found out about a circuit in which no bit has two drives.
#[derive(Debug, Drop)]
pub struct Sorting {
    pub numbering: Numbering,
    /// For each bit the place of its drive, or else how many drives there are.
    pub owners: Vec<usize>,
    pub parts: Parts,
    pub graph: Graph,
    pub search: Search,
}

/// Sorts the bits and the nodes of a circuit, unless two drives share a bit.
pub fn sort_circuit(
    alloc: Global,
    circuit: &Circuit,
) -> Result<Result<Sorting, DesignFault>, NoMemory>
    requires { is_valid circuit.now ≡ true }
    ensures { IfOk result (λ r. MatchResult r (λ s. IsSorting circuit.now s) (λ f. SaysTwoDrivers circuit.now f)) }
{
    let numbering = number_bits(alloc, circuit.nets.as_slice())?;
    let owners = owners(alloc, circuit, &numbering)?;
    let least = least_shared(circuit, &numbering, &owners);
    if least < numbering.bits {
        return Ok(Err(two_drivers(alloc, circuit, &numbering, &owners, least)?));
    }
    let parts = parts_of(alloc, circuit)?;
    let graph = graph_of(alloc, circuit, &numbering, &parts, &owners)?;
    let search = sort(alloc, &graph)?;
    Ok(Ok(Sorting {
        numbering,
        owners,
        parts,
        graph,
        search,
    }))
}

impl Sorting {
    /// The least number of a bit that leads into a cycle, or else how many bits there are.
    pub fn first_stuck(&self, circuit: &Circuit) -> usize
        requires { IsSorting circuit.now self.now }
        ensures first { IsFirstMarked self.now result }
        ensures within { result ≤ self.now.numbering.bits }
    {
        let _ = circuit;
        for number in 0..self.numbering.bits {
            if is_stuck(&self.search.marks, number) {
                return number;
            }
        }
        self.numbering.bits
    }
}
