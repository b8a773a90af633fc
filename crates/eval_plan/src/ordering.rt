//! The order of a circuit, or why it has none.
ghost use Rattle.std.specs.Prelude.{◌≡◌, ◌⊎◌, IfErr, IfOk, MatchResult, true};
ghost use Rattle.circuit.specs.Acyclic.{IsDrivenOnce, IsInOrder};
ghost use Rattle.circuit.specs.Valid.{is_valid};
ghost use Rattle.circuit.specs.declared.fault.DesignKind.TheVariants as kind;
ghost use Rattle.driver_check.specs.Faults.{SaysFault, SaysLoop, SaysTwoDrivers};
ghost use Rattle.driver_check.specs.Sorting.{IsSorting};
ghost use Rattle.eval_plan.specs.Plans.{IsPlanOf};

use crate::listing::sources_of;
use crate::nodes::nodes_of;
use crate::origins::origins_of;
use crate::plan::Plan;
use crate::readers::readers_of;
use crate::roots::roots_of;
use circuit::{Circuit, DesignFault, DesignKind};
use driver_check::{Sorting, check_drivers};
use sim_base::{Name, NoMemory};
use sqlite_items::Items;
use std::alloc::Global;

fn no_memory(alloc: Global) -> DesignFault
    ensures { result.kind ≡ kind.NoMemory }
{
    DesignFault {
        kind: DesignKind::NoMemory,
        place: Name::new(Vec::new(alloc)),
        bits: Items::new(alloc),
        drives: Items::new(alloc),
    }
}

/// The plan of a circuit that is in order.
fn plan_of(alloc: Global, circuit: &Circuit, sorting: &Sorting) -> Result<Plan, NoMemory>
    requires valid { is_valid circuit.now ≡ true }
    requires sorting { IsSorting circuit.now sorting.now }
    requires order { IsInOrder circuit.now }
    ensures { IfOk result (λ p. IsPlanOf circuit.now p) }
{
    let nodes = nodes_of(alloc, circuit, sorting)?;
    let origins = origins_of(alloc, circuit, sorting)?;
    let roots = roots_of(alloc, circuit, sorting, &origins)?;
    let sources = sources_of(alloc, circuit, &sorting.parts, roots.as_slice())?;
    let readers = readers_of(alloc, circuit, sorting, nodes.as_slice(), roots.as_slice())?;
    Ok(Plan {
        nodes,
        roots,
        sources,
        readers,
    })
}

/// The plan of a circuit, or why it has none.
fn plan_or_fault(alloc: Global, circuit: &Circuit) -> Result<Result<Plan, DesignFault>, NoMemory>
    requires { is_valid circuit.now ≡ true }
    ensures { IfOk result (λ r. MatchResult r (λ p. IsPlanOf circuit.now p) (λ f. SaysFault circuit.now f)) }
{
    match check_drivers(alloc, circuit)? {
        Ok(sorting) => Ok(Ok(plan_of(alloc, circuit, &sorting)?)),
        Err(fault) => Ok(Err(fault)),
    }
}

/// Orders the nodes of a circuit and finds where each bit comes from, where each bit has one driver at most
/// and none depends on itself. The time and the memory are in proportion to the bits of the nets, the
/// drives, and the bits that cells and read ports read; nothing recurses.
pub fn order(alloc: Global, circuit: &Circuit) -> Result<Plan, DesignFault>
    requires { is_valid circuit.now ≡ true }
    ensures plan { IfOk result (λ p. IsPlanOf circuit.now p) }
    ensures two_drivers { IfErr result (λ f. f.kind ≡ kind.TwoDrivers → SaysTwoDrivers circuit.now f) }
    ensures comb_loop { IfErr result (λ f. f.kind ≡ kind.CombLoop → IsDrivenOnce circuit.now × SaysLoop circuit.now f) }
    ensures kinds { IfErr result (λ f. (f.kind ≡ kind.TwoDrivers) ⊎ ((f.kind ≡ kind.CombLoop) ⊎ (f.kind ≡ kind.NoMemory))) }
{
    match plan_or_fault(alloc, circuit) {
        Ok(found) => found,
        Err(NoMemory) => Err(no_memory(alloc)),
    }
}
