//! Laws of parts.
ghost use Rattle.design_parts.specs.Parts.{Made, RunInOrder, Walk};

/// A part behind another one is run from what the first left, and not where the first has a fault.
#[tactic(auto, using(crate::proofs::Runs::run_then))]
pub fn law_of_order()
    ensures { (p q : Walk) (so_far : Made) → RunInOrder p q so_far }
{}
