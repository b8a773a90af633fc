//! Counting steps.
ghost use Rattle.std.specs.Prelude.{◌≡◌, ◌+◌};

use sim_base::Steps;
use std::sync::ledger::Ledger;

/// Takes so many steps.
pub fn take_steps<L: Ledger>(n: usize, steps: &mut Steps<L>)
    ensures { steps.new ≡ steps.old + n }
{
    for _ in 0..n {
        steps.tick();
    }
}
