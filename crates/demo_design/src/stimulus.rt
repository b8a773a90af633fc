//! The text of the demo's stimulus.
ghost use Rattle.std.specs.Prelude.{◌≡◌, IfOk};
ghost use Rattle.demo_design.specs.DemoText.{stimulus_text};

use sim_base::NoMemory;
use std::alloc::Global;

const STIMULUS: &[u8] = b"stimulus 0
inputs clk
block 16384 0.00000001
0.0 0
0.000000005 1
end
";

/// The text of the stimulus under which the demo runs: 16,384 periods of 10 nanoseconds, each with a sample at its start,
/// where the clock is 0, and one in its middle, where it is 1. Its form is this project's own.
pub fn stimulus_text(alloc: Global) -> Result<Vec<u8>, NoMemory>
    ensures { IfOk result (λ text. text.items ≡ stimulus_text) }
{
    Ok(Vec::from_slice(alloc, STIMULUS)?)
}
